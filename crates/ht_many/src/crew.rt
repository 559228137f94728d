//! A crew of workers receives captures, or each worker receives its own whole.
ghost use Rattle.std.specs.Prelude.{◌≡◌, length, map, IfOk};
ghost use Rattle.ht_feed.specs.Limits.{IsCrewSize, IsWindowSize};
ghost use Rattle.ht_io.specs.Writing.{Growing};
ghost use Rattle.ht_results.specs.Texts.{rx_text};
ghost use Rattle.ht_lanes.specs.Lanes.{MayRun, RunsLanes, sides_of};
ghost use Rattle.ht_many.specs.Several.{devices};
ghost use Rattle.ht_many.specs.CaptureLanes.{AreOpen};
ghost use Rattle.ht_many.specs.Receiving.{ReceivesEach};

use crate::alone::AloneReceiver;
use crate::apart::{are_even, texts_apart};
use crate::bundle::{have_text, sinks_of, sources_of};
use crate::capture_lane::{CrewLane, open_crew_lanes};
use crate::ending::end_all;
use crate::many_end::ManyEnd;
use circular_buffer::HeapCircularBuffer;
use ht_bundles::Bundled;
use ht_drive::drive;
use ht_eights::LaneWork;
use ht_feed::{Gate, Shared, Work};
use ht_frames::{BesideFrames, Frames, Whole};
use ht_io::{GrowSink, Sink, Source};
use ht_lanes::{Lane, LaneBlock, Lanes, finish_lanes};
use ht_rx::HardLabels;
use std::alloc::{AllocError, Global};
use std::sync::Wait;
use std::thread::Threads;

// Runs all blocks of lanes that gave none yet by a crew, and hands each lane the answers to its own. Behind the last one each
// puts what it keeps back. Any kind of lane will do. The only error is lack of memory.
fn drive_lanes<
    R: Threads + Wait + Sync,
    L: Lane<S, K>,
    S,
    K,
    W: Work<LaneBlock<L::Block>, Answer = L::Answer> + Sync,
>(
    rt: &R,
    alloc: Global,
    workers: u8,
    window: u16,
    work: &W,
    lanes: &mut [L],
    sources: &mut [S],
    sinks: &mut [K],
) -> Result<(), AllocError>
where
    L::Block: Shared + Send + Sync,
    L::Answer: Send + Sync,
    requires crew { IsCrewSize workers }
    requires window { IsWindowSize window }
    requires fresh { MayRun L.due (sides_of lanes.old sources.old sinks.old) }
    ensures { RunsLanes L.leads L.due L.rests L.over L.finished result
        (sides_of lanes.old sources.old sinks.old) (sides_of lanes.new sources.new sinks.new) }
{
    let Ok(mut due) = HeapCircularBuffer::with_capacity(alloc, 1) else {
        return Err(AllocError);
    };
    let mut feed = Lanes::new(lanes, sources, sinks, &mut due);
    match drive(rt, alloc, workers, window, work, &mut feed) {
        Ok(_) => {
            finish_lanes::<L, S, K>(lanes, sinks);
            Ok(())
        }
        Err(_) => Err(AllocError),
    }
}

/// A crew of workers receives captures, of which the caller is one. At most `window` jobs are due at a time, of all captures
/// together; no clause says so.
#[derive(Drop)]
pub(crate) struct Crew<'c, R, G> {
    rt: &'c R,
    alloc: Global,
    workers: u8,
    window: u16,
    gate: &'c G,
    ghost crew: { IsCrewSize workers },
    ghost due: { IsWindowSize window },
}

impl<'c, R, G> Crew<'c, R, G> {
    /// A crew of this many workers, with a window and a gate.
    pub(crate) fn new(
        rt: &'c R,
        alloc: Global,
        workers: u8,
        window: u16,
        gate: &'c G,
    ) -> Crew<'c, R, G>
        requires crew { IsCrewSize workers }
        requires window { IsWindowSize window }
    {
        Crew {
            rt,
            alloc,
            workers,
            window,
            gate,
        }
    }
}

impl<'c, R: Threads + Wait + Sync, G: Gate + Sync> Crew<'c, R, G> {
    // Does as `AloneReceiver::receive_lanes`, and the jobs are run by the workers, who decode the whole frames that they find there
    // before they look for jobs.
    fn receive_lanes<S: Source, K: Sink>(
        &self,
        frames: &Frames<Whole<HardLabels>>,
        lanes: &mut [CrewLane<'_, R>],
        sources: &mut [S],
        sinks: &mut [K],
    ) -> Result<Vec<ManyEnd>, AllocError>
        requires { AreOpen lanes.old sources.old sinks.old }
        ensures { ReceivesEach S.shown K.shown result (devices sources.old sinks.old) (devices sources.new sinks.new) }
    {
        let work = BesideFrames {
            work: LaneWork::<HardLabels, G>::new(self.alloc, self.gate),
            frames,
        };
        match drive_lanes::<
            R,
            CrewLane<R>,
            S,
            K,
            BesideFrames<LaneWork<HardLabels, G>, Whole<HardLabels>>,
        >(
            self.rt,
            self.alloc,
            self.workers,
            self.window,
            &work,
            lanes,
            sources,
            sinks,
        ) {
            Ok(()) => end_all(self.alloc, lanes, sinks),
            Err(lack) => Err(lack),
        }
    }

    /// Does as [`AloneReceiver::receive`], and the workers decode whole frames of 100 octets or more of all captures. The caller decodes
    /// shorter ones, one that is whole with the last block due of a capture whose end was read, and those that no worker has
    /// begun when it waits for them; where it is the only worker, all.
    pub(crate) fn receive<S: Source, K: Sink>(
        &self,
        sources: &mut [S],
        sinks: &mut [K],
    ) -> Result<Vec<ManyEnd>, AllocError>
        requires pairs { length sinks.old ≡ length sources.old }
        ensures { ReceivesEach S.shown K.shown result (devices sources.old sinks.old) (devices sources.new sinks.new) }
    {
        if self.workers == 1 {
            return AloneReceiver::new(self.alloc, self.window, self.gate).receive(sources, sinks);
        }
        let frames = Frames::new(self.alloc);
        let mut lanes = match open_crew_lanes(
            self.rt,
            self.alloc,
            self.workers,
            &frames,
            sources.len(),
        ) {
            Ok(lanes) => lanes,
            Err(lack) => return Err(lack),
        };
        self.receive_lanes(&frames, &mut lanes, sources, sinks)
    }

    // The text of each capture, where one crew receives all of them at the same time.
    fn texts_together(&self, captures: Vec<Bundled>) -> Result<Vec<GrowSink>, AllocError>
        ensures { IfOk result (λ sinks. map (λ (s : Growing). s.held) sinks.items ≡ map rx_text captures.items) }
    {
        let count = captures.len();
        let mut sources = sources_of(self.alloc, captures)?;
        let mut sinks = sinks_of(self.alloc, count)?;
        let ends = self.receive(&mut sources, &mut sinks)?;
        if have_text(&ends) {
            Ok(sinks)
        } else {
            Err(AllocError)
        }
    }

    /// The text of each capture. Where the captures dealt to each worker have about the same number of octets, each worker
    /// receives its own whole; elsewhere one crew runs the jobs of all.
    pub(crate) fn texts(&self, captures: Vec<Bundled>) -> Result<Vec<GrowSink>, AllocError>
        ensures { IfOk result (λ sinks. map (λ (s : Growing). s.held) sinks.items ≡ map rx_text captures.items) }
    {
        if 1 < self.workers
            && u16::from(self.workers) <= self.window
            && are_even(&captures, self.workers)
        {
            return texts_apart(
                self.rt,
                self.alloc,
                self.workers,
                self.window,
                captures,
                self.gate,
            );
        }
        self.texts_together(captures)
    }
}

//! This thread receives captures.
ghost use Rattle.std.specs.Prelude.{◌≡◌, length, map, IfOk};
ghost use Rattle.ht_feed.specs.Limits.{IsWindowSize};
ghost use Rattle.ht_io.specs.Writing.{Growing};
ghost use Rattle.ht_results.specs.Texts.{rx_text};
ghost use Rattle.ht_many.specs.Several.{devices};
ghost use Rattle.ht_many.specs.CaptureLanes.{AreOpen};
ghost use Rattle.ht_many.specs.Receiving.{ReceivesEach};

use crate::bundle::{have_text, sinks_of, sources_of};
use crate::capture_lane::{CaptureLane, open_lanes};
use crate::ending::end_all;
use crate::many_end::ManyEnd;
use ht_bundles::Bundled;
use ht_eights::LaneWork;
use ht_feed::Gate;
use ht_io::{GrowSink, Sink, Source};
use ht_lanes::drive_lanes_alone;
use ht_rx::HardLabels;
use std::alloc::{AllocError, Global};

/// This thread receives captures, and runs every job between the two calls of the gate. At most `window` jobs are due at a
/// time, of all captures together; no clause says so.
#[derive(Drop)]
pub(crate) struct AloneReceiver<'g, G> {
    alloc: Global,
    window: u16,
    gate: &'g G,
    ghost due: { IsWindowSize window },
}

impl<'g, G: Gate> AloneReceiver<'g, G> {
    /// This thread, with a window and a gate.
    pub(crate) fn new(alloc: Global, window: u16, gate: &'g G) -> AloneReceiver<'g, G>
        requires window { IsWindowSize window }
    {
        AloneReceiver {
            alloc,
            window,
            gate,
        }
    }

    // Runs the jobs of all lanes until no lane gives a block any more, has each lane put what it keeps back, and then puts the
    // last line of each capture.
    fn receive_lanes<S: Source, K: Sink>(
        &self,
        lanes: &mut [CaptureLane],
        sources: &mut [S],
        sinks: &mut [K],
    ) -> Result<Vec<ManyEnd>, AllocError>
        requires { AreOpen lanes.old sources.old sinks.old }
        ensures { ReceivesEach S.shown K.shown result (devices sources.old sinks.old) (devices sources.new sinks.new) }
    {
        let work = LaneWork::<HardLabels, G>::new(self.alloc, self.gate);
        match drive_lanes_alone::<CaptureLane, S, K, LaneWork<HardLabels, G>>(
            self.alloc,
            self.window,
            &work,
            lanes,
            sources,
            sinks,
        ) {
            Ok(()) => end_all(self.alloc, lanes, sinks),
            Err(lack) => Err(lack),
        }
    }

    /// Receives several captures at the same time, each from its own source and into its own sink, and answers how each ended,
    /// in their order. The only error is lack of memory.
    pub(crate) fn receive<S: Source, K: Sink>(
        &self,
        sources: &mut [S],
        sinks: &mut [K],
    ) -> Result<Vec<ManyEnd>, AllocError>
        requires pairs { length sinks.old ≡ length sources.old }
        ensures { ReceivesEach S.shown K.shown result (devices sources.old sinks.old) (devices sources.new sinks.new) }
    {
        let mut lanes = match open_lanes(self.alloc, sources.len()) {
            Ok(lanes) => lanes,
            Err(lack) => return Err(lack),
        };
        self.receive_lanes(&mut lanes, sources, sinks)
    }

    /// The text of each capture. These sources never fail, and these sinks only for lack of memory.
    pub(crate) fn texts(&self, captures: Vec<Bundled>) -> Result<Vec<GrowSink>, AllocError>
        ensures { IfOk result (λ sinks. map (λ (s : Growing). s.held) sinks.items ≡ map rx_text captures.items) }
    {
        let count = captures.len();
        let mut sources = sources_of(self.alloc, captures)?;
        let mut sinks = sinks_of(self.alloc, count)?;
        let ends = self.receive(&mut sources, &mut sinks)?;
        if have_text(&ends) {
            Ok(sinks)
        } else {
            Err(AllocError)
        }
    }
}

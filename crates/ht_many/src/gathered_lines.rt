//! What becomes of the tallies of one capture among several, where workers decode whole frames.
ghost use Rattle.std.specs.Prelude.{◌≡◌, [], slice_get, Some, OnOk};
ghost use Rattle.ht_feed.specs.Consumers.{BooksJobs};
ghost use Rattle.ht_feed.specs.Dues.{jobs_in};
ghost use Rattle.ht_feed.specs.Limits.{IsCrewSize};
ghost use Rattle.ht_capture.specs.Parts.{jobs_of};
ghost use Rattle.ht_frames.specs.Tallies.{IsTally};
ghost use Rattle.ht_results.specs.Folding.{label_plan};
ghost use Rattle.std.proofs.Common.{refl};
ghost use Rattle.ht_lanes.specs.LaneConsumers.{BooksFirstDue};
ghost use Rattle.ht_many.specs.KeptFrames.{booked_left, lines_left};
ghost use Rattle.ht_frames.proofs.Tallying.{numberless};

use crate::keeping_lines::KeepingLines;
use ht_capture_blocks::{CaptureBlock, CaptureReader};
use ht_feed::{BookFault, InFlight, KeepsInFlight};
use ht_frames::{Book, Decoding, Frame, Frames, Tally, TextBook, Whole, book_frames};
use ht_io::Sink;
use ht_lanes::LaneConsumer;
use ht_results::FrameResult;
use ht_rx::HardLabels;
use std::alloc::Global;
use std::collections::VecDeque;
use std::marker::Model;
use std::sync::Wait;
use std::thread::Threads;

/// Puts the line of each frame of a capture into the sink that it is handed, and has workers decode whole frames while
/// more tallies come, of this capture or of others. Behind each tally at most two frames for each worker beside the
/// caller have no line, not counting the one under way. No clause says so.
///
/// Each of several captures has a frame under way and whole frames of its own, whose lines it puts in order.
/// The workers find the frames of all captures in one place.
#[derive(Drop)]
pub(crate) struct GatheredLines<'f, R> {
    rt: &'f R,
    alloc: Global,
    workers: u8,
    // Where workers find whole frames.
    frames: &'f Frames<Whole<HardLabels>>,
    under_way: Frame<HardLabels>,
    // The whole frames whose lines aren't put, in order.
    queue: VecDeque<Decoding<Whole<HardLabels>>>,
}

impl<'f, R> Model for GatheredLines<'f, R> {
    ghost use Rattle.ht_feed.specs.Limits.{IsCrewSize};
    ghost use Rattle.ht_many.specs.KeptFrames.{KeptFrames, kept_frames};

    ghost Value = { KeptFrames };

    ghost view = { λ l. kept_frames l.under_way l.queue.items };

    ghost invariant = { λ l. IsCrewSize l.workers };
}

impl<'f, R> GatheredLines<'f, R> {
    /// No frame is under way, and none is whole. There are this many workers, of which the caller is one. It takes no
    /// memory.
    pub(crate) fn new(
        rt: &'f R,
        alloc: Global,
        workers: u8,
        frames: &'f Frames<Whole<HardLabels>>,
    ) -> GatheredLines<'f, R>
        requires crew { IsCrewSize workers }
        ensures idle { result.under_way.left ≡ 0 }
        ensures none { result.whole ≡ [] }
    {
        GatheredLines {
            rt,
            alloc,
            workers,
            frames,
            under_way: Frame::new(alloc),
            queue: VecDeque::new(alloc),
        }
    }
}

impl<'f, R: Threads + Wait> GatheredLines<'f, R> {
    // Takes the tally of the first block due, and books the results of the frames whose turn it is.
    fn take_into<B: Book<FrameResult>>(
        &mut self,
        in_flight: &mut InFlight<CaptureReader>,
        block: &CaptureBlock,
        tally: &Tally<HardLabels>,
        book: &mut B,
    ) -> Result<(), BookFault>
        requires right { IsTally label_plan tally.now.head
            (jobs_of block.now.block) tally.now.jobs tally.now.data_sum tally.now.pilot_sum tally.now.places tally.now.values.items }
        requires first { slice_get (jobs_in in_flight.old.due) 0 ≡ Some (jobs_of block.now.block) }

        ensures books { BooksFirstDue result in_flight.old in_flight.new (B.shown book.old) (B.shown book.new)
            (booked_left B.booked self.old) (booked_left B.booked self.new) }
        ensures same { B.lent book.new ≡ B.lent book.old }
    {
        let mut lines = KeepingLines::new(
            self.rt,
            self.alloc,
            self.workers,
            in_flight.stop().is_some(),
            self.frames,
            &mut self.under_way,
            &mut self.queue,
            book,
        );
        in_flight.take(block, tally, &mut lines)
    }

    // Books the results of all whole frames.
    fn finish_into<B: Book<FrameResult>>(&mut self, book: &mut B) -> Result<(), BookFault>
        ensures books { BooksJobs result (B.shown book.old) (B.shown book.new)
            (booked_left B.booked self.old) (booked_left B.booked self.new) [] [] [] }
        ensures none { OnOk result (self.new.whole ≡ []) }
        ensures same { B.lent book.new ≡ B.lent book.old }
    {
        book_frames(self.rt, self.frames, 0, &mut self.queue, book)
    }
}

impl<'f, R: Threads + Wait, K: Sink> LaneConsumer<CaptureReader, K> for GatheredLines<'f, R> {
    type Answer = Tally<HardLabels>;

    ghost pieces = { lines_left };

    fn take(
        &mut self,
        in_flight: &mut InFlight<CaptureReader>,
        block: &CaptureBlock,
        tally: &Tally<HardLabels>,
        sink: &mut K,
    ) -> Result<(), BookFault> {
        let mut book = TextBook::new(self.alloc, sink);
        self.take_into(in_flight, block, tally, &mut book)
    }

    fn finish(&mut self, sink: &mut K) -> Result<(), BookFault> {
        let mut book = TextBook::new(self.alloc, sink);
        self.finish_into(&mut book)
    }

    ghost numberless = { λ tally n jobs right. numberless label_plan tally.head (λ k job. refl) tally.jobs tally.data_sum tally.pilot_sum tally.places
        tally.values.items n jobs right };
}

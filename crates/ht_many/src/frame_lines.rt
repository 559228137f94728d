//! What becomes of the tallies of one capture among several, in one thread.
ghost use Rattle.std.specs.Prelude.{◌≡◌, [], slice_get, Some};
ghost use Rattle.ht_feed.specs.Dues.{jobs_in};
ghost use Rattle.ht_frames.specs.Tallies.{IsTally};
ghost use Rattle.ht_results.specs.Folding.{label_plan};
ghost use Rattle.std.proofs.Common.{refl};
ghost use Rattle.ht_lanes.specs.LaneConsumers.{BooksFirstDue};
ghost use Rattle.ht_frames.proofs.Tallying.{numberless};
ghost use Rattle.ht_many.specs.KeptFrames.{booked_left, lines_left};

use ht_capture::FrameHead;
use ht_feed::{BlockReader, BookFault, InFlight, KeepsInFlight};
use ht_frames::{Book, Frame, Receiver, Tally, TextBook};
use ht_io::Sink;
use ht_lanes::LaneConsumer;
use ht_results::FrameResult;
use ht_rx::HardLabels;
use std::alloc::Global;
use std::marker::{Model, PhantomData};

/// Puts the line of each frame of a capture into the sink that it is handed, once the hit of its last job was taken.
///
/// Until then it keeps what was found for the jobs of the frame, so that each of several captures has a frame under way.
/// No whole frame waits.
#[derive(Drop)]
pub(crate) struct FrameLines<R> {
    alloc: Global,
    under_way: Frame<HardLabels>,
    // Whose blocks it takes.
    reader: PhantomData<R>,
}

impl<R> Model for FrameLines<R> {
    ghost use Rattle.std.specs.Prelude.{[]};
    ghost use Rattle.ht_many.specs.KeptFrames.{KeptFrames, kept_frames};

    ghost Value = { KeptFrames };

    ghost view = { λ l. kept_frames l.under_way [] };
}

impl<R> FrameLines<R> {
    /// No frame is under way. It takes no memory.
    pub(crate) fn new(alloc: Global) -> FrameLines<R>
        ensures idle { result.under_way.left ≡ 0 }
        ensures none { result.whole ≡ [] }
    {
        FrameLines {
            alloc,
            under_way: Frame::new(alloc),
            reader: PhantomData,
        }
    }

    // No whole frame waits here.
    fn none_waits(&self)
        ensures { self.now.whole ≡ [] }
    {
        // For the proof alone: its model is known once the body reads it.
        let _alloc = self.alloc;
    }
}

impl<R: BlockReader<Head = FrameHead> + Drop> FrameLines<R> {
    // Takes the tally of the first block due, and books the results of frames that are whole with them.
    fn take_into<B: Book<FrameResult>>(
        &mut self,
        in_flight: &mut InFlight<R>,
        block: &R::Block,
        tally: &Tally<HardLabels>,
        book: &mut B,
    ) -> Result<(), BookFault>
        requires right { IsTally label_plan tally.now.head
            (R.Block.jobs block.now) tally.now.jobs tally.now.data_sum tally.now.pilot_sum tally.now.places tally.now.values.items }
        requires first { slice_get (jobs_in in_flight.old.due) 0 ≡ Some (R.Block.jobs block.now) }

        ensures books { BooksFirstDue result in_flight.old in_flight.new (B.shown book.old) (B.shown book.new)
            (booked_left B.booked self.old) (booked_left B.booked self.new) }
        ensures none { self.new.whole ≡ [] }
        ensures same { B.lent book.new ≡ B.lent book.old }
    {
        let mut receiver = Receiver::new(self.alloc, &mut self.under_way, book);
        in_flight.take(block, tally, &mut receiver)
    }
}

impl<R: BlockReader<Head = FrameHead> + Drop, K: Sink> LaneConsumer<R, K> for FrameLines<R> {
    type Answer = Tally<HardLabels>;

    ghost pieces = { lines_left };

    fn take(
        &mut self,
        in_flight: &mut InFlight<R>,
        block: &R::Block,
        tally: &Tally<HardLabels>,
        sink: &mut K,
    ) -> Result<(), BookFault> {
        let mut book = TextBook::new(self.alloc, sink);
        self.take_into(in_flight, block, tally, &mut book)
    }

    fn finish(&mut self, _sink: &mut K) -> Result<(), BookFault> {
        self.none_waits();
        Ok(())
    }

    ghost numberless = { λ tally n jobs right. numberless label_plan tally.head (λ k job. refl) tally.jobs tally.data_sum tally.pilot_sum tally.places
        tally.values.items n jobs right };
}

//! What becomes of the hits of one lane.
ghost use Rattle.std.specs.Prelude.{◌≡◌, ℕ, List, [], slice_get, Some, OnOk};
ghost use Rattle.ht_metric.specs.Jobs.{JobView};
ghost use Rattle.ht_feed.specs.Consumers.{BooksJobs};
ghost use Rattle.ht_feed.specs.Dues.{jobs_in};
ghost use Rattle.ht_feed.specs.Items.{Headed};
ghost use Rattle.ht_feed.specs.Numbers.{numbered};
ghost use Rattle.ht_lanes.specs.LaneConsumers.{BooksFirstDue};

use ht_feed::{Answer, BlockReader, BookFault, InFlight};
use ht_io::Sink;

/// What becomes of the hits of one lane, whose blocks come from a reader: octets, which it puts into a sink that it is
/// handed at each call. It is like a consumer (`Consumer` of crate `ht_feed`), but keeps no hold of its sink, and may keep
/// octets back until it is finished.
pub trait LaneConsumer<R: BlockReader + Drop, K: Sink> {
    /// What it takes for a block.
    type Answer: Answer + Drop;

    /// What is put in all if the hits of exactly these jobs still come, with what is kept back until then.
    ghost pieces: { Self → List (Headed R.Head) → List ℕ };

    /// Takes the answer to the first block due of an in-flight reader, which is due no longer. Where it refuses, the in-flight
    /// reader stays as it was.
    fn take(
        &mut self,
        in_flight: &mut InFlight<R>,
        block: &R::Block,
        answer: &Self::Answer,
        sink: &mut K,
    ) -> Result<(), BookFault>
        requires right { Self.Answer.answers answer.now (R.Block.jobs block.now) }
        requires first { slice_get (jobs_in in_flight.old.due) 0 ≡ Some (R.Block.jobs block.now) }
        ensures { BooksFirstDue result in_flight.old in_flight.new (K.shown sink.old) (K.shown sink.new) (pieces self.old) (pieces self.new) };

    /// Puts all that is kept back, once no hits come any more. Behind a refusal nothing is said of what is left.
    fn finish(&mut self, sink: &mut K) -> Result<(), BookFault>
        ensures books { BooksJobs result (K.shown sink.old) (K.shown sink.new) (pieces self.old) (pieces self.new) [] [] [] }

        // Nothing is left where no hits come.
        ensures none { OnOk result (pieces self.new [] ≡ []) };

    /// Whatever their numbers are, jobs have the same answer.
    ghost numberless: { (a : Self.Answer) (n : ℕ) (jobs : List JobView) → Self.Answer.answers a (numbered n jobs) → Self.Answer.answers a jobs };
}

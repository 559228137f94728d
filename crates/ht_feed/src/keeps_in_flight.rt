//! What a feed asks of its in-flight reader.
ghost use Rattle.std.specs.Prelude.{◌≡◌, ◌+◌, ◌≤◌, None, Some, take, drop, slice_get, IfNone, IfOk, IfSome, OnErr, OnOk};
ghost use Rattle.ht_feed.specs.Consumers.{BooksJobs};
ghost use Rattle.ht_feed.specs.InFlights.{AddsBlock, AddsNone, InFlightView, IsSoundInFlight, ReadsMore};
ghost use Rattle.ht_feed.specs.Dues.{all_due, count_in, jobs_in};

use crate::book_fault::BookFault;
use crate::consumer::Consumer;
use crate::reader::BlockReader;
use ht_io::Source;
use std::alloc::AllocError;

/// What a feed asks of its in-flight reader, an [`InFlight`](crate::InFlight): blocks, and to hand a consumer the answers to
/// them.
///
/// A feed that borrows its in-flight reader names it by a type of its own, for which this bound stands.
pub trait KeepsInFlight<R: BlockReader + Drop> {
    /// What is seen of the in-flight reader.
    ghost seen: { Self → InFlightView R R.Head };

    /// Gives the next block, of at most `most` jobs, which is due from now on, or none where the reading stops. With it at
    /// most 4096 jobs are due. The only error is lack of memory, and then nothing was read.
    fn next<S: Source>(&mut self, most: u16, source: &mut S) -> Result<Option<R::Block>, AllocError>
        requires going { (seen self.old).stop ≡ None }
        requires some { 1 ≤ most }
        requires few_due { count_in (jobs_in (seen self.old).due) + most ≤ 4096 }
        ensures block { IfOk result (λ given. IfSome given (λ block. AddsBlock R.counts most (seen self.old) (seen self.new) (R.Block.jobs block))) }
        ensures none { IfOk result (λ given. IfNone given (AddsNone (seen self.old) (seen self.new))) }
        ensures reads { OnOk result (ReadsMore R.means R.at (seen self.old) (seen self.new) (S.shown source.old) (S.shown source.new)) }
        ensures memory { OnErr result ((seen self.new ≡ seen self.old) × (source.new ≡ source.old)) }
        ensures sound { IsSoundInFlight R.counts (seen self.new) };

    /// Hands a consumer the answer to the first block due, which is then no longer due. If the consumer refuses, the in-flight
    /// reader stays as it was, but the consumer may have changed.
    fn take<A: Consumer<R>>(
        &mut self,
        block: &R::Block,
        answer: &A::Answer,
        consumer: &mut A,
    ) -> Result<(), BookFault>
        requires right { A.Answer.answers answer.now (R.Block.jobs block.now) }
        requires first { slice_get (jobs_in (seen self.old).due) 0 ≡ Some (R.Block.jobs block.now) }

        // What was put, and what is left to put.
        ensures books { BooksJobs result (A.shown consumer.old) (A.shown consumer.new) (A.pieces consumer.old) (A.pieces consumer.new)
            (all_due (take 1 (seen self.old).due)) (A.lent consumer.old) (A.lent consumer.new) }
        ensures waits { OnOk result (A.waits consumer.old (all_due (seen self.old).due) → A.waits consumer.new (all_due (drop 1 (seen self.old).due))) }

        // What is due.
        ensures due { OnOk result (seen self.new ≡ record (seen self.old) { due = drop 1 (seen self.old).due }) }
        ensures stays { OnErr result (seen self.new ≡ seen self.old) }
        ensures sound { IsSoundInFlight R.counts (seen self.new) };
}

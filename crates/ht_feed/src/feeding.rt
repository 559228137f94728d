//! An in-flight reader as a feed.
ghost use Rattle.std.specs.Prelude.{◌≡◌, slice_get, Some, IfErr, OnOk};
ghost use Rattle.ht_feed.specs.Consumers.{telling_of};
ghost use Rattle.ht_feed.specs.Feeds.{Fails, TakesBlock};
ghost use Rattle.ht_feed.specs.Feeding.{FeedsOn, feed_of, feeds_on-more, feeds_on-none, names, names_of};

use crate::answer::Answer;
use crate::book_fault::BookFault;
use crate::consumer::Consumer;
use crate::feed::BlockFeed;
use crate::in_flight_feed::InFlightFeed;
use crate::jobs::Jobs;
use crate::keeps_in_flight::KeepsInFlight;
use crate::reader::BlockReader;
use ht_io::Source;
use std::marker::PhantomData;

impl<'a, R: BlockReader + Drop, D: KeepsInFlight<R>, S: Source, A: Consumer<R>> InFlightFeed<
    'a,
    R,
    D,
    S,
    A,
> {
    /// A feed which goes on from where its in-flight reader stands, and from what a call before it failed with, if one did. It
    /// takes no memory.
    pub fn new(
        in_flight: &'a mut D,
        source: &'a mut S,
        consumer: &'a mut A,
        failed: &'a mut Option<BookFault>,
    ) -> InFlightFeed<'a, R, D, S, A>
        ensures names { names_of A.lent result
            ≡ names in_flight.entry.ghost_name source.entry.ghost_name consumer.entry.ghost_name failed.entry.ghost_name (A.lent consumer.old) }
        ensures in_flight { result.in_flight.now ≡ in_flight.old }
        ensures source { result.source.now ≡ source.old }
        ensures consumer { result.consumer.now ≡ consumer.old }
        ensures failed { result.failed.now ≡ failed.old }
    {
        InFlightFeed {
            in_flight,
            source,
            consumer,
            failed,
            of: PhantomData,
        }
    }
}

impl<'a, R: BlockReader + Drop, D: KeepsInFlight<R>, S: Source, A: Consumer<R>> BlockFeed
    for InFlightFeed<'a, R, D, S, A> {
    type Fault = BookFault;

    type Block = R::Block;

    type Answer = A::Answer;

    ghost shown = { feed_of D.seen R.counts };

    ghost leads = { FeedsOn D.seen R.means R.at S.shown A.lent (telling_of A.shown A.pieces A.waits) };

    fn next(&mut self, most: u16) -> Result<Option<R::Block>, BookFault> {
        if let Some(fault) = *self.failed {
            return Err(fault);
        }
        match self.in_flight.next(most, self.source) {
            Ok(given) => Ok(given),
            Err(_) => {
                *self.failed = Some(BookFault::NoMemory);
                Err(BookFault::NoMemory)
            }
        }
    }

    fn take(&mut self, block: &R::Block, answer: &A::Answer) -> Result<(), BookFault>
        requires right { A.Answer.answers answer.now (R.Block.jobs block.now) }
        requires first { slice_get (feed_of D.seen R.counts self.old).due 0 ≡ Some (R.Block.jobs block.now) }
        ensures takes { OnOk result (TakesBlock (feed_of D.seen R.counts self.old) (feed_of D.seen R.counts self.new)) }
        ensures fault { IfErr result (Fails (feed_of D.seen R.counts self.old) (feed_of D.seen R.counts self.new)) }
        ensures leads { FeedsOn D.seen R.means R.at S.shown A.lent (telling_of A.shown A.pieces A.waits) self.old self.new }
    {
        if let Some(fault) = *self.failed {
            return Err(fault);
        }
        match self.in_flight.take(block, answer, self.consumer) {
            Ok(()) => Ok(()),
            Err(fault) => {
                *self.failed = Some(fault);
                Err(fault)
            }
        }
    }

    ghost stays = { feeds_on-none D.seen R.means R.at S.shown A.lent (telling_of A.shown A.pieces A.waits) };

    ghost goes_on = { feeds_on-more D.seen R.means R.at S.shown A.lent (telling_of A.shown A.pieces A.waits) };
}

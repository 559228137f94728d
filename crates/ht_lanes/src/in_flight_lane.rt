//! A lane over an in-flight reader.
ghost use Rattle.std.specs.Prelude.{◌≡◌, ◌-◌, ◌<◌, [], None, true, is_some, IfOk, IsErr, IsOk};
ghost use Rattle.ht_feed.specs.InFlights.{in_flight_view};
ghost use Rattle.ht_feed.specs.Dues.{jobs_in};
ghost use Rattle.ht_feed.specs.Reading.{IsFreshReader};
ghost use Rattle.ht_lanes.specs.InFlightLanes.{LeadsOn, ended_so, is_over, leads_on-more, leads_on-none, rests_over};

use crate::lane::Lane;
use crate::lane_consumer::LaneConsumer;
use ht_feed::{BlockReader, BookFault, DriveFault, Ended, InFlight, KeepsInFlight, end_of};
use ht_io::{Sink, Source};
use ht_runs::RunFault;
use std::alloc::{AllocError, Global};

/// A lane whose blocks come from an in-flight reader, and whose hits go to a consumer.
///
/// Where the input has a fault or its source fails the in-flight reader keeps that and gives no more blocks, so that the hits of
/// those that are due are still taken.
#[derive(Drop)]
pub struct InFlightLane<R: BlockReader + Drop, A> {
    /// The reader, and the blocks that it gave.
    pub in_flight: InFlight<R>,
    /// What becomes of their hits.
    pub consumer: A,
    /// What the consumer failed with, once it has.
    pub failed: Option<BookFault>,
}

impl<R: BlockReader + Drop, A: Drop> InFlightLane<R, A> {
    /// A lane in front of a reader that gave nothing yet, with room for this many blocks that are due; where more
    /// become due it takes more memory. Until a head comes, `head` stands for the one that came last. The only error is
    /// lack of memory.
    pub fn new(
        alloc: Global,
        reader: R,
        head: R::Head,
        blocks: u16,
        consumer: A,
    ) -> Result<InFlightLane<R, A>, AllocError>
        requires fresh { IsFreshReader (R.counts reader) }
        ensures in_flight { IfOk result (λ lane. lane.in_flight ≡ in_flight_view reader None head 0 [] 0) }
        ensures consumer { IfOk result (λ lane. lane.consumer ≡ consumer) }
        ensures well { IfOk result (λ lane. lane.failed ≡ None) }
    {
        match InFlight::new(alloc, reader, head, blocks) {
            Ok(in_flight) => Ok(InFlightLane {
                in_flight,
                consumer,
                failed: None,
            }),
            Err(lack) => Err(lack),
        }
    }

    /// How the reading of its input ended, once the lane is over.
    pub fn end(&self) -> Result<Ended, RunFault>
        requires over { is_over self.now.failed self.now.in_flight.stop ≡ true }
        ensures { result ≡ ended_so self.now.failed self.now.in_flight.stop self.now.in_flight.frames self.now.in_flight.count }
    {
        let driven: Result<(), DriveFault<BookFault>> = match self.failed {
            Some(fault) => Err(DriveFault::Feed(fault)),
            None => Ok(()),
        };
        end_of(&self.in_flight, driven)
    }
}

// The only error of a lane is lack of memory: where its sink failed it rests.
fn only_memory(fault: BookFault) -> Result<(), AllocError>
    ensures failed { fault ≡ BookFault.Failed → IsOk result }
    ensures memory { fault ≡ BookFault.NoMemory → IsErr result }
{
    match fault {
        BookFault::Failed => Ok(()),
        BookFault::NoMemory => Err(AllocError),
    }
}

impl<R: BlockReader + Drop, A: LaneConsumer<R, K>, S: Source, K: Sink> Lane<S, K>
    for InFlightLane<R, A> {
    type Block = R::Block;

    type Answer = A::Answer;

    ghost count = { λ l. l.in_flight.count };

    ghost due = { λ l. jobs_in l.in_flight.due };

    ghost rests = { λ l. is_some l.failed };

    ghost finished = { λ l. A.pieces l.consumer [] ≡ [] };

    ghost over = { λ l. is_over l.failed l.in_flight.stop };

    ghost leads = { LeadsOn R.means R.at A.pieces S.shown K.shown };

    fn count(&self) -> u64 {
        self.in_flight.count()
    }

    fn is_resting(&self) -> bool {
        self.failed.is_some()
    }

    fn is_over(&self) -> bool {
        self.failed.is_some() || self.in_flight.stop().is_some()
    }

    fn next(&mut self, most: u16, source: &mut S) -> Result<Option<R::Block>, AllocError> {
        self.in_flight.next(most, source)
    }

    fn take(
        &mut self,
        block: &R::Block,
        answer: &A::Answer,
        sink: &mut K,
    ) -> Result<(), AllocError> {
        match self.consumer.take(&mut self.in_flight, block, answer, sink) {
            Ok(()) => Ok(()),
            Err(fault) => {
                self.failed = Some(fault);
                only_memory(fault)
            }
        }
    }

    fn finish(&mut self, sink: &mut K) {
        let failed = self.failed.is_some();
        if failed {
            return;
        }
        match self.consumer.finish(sink) {
            Ok(()) => {}
            Err(fault) => self.failed = Some(fault),
        }
    }

    ghost resting = { λ a is. rests_over a.failed a.in_flight.stop is };

    ghost numberless = { A.numberless };

    ghost stays = { leads_on-none R.means R.at A.pieces S.shown K.shown };

    ghost goes_on = { leads_on-more R.means R.at A.pieces S.shown K.shown };
}

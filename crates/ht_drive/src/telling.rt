//! A whole input, whose blocks workers run, and what becomes of its hits.
ghost use Rattle.std.specs.Prelude.{◌≡◌, ◌-◌, ◌<◌, []};
ghost use Rattle.ht_feed.specs.Consumers.{telling_of};
ghost use Rattle.ht_feed.specs.InFlights.{feed_view};
ghost use Rattle.ht_feed.specs.Feeds.{IsFreshFeed};
ghost use Rattle.ht_feed.specs.Inputs.{TellsInput};
ghost use Rattle.ht_feed.specs.Limits.{IsCrewSize, IsWindowSize};
ghost use Rattle.ht_feed.specs.Reading.{IsFreshReader};
ghost use Rattle.ht_feed.specs.Telling.{RunsInFlight, seen_by};

use crate::report::Report;
use crate::task::{Done, Task};
use crate::threaded::drive;
use ht_feed::{
    BlockReader, BookFault, Consumer, DriveFault, Ended, InFlight, InFlightFeed, KeepsInFlight,
    Shared, Work, end_of,
};
use ht_io::Source;
use ht_runs::RunFault;
use std::alloc::Global;
use std::sync::Wait;
use std::thread::Threads;

// Has workers run all blocks of an in-flight reader that gave none yet.
fn run_in_flight<
    T: Threads + Wait + Sync,
    R: BlockReader + Drop,
    D: KeepsInFlight<R>,
    S: Source,
    A: Consumer<R>,
    W: Work<R::Block, Answer = A::Answer> + Sync,
>(
    rt: &T,
    alloc: Global,
    workers: u8,
    window: u16,
    work: &W,
    in_flight: &mut D,
    source: &mut S,
    consumer: &mut A,
    failed: &mut Option<BookFault>,
) -> Result<Report<Task<R::Block>, Done<R::Block, A::Answer>>, DriveFault<BookFault>>
where
    R::Block: Shared + Send + Sync,
    A::Answer: Send + Sync,
    requires crew { IsCrewSize workers }
    requires window { IsWindowSize window }
    requires fresh { IsFreshFeed (feed_view R.counts (D.seen in_flight.old) failed.old) }
    ensures runs { RunsInFlight (seen_by R.means R.at (D.seen in_flight.old) (S.shown source.old) (telling_of A.shown A.pieces A.waits consumer.old))
        (seen_by R.means R.at (D.seen in_flight.new) (S.shown source.new) (telling_of A.shown A.pieces A.waits consumer.new))
        (D.seen in_flight.new) failed.old failed.new result }
    ensures same { A.lent consumer.new ≡ A.lent consumer.old }
{
    let mut feed = InFlightFeed::new(in_flight, source, consumer, failed);
    drive(rt, alloc, workers, window, work, &mut feed)
}

/// Does as [`tell_alone`](ht_feed::tell_alone), and the blocks are run by 1 to 64 workers, of which the caller is one.
/// The window has room for `window` jobs, 1 to 4096: of those due at any moment [`drive`] has a clause, and this call none.
/// What is put is the same, in the same order.
pub fn tell<
    T: Threads + Wait + Sync,
    R: BlockReader + Drop,
    S: Source,
    A: Consumer<R>,
    W: Work<R::Block, Answer = A::Answer> + Sync,
>(
    rt: &T,
    alloc: Global,
    workers: u8,
    window: u16,
    reader: R,
    head: R::Head,
    work: &W,
    source: &mut S,
    consumer: &mut A,
) -> Result<Ended, RunFault>
where
    R::Block: Shared + Send + Sync,
    A::Answer: Send + Sync,
    requires crew { IsCrewSize workers }
    requires window { IsWindowSize window }
    requires fresh { IsFreshReader (R.counts reader) }
    requires rests { A.waits consumer.old [] }
    ensures { TellsInput R.means R.at reader head (S.shown source.old) (S.shown source.new)
        (telling_of A.shown A.pieces A.waits consumer.old) (telling_of A.shown A.pieces A.waits consumer.new)
        (A.lent consumer.old) (A.lent consumer.new) result }
{
    let mut in_flight = InFlight::new(alloc, reader, head, window)?;
    let mut failed = None;
    let driven = run_in_flight(
        rt,
        alloc,
        workers,
        window,
        work,
        &mut in_flight,
        source,
        consumer,
        &mut failed,
    );
    end_of(&in_flight, driven)
}

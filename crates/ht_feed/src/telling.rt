//! A whole input, and what becomes of its hits.
ghost use Rattle.std.specs.Prelude.{◌≡◌, [], true, is_some, OnOk};
ghost use Rattle.ht_feed.specs.Consumers.{telling_of};
ghost use Rattle.ht_feed.specs.InFlights.{feed_view};
ghost use Rattle.ht_feed.specs.Feeds.{IsFreshFeed};
ghost use Rattle.ht_feed.specs.Inputs.{TellsInput};
ghost use Rattle.ht_feed.specs.Limits.{IsWindowSize};
ghost use Rattle.ht_feed.specs.Reading.{IsFreshReader};
ghost use Rattle.ht_feed.specs.Stops.{ended_by};
ghost use Rattle.ht_feed.specs.Telling.{RunsInFlight, seen_by};

use crate::answer::Work;
use crate::book_fault::BookFault;
use crate::consumer::Consumer;
use crate::drive::{DriveFault, drive_alone};
use crate::ended::Ended;
use crate::in_flight::InFlight;
use crate::in_flight_feed::InFlightFeed;
use crate::keeps_in_flight::KeepsInFlight;
use crate::reader::BlockReader;
use crate::stop::Stop;
use ht_io::Source;
use ht_runs::RunFault;
use std::alloc::Global;

/// How the reading of an input ended whose drive answered this, at `Ok` whatever.
pub fn end_of<R: BlockReader + Drop, T: Drop>(
    in_flight: &InFlight<R>,
    driven: Result<T, DriveFault<BookFault>>,
) -> Result<Ended, RunFault>
    requires stopped { OnOk driven (is_some in_flight.now.stop ≡ true) }
    ensures { result ≡ ended_by in_flight.now.stop in_flight.now.frames in_flight.now.count driven }
{
    if let Err(fault) = driven {
        return Err(RunFault::from(fault));
    }
    match in_flight.stop() {
        Some(Stop::Whole) => Ok(Ended {
            frames: in_flight.frames(),
            jobs: in_flight.count(),
        }),
        Some(Stop::Refused(fault)) => Err(RunFault::Format(fault)),
        Some(Stop::Broken) => Err(RunFault::Read),
        Some(Stop::Lacking) => Err(RunFault::NoMemory),
        None => unreachable!(),
    }
}

// Runs all blocks of an in-flight reader that gave none yet, in this thread, one after another.
fn run_in_flight<
    R: BlockReader + Drop,
    D: KeepsInFlight<R>,
    S: Source,
    A: Consumer<R>,
    W: Work<R::Block, Answer = A::Answer>,
>(
    window: u16,
    work: &W,
    in_flight: &mut D,
    source: &mut S,
    consumer: &mut A,
    failed: &mut Option<BookFault>,
) -> Result<u64, DriveFault<BookFault>>
    requires window { IsWindowSize window }
    requires fresh { IsFreshFeed (feed_view R.counts (D.seen in_flight.old) failed.old) }
    ensures runs { RunsInFlight (seen_by R.means R.at (D.seen in_flight.old) (S.shown source.old) (telling_of A.shown A.pieces A.waits consumer.old))
        (seen_by R.means R.at (D.seen in_flight.new) (S.shown source.new) (telling_of A.shown A.pieces A.waits consumer.new))
        (D.seen in_flight.new) failed.old failed.new result }
    ensures same { A.lent consumer.new ≡ A.lent consumer.old }
{
    let mut feed = InFlightFeed::new(in_flight, source, consumer, failed);
    drive_alone(window, work, &mut feed)
}

/// Reads the input of a reader that gave nothing yet to its end or its first fault, and hands the hits of its jobs to
/// the consumer, which keeps nothing back.
///
/// Every block is run in this thread, by the work, and one block is due at a time, of at most `window` jobs, 1 to 4096; no
/// clause of this call says so.
/// What is put for a list of octets is what the consumer shows at the call, of the jobs that the reader shows. Until a
/// head comes, `head` stands for the one that came last.
///
/// It answers the numbers of frames and of jobs of a whole input. It refuses with the first fault of another, or with `Read`
/// where the source failed, having put the pieces of what was read whole; with `Write` where the consumer's device failed,
/// also if the source did; and with `NoMemory`. In the last two cases a part of the pieces was put.
pub fn tell_alone<
    R: BlockReader + Drop,
    S: Source,
    A: Consumer<R>,
    W: Work<R::Block, Answer = A::Answer>,
>(
    alloc: Global,
    reader: R,
    head: R::Head,
    window: u16,
    work: &W,
    source: &mut S,
    consumer: &mut A,
) -> Result<Ended, RunFault>
    requires window { IsWindowSize window }
    requires fresh { IsFreshReader (R.counts reader) }
    requires rests { A.waits consumer.old [] }
    ensures { TellsInput R.means R.at reader head (S.shown source.old) (S.shown source.new)
        (telling_of A.shown A.pieces A.waits consumer.old) (telling_of A.shown A.pieces A.waits consumer.new)
        (A.lent consumer.old) (A.lent consumer.new) result }
{
    let mut in_flight = InFlight::new(alloc, reader, head, 1)?;
    let mut failed = None;
    let driven = run_in_flight(window, work, &mut in_flight, source, consumer, &mut failed);
    end_of(&in_flight, driven)
}

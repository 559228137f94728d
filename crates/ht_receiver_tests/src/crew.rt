//! The drives over a list of jobs, when all goes well and when each call of the feed fails in turn, and gates that only
//! several threads can pass.
ghost use Rattle.std.specs.Prelude.{◌≡◌, IfOk};
ghost use Rattle.ht_feed.specs.Limits.{IsCrewSize, IsWindowSize};
ghost use Rattle.ht_crew.specs.Lists.{AreNumbered};

use crate::common::NO_SAMPLE;
use crate::equal::equal;
use crate::gate::{Rule, Watch};
use ht_crew::{DriveFault, Gate, ListFault, ListFeed, OpenGate, Report, drive, drive_alone};
use ht_metric::{Hit, Job, Place, System, Tap, Triangle};
use ht_pam::{Grid, Ladder, Point};
use std::alloc::{AllocError, Global};
use std::process::Abort;
use std::sync::Wait;
use std::test::Fail;
use std::thread::Threads;

// The pilots of the first two symbols at 20 MHz: the subcarrier and the value in each.
const PILOTS: [(u64, [i8; 2]); 4] = [(7, [1, -1]), (21, [1, -1]), (34, [1, 1]), (48, [-1, -1])];

// What is sent on a pilot; none on a data subcarrier.
fn pilot(number: u64) -> Option<i8> {
    let values = PILOTS.iter().find(|pilot| pilot.0 == number % 56)?.1;
    Some(if number < 56 { values[0] } else { values[1] })
}

// A job of the capture in BPSK on one stream whose diagonals are 10 and whose samples are 0.
fn job(number: u64) -> Job
    ensures { result.number ≡ number }
{
    let place = Place {
        frame: 0,
        symbol: u32::from(number >= 56),
        carrier: (number % 56) as u8,
    };
    let levels = match pilot(number) {
        None => Ladder::of(2, 3),
        Some(1) => Ladder::of(2, 2),
        Some(_) => Ladder::of(2, 1),
    };
    let triangle = Triangle::new(1, [10, 0, 0, 0], [Tap { re: 0, im: 0 }; 6]);
    let system = System::new(triangle, [NO_SAMPLE; 4]);
    Job::new(number, place, Grid::one(levels, Ladder::of(1, 1)), system)
}

// A number of jobs: 112 are those of two symbols.
fn jobs(alloc: Global, count: u64) -> Result<Vec<Job>, AllocError>
    ensures { IfOk result (λ jobs. AreNumbered jobs.items) }
{
    let mut jobs = Vec::new(alloc);
    for number in 0..count {
        jobs.push(job(number))?;
    }
    Ok(jobs)
}

// Whether a hit is that of the job of this number: a pilot has its own value, and of the two points of a data subcarrier,
// which are as near, the first one is found.
fn is_first(number: u64, hit: &Hit) -> bool {
    let i = pilot(number).unwrap_or(-1);
    let vector = hit.vector();
    hit.job().same(&job(number))
        && vector.len() == 1
        && vector.point(1) == Point { i, q: 0 }
        && hit.distance() == 100
}

// How many hits were taken, if they are those of the first jobs.
fn taken(feed: &ListFeed) -> Option<u64> {
    let mut number = 0;
    for hit in feed.hits() {
        if !is_first(number, hit) {
            return None;
        }
        number = number.wrapping_add(1);
    }
    Some(number)
}

// What came of a drive: its report, and the feed.
type Ran = (Result<Report, DriveFault<ListFault>>, ListFeed);

// Runs the jobs of two symbols in this thread. The calls of these numbers fail.
fn alone<G: Gate>(alloc: Global, window: u16, gate: &G, failing: &[u64]) -> Result<Ran, AllocError>
    requires window { IsWindowSize window }
{
    let mut feed = ListFeed::new(alloc, jobs(alloc, 112)?, failing.to_vec(alloc)?)?;
    let ran = drive_alone(alloc, window, gate, &mut feed);
    Ok((ran, feed))
}

// The same by this number of workers.
fn together<R: Threads + Wait + Sync, G: Gate + Sync>(
    rt: &R,
    alloc: Global,
    workers: u8,
    window: u16,
    gate: &G,
    failing: &[u64],
) -> Result<Ran, AllocError>
    requires crew { IsCrewSize workers }
    requires window { IsWindowSize window }
{
    let mut feed = ListFeed::new(alloc, jobs(alloc, 112)?, failing.to_vec(alloc)?)?;
    let ran = drive(rt, alloc, workers, window, gate, &mut feed);
    Ok((ran, feed))
}

#[test]
fn all_jobs(rt: HostRuntime) -> Result<(), Fail> {
    for window in [1, 2, 256] {
        let gate = Watch::new(Rule::InTurn);
        let (ran, feed) = alone(rt.alloc(), window, &gate, &[])?;
        let report = ran?;
        let counts = (report.jobs, report.own, report.ran.len());
        let has_passes = report.passes.is_some();
        equal(&rt, (counts, has_passes), ((112, 112, 0), false));
        let answer = (window, taken(&feed), gate.counts());
        equal(&rt, answer, (window, Some(112), [112, 112, 0]));
    }
    Ok(())
}

// How many workers ran none of the jobs, and how many jobs they ran in all.
fn shares(ran: &[u64]) -> (usize, u64) {
    let idle = ran.iter().filter(|count| **count == 0).count();
    (
        idle,
        ran.iter().fold(0, |sum, count| sum.wrapping_add(*count)),
    )
}

// Of 64 workers some may run no job.
#[test]
fn threads_meet(rt: HostRuntime) -> Result<(), Fail> {
    for (workers, rule) in [
        (2, Rule::OthersFirst(111)),
        (4, Rule::AtOnce(4)),
        (64, Rule::OthersFirst(111)),
    ] {
        let gate = Watch::new(rule);
        let (ran, feed) = together(&rt, rt.alloc(), workers, 256, &gate, &[])?;
        let report = ran?;
        let (idle, all) = shares(&report.ran);
        let counts = (report.jobs, report.own, report.ran.len(), all);
        equal(&rt, counts, (112, 0, usize::from(workers), 112));
        let is_shared = workers > 4 || idle == 0;
        let answer = (workers, taken(&feed), gate.counts(), is_shared);
        equal(&rt, answer, (workers, Some(112), [112, 112, 0], true));
    }
    Ok(())
}

// A call fails where it is to fail, with threads, too. A run has 113 calls of `next` and 112 of `take`; in one thread they
// alternate.
fn fails<R: Threads + Wait + Abort + Sync>(
    rt: &R,
    alloc: Global,
    window: u16,
    call: u64,
) -> Result<(), AllocError>
    requires window { IsWindowSize window }
{
    let (ran, feed) = alone(alloc, window, &OpenGate, &[call])?;
    let fault = Some(DriveFault::Feed(ListFault { call }));
    equal(
        rt,
        (window, ran.err(), taken(&feed)),
        (window, fault, Some(call / 2)),
    );
    for workers in [2, 4] {
        let (ran, feed) = together(rt, alloc, workers, window, &OpenGate, &[call])?;
        let fault = Some(DriveFault::Feed(ListFault { call }));
        let is_first = taken(&feed).is_some();
        equal(rt, (workers, ran.err(), is_first), (workers, fault, true));
    }
    Ok(())
}

#[test]
fn each_call_fails(rt: HostRuntime) -> Result<(), Fail> {
    for window in [1, 2, 256] {
        for call in 0..225u64 {
            fails(&rt, rt.alloc(), window, call)?;
        }
    }
    Ok(())
}

//! The drive with threads.
ghost use Rattle.std.specs.Prelude.{◌≤◌, IfOk, IfSome};
ghost use Rattle.ht_feed.specs.Limits.{IsCrewSize, IsWindowSize};
ghost use Rattle.ht_drive.specs.Reports.{HasRunJobs};
ghost use Rattle.ht_crew.specs.Drives.{DrivesFeed};
ghost use Rattle.ht_crew.specs.Feeds.{IsFreshFeed};
ghost use Rattle.ht_crew.specs.Reports.{HasDelivered};

use crate::detect::Detect;
use crate::drive_fault::DriveFault;
use crate::feed::Feed;
use crate::report::Report;
use crate::singles::Singles;
use ht_drive::drive as drive_blocks;
use ht_feed::{DriveFault as BlockFault, Gate};
use std::alloc::Global;
use std::sync::Wait;
use std::thread::Threads;

/// Runs all jobs of a feed by 1 to 64 workers, of which the caller is one, and hands it their hits in the order of the
/// jobs.
///
/// The feed has given nothing yet. The caller asks it for jobs until `window` of them are due, 1 to 4096, or it has
/// ended, and gives a copy of each to the pool, from which the other workers take them, each in a thread of its own. So
/// whichever call of the feed fails, no more jobs than that are due. The gate is called before and after each job, by
/// whoever runs it. With one worker it is [`drive_alone`](crate::drive_alone).
///
/// It refuses with the feed's fault, or with `NoMemory`, and then before the first call of the feed. Threads that can't
/// be started leave more to the caller.
#[tactic(auto, using(crate::proofs::InBlocks::few_due, crate::proofs::InBlocks::none_due, crate::proofs::InBlocks::in_turn))]
pub fn drive<R: Threads + Wait + Sync, F: Feed, G: Gate + Sync>(
    rt: &R,
    alloc: Global,
    workers: u8,
    window: u16,
    gate: &G,
    feed: &mut F,
) -> Result<Report, DriveFault<F::Fault>>
    requires crew { IsCrewSize workers }
    requires window { IsWindowSize window }
    requires fresh { IsFreshFeed (F.shown feed.old) }
    ensures drives { DrivesFeed F.shown F.leads window feed.old feed.new result }

    // What the workers did.
    ensures ran { IfOk result (HasRunJobs workers window (F.shown feed.old).left) }
    ensures delivered { 2 ≤ workers → IfOk result (λ report. IfSome report.passes HasDelivered) }
{
    let mut failed = false;
    let work = Detect { gate };
    let mut singles = Singles::new(feed, &mut failed);
    match drive_blocks(rt, alloc, workers, window, &work, &mut singles) {
        Ok(report) => Ok(report),
        Err(BlockFault::Feed(fault)) => Err(DriveFault::Feed(fault)),
        Err(BlockFault::NoMemory) => Err(DriveFault::NoMemory),
        Err(BlockFault::Work) => unreachable!(),
    }
}

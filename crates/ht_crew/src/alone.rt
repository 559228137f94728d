//! The drive without threads.
ghost use Rattle.std.specs.Prelude.{IfOk};
ghost use Rattle.ht_feed.specs.Limits.{IsWindowSize};
ghost use Rattle.ht_drive.specs.Reports.{HasRunAlone};
ghost use Rattle.ht_crew.specs.Drives.{DrivesFeed};
ghost use Rattle.ht_crew.specs.Feeds.{IsFreshFeed};

use crate::detect::Detect;
use crate::drive_fault::DriveFault;
use crate::feed::Feed;
use crate::report::Report;
use crate::singles::Singles;
use ht_feed::{DriveFault as BlockFault, Gate, drive_alone as drive_blocks};
use std::alloc::Global;

/// Runs all jobs of a feed, in this thread, and hands it their hits in the order of the jobs.
///
/// The feed has given nothing yet. At most `window` jobs, 1 to 4096, are due. The gate is called before and after each job.
///
/// It refuses with the feed's fault, or with `NoMemory`.
#[tactic(auto, using(crate::proofs::InBlocks::few_due, crate::proofs::InBlocks::none_due, crate::proofs::InBlocks::in_turn))]
pub fn drive_alone<F: Feed, G: Gate>(
    alloc: Global,
    window: u16,
    gate: &G,
    feed: &mut F,
) -> Result<Report, DriveFault<F::Fault>>
    requires window { IsWindowSize window }
    requires fresh { IsFreshFeed (F.shown feed.old) }
    ensures drives { DrivesFeed F.shown F.leads window feed.old feed.new result }
    ensures alone { IfOk result HasRunAlone }
{
    let mut failed = false;
    let mut singles = Singles::new(feed, &mut failed);
    match drive_blocks(window, &Detect { gate }, &mut singles) {
        Ok(jobs) => Ok(Report {
            jobs,
            own: jobs,
            ran: Vec::new(alloc),
            passes: None,
        }),
        Err(BlockFault::Feed(fault)) => Err(DriveFault::Feed(fault)),
        Err(BlockFault::NoMemory) => Err(DriveFault::NoMemory),
        Err(BlockFault::Work) => unreachable!(),
    }
}

//! The caller's part of a drive.
ghost use Rattle.std.specs.Prelude.{◌⊎◌};
ghost use Rattle.ht_drive.specs.Blocks.{seen};
ghost use Rattle.ht_drive.specs.Driving.{HasYetToLead, LeadsBlocks};

use crate::caller::BlockCaller;
use crate::counts::CallerCounts;
use crate::deliver::deliver;
use crate::pace::Pace;
use crate::supply::supply;
use crate::task::Runner;
use crate::turn::turn;
use crate::window::Window;
use ht_feed::{Answer, BlockFeed, DriveFault, Shared, Work};
use std::sync::Wait;

/// Leads all blocks of a feed through an empty window and a pool to which nothing was given, and hands the feed their
/// answers. It answers what the caller has counted.
pub(crate) fn lead<
    R: Wait,
    B: Shared + Drop + Send,
    A: Answer + Drop + Send,
    F: BlockFeed<Block = B, Answer = A>,
    W: Work<B, Answer = A>,
>(
    rt: &R,
    runner: &Runner<'_, B, A, W>,
    window: &mut Window<B, A>,
    pace: &mut Pace,
    caller: &mut BlockCaller<'_, '_, B, A, W>,
    feed: &mut F,
) -> Result<CallerCounts, DriveFault<F::Fault>>
    requires { HasYetToLead (seen B.jobs window.old) caller.old (F.shown feed.old) }
    ensures { LeadsBlocks F.shown F.leads (A.may_lack ⊎ B.may_lack) window.old.capacity feed.old feed.new caller.old caller.new result }
{
    let mut counts = CallerCounts { issued: 0, own: 0 };
    let mut running = true;
    for _ in rt.forever() {
        running = match supply(window, caller, &mut counts, pace.size(), running, feed) {
            Ok(on) => on,
            Err(fault) => return Err(fault),
        };
        if let Err(fault) = deliver(window, feed) {
            return Err(DriveFault::Feed(fault));
        }
        if !running && window.is_empty() && caller.is_home() {
            return Ok(counts);
        }
        if turn(runner.work, window, caller, pace).is_err() {
            return Err(DriveFault::Work);
        }
    }
    unreachable!()
}

//! How a caller hands a feed its answers.
ghost use Rattle.std.specs.Prelude.{◌≡◌, Some, IfErr, OnOk};
ghost use Rattle.ht_drive.specs.Blocks.{seen};
ghost use Rattle.ht_drive.specs.Driving.{Holds, KeepsTurn, OnlyTakes, StepsOn};

use crate::window::Window;
use ht_feed::{Answer, BlockFeed, Shared};

/// Gives the feed the answers to the first blocks due, as far as they have come.
pub(crate) fn deliver<B: Shared + Drop, A: Answer + Drop, F: BlockFeed<Block = B, Answer = A>>(
    window: &mut Window<B, A>,
    feed: &mut F,
) -> Result<(), F::Fault>
    requires holds { Holds (seen B.jobs window.old) (F.shown feed.old) }
    ensures steps { StepsOn F.shown F.leads (seen B.jobs window.old) (seen B.jobs window.new) feed.old feed.new }
    ensures holds { OnOk result (Holds (seen B.jobs window.new) (F.shown feed.new)) }
    ensures turn { OnOk result (KeepsTurn (F.shown feed.old) (F.shown feed.new)) }
    ensures takes { OnOk result (OnlyTakes (F.shown feed.old) (F.shown feed.new)) }
    ensures fault { IfErr result (λ fault. (F.shown feed.new).failed ≡ Some fault) }
{
    while let Some((block, answer)) = window.emit() {
        feed.take(&block, &answer)?;
    }
    Ok(())
}

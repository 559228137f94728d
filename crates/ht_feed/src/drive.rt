//! The drive of a feed of blocks without threads.
ghost use Rattle.std.specs.Prelude.{◌≡◌};
ghost use Rattle.ht_feed.specs.Drives.{DrivesBlocks};
ghost use Rattle.ht_feed.specs.Feeds.{IsFreshFeed};
ghost use Rattle.ht_feed.specs.Limits.{IsWindowSize};

use crate::answer::Work;
use crate::book_fault::BookFault;
use crate::feed::BlockFeed;
use crate::jobs::Jobs;
use ht_runs::RunFault;
use thiserror::Error;

/// Why a drive ended before its feed did.
#[derive(Clone, Copy, Debug, PartialEq, Eq, Error)]
pub enum DriveFault<F> {
    /// A call of the feed failed with this.
    #[error("the feed failed")]
    Feed(F),
    /// Out of memory before the first call of the feed.
    #[error("out of memory")]
    NoMemory,
    /// In mid-run: the work on a block, or the copy of a block that goes to another worker, was out of memory.
    #[error("out of memory for a block")]
    Work,
}

impl From<DriveFault<BookFault>> for RunFault {
    ghost use Rattle.ht_feed.specs.Stops.{fault_of_drive};

    ghost from_gives = { λ driven fault. fault ≡ fault_of_drive driven };

    fn from(driven: DriveFault<BookFault>) -> RunFault {
        match driven {
            DriveFault::Feed(fault) => RunFault::from(fault),
            DriveFault::NoMemory | DriveFault::Work => RunFault::NoMemory,
        }
    }
}

/// Runs all blocks of a feed, in this thread, and hands it their answers in the order of the blocks. It answers how
/// many jobs the feed gave.
///
/// The feed has given nothing yet. One block is due at a time, which no clause says, of at most `window` jobs, 1 to 4096.
///
/// It refuses with the feed's fault, or with `Work` where the work was out of memory. It takes no memory of its own.
pub fn drive_alone<F: BlockFeed, W: Work<F::Block, Answer = F::Answer>>(
    window: u16,
    work: &W,
    feed: &mut F,
) -> Result<u64, DriveFault<F::Fault>>
    requires window { IsWindowSize window }
    requires fresh { IsFreshFeed (F.shown feed.old) }
    ensures { DrivesBlocks F.shown F.leads F.Answer.may_lack (λ jobs. jobs) window feed.old feed.new result }
{
    let mut jobs = 0u64;
    loop {
        let block = match feed.next(window) {
            Ok(Some(block)) => block,
            Ok(None) => return Ok(jobs),
            Err(fault) => return Err(DriveFault::Feed(fault)),
        };
        jobs += u64::from(block.size());
        let Ok(answer) = work.answer_to(&block) else {
            return Err(DriveFault::Work);
        };
        if let Err(fault) = feed.take(&block, &answer) {
            return Err(DriveFault::Feed(fault));
        }
    }
}

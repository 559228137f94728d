//! Where blocks come from and their hits go.
ghost use Rattle.std.specs.Prelude.{◌≡◌, ◌+◌, ◌-◌, ◌^◌, ◌<◌, ◌≤◌, false, Some, slice_get, IfErr, IfNone, IfOk, IfSome, OnOk};
ghost use Rattle.ht_feed.specs.Dues.{count_in};
ghost use Rattle.ht_feed.specs.Feeds.{EndsBlocks, Fails, FeedView, GivesBlock, TakesBlock};

use crate::answer::Answer;
use crate::jobs::Jobs;

/// A source of blocks that takes back their answers, in the order of the blocks.
///
/// Jobs are numbered from 0. A block that was given is due until its answer is taken. What each call did shows in one
/// record, [`shown`](BlockFeed): how many jobs were given, which are due, which are still to come where this is known,
/// a number of jobs beyond which none comes, whether it has ended, and what it answered when it failed.
///
/// Beyond this a feed says by a relation of its own, `leads`, what it does with the answers and with the devices behind
/// it: every call leads from the state before it to the state after it. So whoever hands a feed to a drive knows
/// afterwards that the state at the call leads to the one that comes back.
pub trait BlockFeed {
    /// What a call that fails answers.
    type Fault: Drop;

    /// What it gives.
    type Block: Jobs + Drop;

    /// What it takes for a block.
    type Answer: Answer + Drop;

    /// What is seen of the feed.
    ghost shown: { Self → FeedView Self.Fault };

    /// The calls of the feed may lead from the one state to the other.
    ghost leads: { Self → Self → Type 0 };

    /// Gives the next block, of at most `most` jobs, or none where no block comes any more. The feed hasn't ended, and
    /// with the block at most 4096 jobs are due.
    fn next(&mut self, most: u16) -> Result<Option<Self::Block>, Self::Fault>
        requires running { (shown self.old).ended ≡ false }
        requires some { 1 ≤ most }
        requires few_due { count_in (shown self.old).due + most ≤ 4096 }
        ensures block { IfOk result (λ given. IfSome given (λ block. GivesBlock most (shown self.old) (shown self.new) (Self.Block.jobs block))) }
        ensures none { IfOk result (λ given. IfNone given (EndsBlocks (shown self.old) (shown self.new))) }
        ensures fault { IfErr result (Fails (shown self.old) (shown self.new)) }
        ensures bound { IfOk result (λ given. IfSome given (λ _. (shown self.new).count < 2 ^ 64 - 1)) }
        ensures leads { leads self.old self.new };

    /// Takes the answer to the first block due. A call that fails leaves the block due.
    fn take(&mut self, block: &Self::Block, answer: &Self::Answer) -> Result<(), Self::Fault>
        requires right { Self.Answer.answers answer.now (Self.Block.jobs block.now) }
        requires first { slice_get (shown self.old).due 0 ≡ Some (Self.Block.jobs block.now) }
        ensures takes { OnOk result (TakesBlock (shown self.old) (shown self.new)) }
        ensures fault { IfErr result (Fails (shown self.old) (shown self.new)) }
        ensures leads { leads self.old self.new };

    /// Every state leads to itself.
    ghost stays: { (a : Self) → leads a a };

    /// What a state leads to leads on.
    ghost goes_on: { (a b c : Self) → leads a b → leads b c → leads a c };
}

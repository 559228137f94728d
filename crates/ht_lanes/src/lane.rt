//! One lane among several.
ghost use Rattle.std.specs.Prelude.{◌≡◌, ◌+◌, ◌≤◌, ℕ, List, Bool, true, false, length, slice_get, Some, IfOk, IfSome, OnErr};
ghost use Rattle.ht_metric.specs.Jobs.{JobView};
ghost use Rattle.ht_feed.specs.Dues.{count_in};
ghost use Rattle.ht_feed.specs.Items.{Numbered};
ghost use Rattle.ht_lanes.specs.Calls.{FinishesLane, GivesLaneBlock, SettlesLane};
ghost use Rattle.ht_lanes.specs.Lanes.{Side, side_of};
ghost use Rattle.ht_feed.specs.Numbers.{numbered};

use ht_feed::{Answer, Jobs};
use std::alloc::AllocError;

/// What gives blocks out of a source of `S`, and puts what comes of their answers into a sink of `K`.
///
/// A lane numbers its jobs from 0. It asks its own source and puts into its own sink alone: what its calls do with them
/// is a relation of its own, `leads`, over itself, its source and its sink. Once its sink has failed, or there was no memory
/// for what it puts, it rests: it takes no answers and gives no blocks any more. The only error of a call is lack of memory.
pub trait Lane<S, K> {
    /// What it gives.
    type Block: Jobs + Drop;

    /// What it takes for a block.
    type Answer: Answer + Drop;

    /// How many jobs it has given.
    ghost count: { Self → ℕ };

    /// The jobs of each block that was given and whose answer it waits for.
    ghost due: { Self → List (List JobView) };

    /// It takes no answers any more.
    ghost rests: { Self → Bool };

    /// It gives no blocks any more.
    ghost over: { Self → Bool };

    /// It keeps nothing back of what the answers that it took come to.
    ghost finished: { Self → Type 0 };

    /// The calls of the lane may lead from the one to the other.
    ghost leads: { Side Self S K → Side Self S K → Type 0 };

    /// How many jobs it has given.
    fn count(&self) -> u64
        ensures { result ≡ count self.now };

    /// Whether it takes no answers any more.
    fn is_resting(&self) -> bool
        ensures { result ≡ rests self.now };

    /// Whether it gives no blocks any more.
    fn is_over(&self) -> bool
        ensures { result ≡ over self.now };

    /// Gives the next block, of at most `most` jobs, or none where no block comes any more. With the block at most 4096
    /// of its jobs are due. Without memory nothing was read.
    fn next(&mut self, most: u16, source: &mut S) -> Result<Option<Self::Block>, AllocError>
        requires going { over self.old ≡ false }
        requires some { 1 ≤ most }
        requires few_due { count_in (due self.old) + most ≤ 4096 }
        ensures gives { GivesLaneBlock due rests over Self.Block.jobs self.old self.new result }
        ensures numbers { IfOk result (λ given. IfSome given (λ block. Numbered (count self.old) (Self.Block.jobs block))) }
        ensures some { IfOk result (λ given. IfSome given (λ block. 1 ≤ length (Self.Block.jobs block))) }
        ensures few { IfOk result (λ given. IfSome given (λ block. length (Self.Block.jobs block) ≤ most)) }
        ensures unread { OnErr result (source.new ≡ source.old) }
        ensures leads { (sink : K) → leads (side_of self.old source.old sink) (side_of self.new source.new sink) };

    /// Takes the answer to the first block due. Where the sink fails the lane rests from then on, and so does it
    /// without memory.
    fn take(
        &mut self,
        block: &Self::Block,
        answer: &Self::Answer,
        sink: &mut K,
    ) -> Result<(), AllocError>
        requires going { rests self.old ≡ false }
        requires right { Self.Answer.answers answer.now (Self.Block.jobs block.now) }
        requires first { slice_get (due self.old) 0 ≡ Some (Self.Block.jobs block.now) }
        ensures settles { SettlesLane due rests over self.old self.new result }
        ensures leads { (source : S) → leads (side_of self.old source sink.old) (side_of self.new source sink.new) };

    /// Puts what is kept back, unless it rests, once no answers come any more. Where the sink fails or memory runs out
    /// the lane rests from then on.
    fn finish(&mut self, sink: &mut K)
        ensures finishes { FinishesLane due rests over finished self.old self.new }
        ensures leads { (source : S) → leads (side_of self.old source sink.old) (side_of self.new source sink.new) };

    /// A lane that takes no answers gives no blocks either.
    ghost resting: { (a : Self) → rests a ≡ true → over a ≡ true };

    /// Whatever their numbers are, jobs have the same answer.
    ghost numberless: { (a : Self.Answer) (n : ℕ) (jobs : List JobView) → Self.Answer.answers a (numbered n jobs) → Self.Answer.answers a jobs };

    /// Every state leads to itself.
    ghost stays: { (a : Side Self S K) → leads a a };

    /// What a state leads to leads on.
    ghost goes_on: { (a b c : Side Self S K) → leads a b → leads b c → leads a c };
}

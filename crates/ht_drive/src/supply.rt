//! How a caller fills its window and gives blocks to its pool.
ghost use Rattle.std.specs.Prelude.{◌≡◌, ◌⊎◌, ◌+◌, ◌-◌, ◌<◌, ◌≤◌, ◌^◌, ◌++◌, ◌∷◌, [], length, List, IfErr, IfOk, OnErr, OnOk};
ghost use Rattle.ht_metric.specs.Jobs.{JobView};
ghost use Rattle.ht_feed.specs.OwnNumbers.{AreByNumber};
ghost use Rattle.ht_feed.specs.Dues.{all_in, count_in};
ghost use Rattle.ht_feed.specs.Items.{Numbered};
ghost use Rattle.ht_drive.specs.Blocks.{IsBlock, IsSameCaller, block_window, due_in, seen};
ghost use Rattle.ht_drive.specs.Driving.{Holds, IsLeading, Refuses, Stands, StepsOn, AreCountsOf};

use crate::caller::BlockCaller;
use crate::counts::CallerCounts;
use crate::task::Task;
use crate::window::Window;
use ht_feed::{Answer, BlockFeed, DriveFault, Jobs, Shared, Work};
use std::alloc::AllocError;

// Puts a block into the window, and gives a copy to the pool. Where that has no memory for it, the caller runs the
// block in its turn. The only error is that there was no memory for the copy.
fn issue<B: Shared + Drop + Send, A: Answer + Drop + Send, W: Work<B, Answer = A>>(
    window: &mut Window<B, A>,
    caller: &mut BlockCaller<'_, '_, B, A, W>,
    counts: &mut CallerCounts,
    block: B,
) -> Result<(), AllocError>
    requires block { IsBlock (B.jobs block) }
    requires room { count_in (due_in B.jobs window.old.slots) + length (B.jobs block) ≤ window.old.capacity }
    requires counted { AreCountsOf counts.old caller.old }
    requires numbers { Numbered counts.old.issued (B.jobs block) }
    requires last { counts.old.issued + length (B.jobs block) < 2 ^ 64 - 1 }
    ensures window { seen B.jobs window.new ≡ block_window window.old.capacity (due_in B.jobs window.old.slots ++ B.jobs block ∷ []) }
    ensures counted { OnOk result (AreCountsOf counts.new caller.new) }
    ensures by_number { OnOk result ((all : List JobView) → AreByNumber all (all_in caller.old.given) → AreByNumber all (B.jobs block)
        → AreByNumber all (all_in caller.new.given)) }
    ensures issued { counts.new.issued ≡ counts.old.issued + length (B.jobs block) }
    ensures same { IsSameCaller caller.old caller.new }
    ensures whole { caller.new.whole ≡ caller.old.whole }
    ensures lacks { OnErr result B.may_lack }
{
    let size = u64::from(block.size());
    let copy = block.copy();
    let place = window.push(block);
    counts.issued += size;
    let Some(copy) = copy else {
        return Err(AllocError);
    };
    if !caller.give(Task::new(place, copy)) {
        counts.own += size;
    }
    Ok(())
}

/// Asks the feed for blocks of at most `size` jobs and issues them, while the window has room for as many jobs and the
/// feed goes on. Answers whether it does.
pub(crate) fn supply<
    B: Shared + Drop + Send,
    A: Answer + Drop + Send,
    F: BlockFeed<Block = B, Answer = A>,
    W: Work<B, Answer = A>,
>(
    window: &mut Window<B, A>,
    caller: &mut BlockCaller<'_, '_, B, A, W>,
    counts: &mut CallerCounts,
    size: u16,
    running: bool,
    feed: &mut F,
) -> Result<bool, DriveFault<F::Fault>>
    requires some { 1 ≤ size }
    requires capacity { window.old.capacity ≤ 4096 }
    requires stands { Stands running (seen B.jobs window.old) caller.old counts.old (F.shown feed.old) }

    // However it ends.
    ensures steps { StepsOn F.shown F.leads (seen B.jobs window.old) (seen B.jobs window.new) feed.old feed.new }
    ensures holds { Holds (seen B.jobs window.new) (F.shown feed.new) }
    ensures issued { counts.new.issued ≡ (F.shown feed.new).count }
    ensures same { IsSameCaller caller.old caller.new }

    ensures goes_on { IfOk result (λ on. IsLeading F.shown F.leads on (seen B.jobs window.old)
        (seen B.jobs window.new) caller.old caller.new counts.new feed.old feed.new) }
    ensures refuses { IfErr result (Refuses (A.may_lack ⊎ B.may_lack) (F.shown feed.new)) }
{
    let mut running = running;
    while running && window.room() >= size {
        match feed.next(size) {
            Ok(Some(block)) => {
                if issue(window, caller, counts, block).is_err() {
                    return Err(DriveFault::Work);
                }
            }
            Ok(None) => running = false,
            Err(fault) => return Err(DriveFault::Feed(fault)),
        }
    }
    Ok(running)
}

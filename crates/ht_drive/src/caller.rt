//! The caller's end of a pool that runs blocks.
ghost use Rattle.std.specs.Prelude.{if◌then◌else◌, ◌≡◌, ◌-◌, ◌^◌, ◌<◌, ◌≤◌, [], length, true, false, IfSome, IfNone, IsTrue};
ghost use Rattle.ht_drive.specs.Blocks.{ComesBack, IsSameCaller, IsSettled, gave, caller_of, lacking, pool_of};

use crate::task::{Done, Runner, Task};
use ht_feed::{Answer, Jobs, Work};
use ht_pool::caller::Caller;
use std::marker::Model;

/// Where a caller gives blocks to the pool and gets what came of them. Contracts see the blocks that it gave, in order,
/// and what came back, and whether all of that was answered.
#[derive(Drop)]
pub(crate) struct BlockCaller<
    'p,
    'w,
    B: Jobs + Drop + Send,
    A: Answer + Drop + Send,
    W: Work<B, Answer = A>,
> {
    caller: Caller<'p, Runner<'w, B, A, W>>,
    // At least the number of blocks that have yet to come back.
    out: u64,
    // Whether each block that came back was answered.
    whole: bool,
}

impl<'p, 'w, B: Jobs + Drop + Send, A: Answer + Drop + Send, W: Work<B, Answer = A>> Model
    for BlockCaller<'p, 'w, B, A, W> {
    ghost use Rattle.ht_drive.specs.Blocks.{BlockCaller, CountsOut, caller_of};

    ghost Value = { BlockCaller };

    ghost view = { λ h. caller_of h.caller h.whole };

    ghost invariant = { λ h. CountsOut h.out (caller_of h.caller h.whole) };
}

impl<'p, 'w, B: Jobs + Drop + Send, A: Answer + Drop + Send, W: Work<B, Answer = A>> BlockCaller<
    'p,
    'w,
    B,
    A,
    W,
> {
    /// The caller of a pool to which nothing was given, and from which nothing came.
    pub(crate) fn new(caller: Caller<'p, Runner<'w, B, A, W>>) -> BlockCaller<'p, 'w, B, A, W>
        requires given { caller.given ≡ [] }
        requires answers { caller.answers ≡ [] }
        ensures { result ≡ caller_of caller.entry true }
    {
        BlockCaller {
            caller,
            out: 0,
            whole: true,
        }
    }

    /// Gives a task to the pool, if that has memory for it. Answers whether it has; if not, at least `capacity` tasks were
    /// given before.
    pub(crate) fn give(&mut self, task: Task<B>) -> bool
        requires { length self.old.given < 2 ^ 64 - 1 }
        ensures given { self.new ≡ (if result then gave self.old task else self.old) }
        ensures full { result ≡ false → self.old.capacity ≤ length self.old.given }
    {
        let given = self.caller.give(task).is_ok();
        if given {
            self.out += 1;
        }
        given
    }

    /// What came of a task that a worker ran, or else of one that no worker took. There may be none.
    pub(crate) fn next(&mut self) -> Option<Done<B, A>>
        ensures same { IsSameCaller self.old self.new }
        ensures given { self.new.given ≡ self.old.given }
        ensures whole { IfSome result (λ done. self.new.whole ≡ (if done.answered then self.old.whole else false)) }
        ensures none { IfNone result (self.new ≡ self.old) }
    {
        let done = next_done(&mut self.caller)?;
        self.out = self.out.saturating_sub(1);
        self.whole = self.whole & done.is_answered();
        Some(done)
    }

    /// Whether all blocks have come back.
    pub(crate) fn is_home(&self) -> bool
        ensures { IsTrue result → IsSettled self.now }
    {
        self.out == 0
    }

    /// The caller of the pool for tasks.
    pub(crate) fn into_caller(self) -> Caller<'p, Runner<'w, B, A, W>>
        ensures pool { result ≡ pool_of self.entry }
        ensures answered { self.entry.whole ≡ true → lacking result.answers ≡ 0 }
    {
        self.caller
    }
}

// What came of a task that a worker ran, or else of one that no worker took.
fn next_done<B: Jobs + Drop + Send, A: Answer + Drop + Send, W: Work<B, Answer = A>>(
    caller: &mut Caller<'_, Runner<'_, B, A, W>>,
) -> Option<Done<B, A>>
    ensures some { IfSome result (λ done. ComesBack caller.old caller.new done) }
    ensures none { IfNone result (caller.new ≡ caller.old) }
{
    let received = caller.receive();
    if received.is_some() {
        return received;
    }
    caller.run_one()
}

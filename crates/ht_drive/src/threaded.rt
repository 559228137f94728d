//! The drive of a feed of blocks.
ghost use Rattle.std.specs.Prelude.{◌≡◌, ◌⊎◌, ◌+◌, ◌-◌, ◌<◌, ◌≤◌, [], length, map, true, IfOk, IfSome, IsSome};
ghost use Rattle.std.specs.List.{All};
ghost use Rattle.ht_feed.specs.Limits.{IsCrewSize, IsWindowSize};
ghost use Rattle.ht_feed.specs.Drives.{DrivesBlocks};
ghost use Rattle.ht_feed.specs.Feeds.{IsFreshFeed};
ghost use Rattle.ht_pool.specs.Members.{HasServed, workplace_of, workplaces};
ghost use Rattle.ht_pool.specs.Pools.{IsOpened, IsVacant};
ghost use Rattle.ht_drive.specs.Blocks.{IsSettled, due_in, jobs_in, seen, task_of};
ghost use Rattle.ht_drive.specs.Driving.{HasYetToLead, AreCountsOf};
ghost use Rattle.ht_drive.specs.Reports.{HasRunInPool, HasRunJobs, blocks_pushed, jobs_reported};

use crate::caller::BlockCaller;
use crate::counts::CallerCounts;
use crate::lead::lead;
use crate::pace::Pace;
use crate::report::{Passes, Report};
use crate::task::{Done, Runner, Task};
use crate::window::Window;
use ht_feed::{Answer, BlockFeed, DriveFault, Jobs, Shared, Work, drive_alone};
use ht_pool::caller::Caller;
use ht_pool::caller_end::CallerEnd;
use ht_pool::close::close;
use ht_pool::closed::Closed;
use ht_pool::common::Common;
use ht_pool::crew::beside;
use ht_pool::member::Member;
use ht_pool::pool::Pool;
use ht_pool::space::Space;
use std::alloc::Global;
use std::marker::PhantomData;
use std::sync::Wait;
use std::thread::Threads;

/// Runs all blocks of a fresh feed by 1 to 64 workers, of which the caller is one, and hands it the answers in order. With one
/// worker it is [`drive_alone`](ht_feed::drive_alone).
///
/// At most `window` jobs, 1 to 4096, are due, whichever call of the feed fails: the caller asks for blocks until a whole one
/// finds no room among them, and copies each to the pool, which has a thread for each other worker. How many
/// jobs it asks for at once no clause says.
///
/// It refuses with the feed's fault, with `NoMemory` before any call of it, or later with `Work` for lack of memory. Threads
/// that can't be started leave more to the caller.
pub fn drive<R: Threads + Wait + Sync, F: BlockFeed, W: Work<F::Block, Answer = F::Answer> + Sync>(
    rt: &R,
    alloc: Global,
    workers: u8,
    window: u16,
    work: &W,
    feed: &mut F,
) -> Result<Report<Task<F::Block>, Done<F::Block, F::Answer>>, DriveFault<F::Fault>>
where
    F::Block: Shared + Send + Sync,
    F::Answer: Send + Sync,
    requires crew { IsCrewSize workers }
    requires window { IsWindowSize window }
    requires fresh { IsFreshFeed (F.shown feed.old) }
    ensures drives { DrivesBlocks F.shown F.leads (F.Answer.may_lack ⊎ F.Block.may_lack) jobs_reported window feed.old feed.new result }

    // What the workers did.
    ensures ran { IfOk result (HasRunJobs workers window (F.shown feed.old).left) }
{
    if workers == 1 {
        return match drive_alone(window, work, feed) {
            Ok(jobs) => Ok(Report {
                jobs,
                own: jobs,
                ran: Vec::new(alloc),
                passes: None,
            }),
            Err(fault) => Err(fault),
        };
    }
    let Ok(due) = Window::new(alloc, window) else {
        return Err(DriveFault::NoMemory);
    };
    let Ok(pool) = Pool::open(alloc, workers - 1, window) else {
        return Err(DriveFault::NoMemory);
    };
    in_pool(rt, pool, due, Pace::new(workers, window), work, feed)
}

// Runs all blocks of a feed in a pool that was opened, and through an empty window.
fn in_pool<
    R: Threads + Wait + Sync,
    B: Shared + Drop + Send + Sync,
    A: Answer + Drop + Send + Sync,
    E: Drop,
    F: BlockFeed<Block = B, Answer = A, Fault = E>,
    W: Work<B, Answer = A> + Sync,
>(
    rt: &R,
    pool: Pool<Task<B>, Done<B, A>>,
    window: Window<B, A>,
    pace: Pace,
    work: &W,
    feed: &mut F,
) -> Result<Report<Task<B>, Done<B, A>>, DriveFault<E>>
    requires opened { IsOpened window.capacity pool }
    requires several { 2 ≤ length pool.caller_end.deques }
    requires capacity { window.capacity ≤ 4096 }
    requires empty { due_in B.jobs window.slots ≡ [] }
    requires fresh { IsFreshFeed (F.shown feed.old) }
    ensures drives { DrivesBlocks F.shown F.leads (A.may_lack ⊎ B.may_lack) jobs_reported window.capacity feed.old feed.new result }
    ensures ran { IfOk result (HasRunJobs (length pool.caller_end.deques) window.capacity (F.shown feed.old).left) }
{
    let Pool {
        shared,
        caller_end,
        members,
        space,
    } = pool;
    let runner = Runner {
        work,
        of: PhantomData,
    };
    let mut window = window;
    let mut pace = pace;
    let shared = &shared;
    let runner = &runner;
    let mut caller = BlockCaller::new(Caller::new(caller_end, shared, runner));
    let (members, led) = beside(
        rt,
        runner,
        shared,
        members,
        &mut || -> Result<CallerCounts, DriveFault<E>>
            requires { HasYetToLead (seen B.jobs window) caller (F.shown feed.now) }
        { lead(rt, runner, &mut window, &mut pace, &mut caller, feed) },
    );
    match led {
        Ok(counts) => Ok(finish(counts, caller, members, space)),
        Err(fault) => Err(fault),
    }
}

// What was done, once every block was taken and the workers have ended.
fn finish<B: Jobs + Drop + Send, A: Answer + Drop + Send, W: Work<B, Answer = A>>(
    counts: CallerCounts,
    caller: BlockCaller<'_, '_, B, A, W>,
    members: Vec<Member<Task<B>, Done<B, A>>>,
    space: Space<Task<B>>,
) -> Report<Task<B>, Done<B, A>>
    requires served { All (HasServed task_of jobs_in caller.queue) members.items }
    requires workplaces { map workplace_of members.items ≡ workplaces caller.deques }
    requires space { IsVacant (length caller.deques) space }
    requires settled { IsSettled caller }
    requires whole { caller.whole ≡ true }
    requires counted { AreCountsOf counts caller }
    ensures jobs { result.jobs ≡ counts.issued }
    ensures passes { IsSome result.passes }
    ensures ran { IfSome result.passes (HasRunInPool (length caller.entry.deques) caller.entry.capacity result) }
    ensures given { IfSome result.passes (λ passes. blocks_pushed passes ≡ caller.entry.given) }
{
    let Closed { deques, pass, ran } = close(caller.into_caller(), members, space);
    Report {
        jobs: counts.issued,
        own: counts.own,
        ran,
        passes: Some(Passes {
            deques,
            results: pass,
        }),
    }
}

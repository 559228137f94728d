//! Blocks as the tasks of a pool.
ghost use Rattle.std.specs.Prelude.{◌≡◌, true, IfOk, OnErr, OnOk};
ghost use Rattle.ht_drive.specs.Blocks.{IsBlock, jobs_in, task_of};

use ht_feed::{Answer, Jobs, Work};
use ht_pool::work::PoolWork;
use std::alloc::AllocError;
use std::marker::{Model, PhantomData};
use std::sync::Wait;

/// A block with its place in the order of the blocks. Contracts see its jobs.
#[derive(Drop)]
pub struct Task<B: Jobs> {
    number: u64,
    block: B,
}

impl<B: Jobs> Model for Task<B> {
    ghost use Rattle.std.specs.Prelude.{List};
    ghost use Rattle.ht_metric.specs.Jobs.{JobView};
    ghost use Rattle.ht_drive.specs.Blocks.{IsBlock};

    ghost Value = { List JobView };

    ghost view = { λ t. B.jobs t.block };

    ghost invariant = { λ t. IsBlock (B.jobs t.block) };
}

impl<B: Jobs + Drop> Task<B> {
    /// The task to run a block, which has this place in the order.
    pub(crate) fn new(number: u64, block: B) -> Task<B>
        requires { IsBlock (B.jobs block) }
        ensures { result ≡ B.jobs block }
    {
        Task { number, block }
    }

    // How many jobs the block has.
    fn size(&self) -> u16
        ensures { result ≡ jobs_in self.now }
    {
        self.block.size()
    }

    // Runs the block.
    fn answered<W: Work<B>>(self, work: &W) -> Done<B, W::Answer>
        ensures { task_of result ≡ self }
    {
        let found = work.answer_to(&self.block);
        Done {
            number: self.number,
            block: self.block,
            found,
        }
    }
}

/// A block that was run, with what the work answered. Contracts see its jobs and whether the work has answered. They know
/// that the answer is one to these jobs, and that it's there where no such answer is ever lacking.
#[derive(Drop)]
pub struct Done<B: Jobs, A: Answer> {
    number: u64,
    block: B,
    found: Result<A, AllocError>,
}

impl<B: Jobs, A: Answer> Model for Done<B, A> {
    ghost use Rattle.std.specs.Prelude.{IfOk, OnErr};
    ghost use Rattle.std.specs.Result.{is_ok};
    ghost use Rattle.ht_drive.specs.Blocks.{IsBlock, RunBlock, run_block};

    ghost Value = { RunBlock };

    ghost view = { λ d. run_block (B.jobs d.block) (is_ok d.found) };

    ghost invariant = { λ d. IsBlock (B.jobs d.block) × IfOk d.found (λ answer. A.answers answer (B.jobs d.block))
        × OnErr d.found A.may_lack };
}

impl<B: Jobs + Drop, A: Answer> Done<B, A> {
    /// The block's place in the order.
    pub(crate) fn number(&self) -> u64 {
        self.number
    }

    /// Whether the work calls the block hard.
    pub(crate) fn is_hard<W: Work<B, Answer = A>>(&self, work: &W) -> bool {
        match &self.found {
            Ok(answer) => work.is_hard(&self.block, answer),
            Err(_) => false,
        }
    }

    /// Whether the work has answered.
    pub(crate) fn is_answered(&self) -> bool
        ensures { result ≡ self.now.answered }
    {
        self.found.is_ok()
    }

    /// The block and the answer to it, or out of memory where the work hasn't answered.
    pub(crate) fn into_parts(self) -> Result<(B, A), AllocError>
        ensures block { IfOk result (λ parts. B.jobs parts.0 ≡ task_of self) }
        ensures right { IfOk result (λ parts. A.answers parts.1 (B.jobs parts.0)) }
        ensures answered { OnOk result (self.answered ≡ true) }
        ensures lacks { OnErr result A.may_lack }
    {
        let Done {
            number: _,
            block,
            found,
        } = self;
        match found {
            Ok(answer) => Ok((block, answer)),
            Err(error) => Err(error),
        }
    }
}

/// Work over blocks as work over tasks. A task counts as the number of its jobs.
#[derive(Drop)]
pub(crate) struct Runner<'w, B, A, W> {
    pub(crate) work: &'w W,
    pub(crate) of: PhantomData<(B, A)>,
}

impl<'w, B: Jobs + Drop + Send, A: Answer + Drop + Send, W: Work<B, Answer = A>> PoolWork
    for Runner<'w, B, A, W> {
    type Task = Task<B>;

    type Answer = Done<B, A>;

    ghost asked = { task_of };

    ghost weight = { jobs_in };

    fn weigh(&self, task: &Task<B>) -> u32 {
        u32::from(task.size())
    }

    fn answer_to(&self, task: Task<B>) -> Done<B, A> {
        task.answered(self.work)
    }

    fn help<R: Wait>(&self, rt: &R) -> bool {
        self.work.help(rt)
    }
}

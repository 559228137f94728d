//! The caller's end of a pool.
ghost use Rattle.std.specs.Prelude.{◌≡◌, ◌≤◌, [], length, IfErr, IfSome, IfNone, OnOk};
ghost use Rattle.ht_pool.specs.Callers.{gave, received, TakesBack};

use crate::caller_end::CallerEnd;
use crate::common::Common;
use crate::work::{FULL, PoolWork};
use std::marker::Model;

/// Where a caller gives tasks to the pool and gets answers. Contracts see the tasks that it gave, in order, those that it
/// took back and ran itself, and the answers that it received, in order.
#[derive(Drop)]
pub struct Caller<'a, W: PoolWork> {
    pub(crate) caller_end: CallerEnd<W::Task, W::Answer>,
    pub(crate) shared: &'a Common<W::Answer>,
    pub(crate) work: &'a W,
    pub(crate) ran: u64,
}

impl<'a, W: PoolWork> Model for Caller<'a, W> {
    ghost use Rattle.std.specs.Prelude.{◌≡◌};
    ghost use Rattle.std.specs.List.{sum_by};
    ghost use Rattle.ht_pool.specs.Callers.{CallerView};

    ghost Value = { CallerView W.Task W.Answer };

    ghost view = { λ d. d.caller_end };

    ghost invariant = { λ d. (d.shared.now ≡ d.caller_end.queue) × (d.ran ≡ sum_by W.weight d.caller_end.taken) };
}

impl<'a, W: PoolWork> Caller<'a, W> {
    /// The caller at an end of which nothing was taken yet, in the pool of what the threads share.
    pub fn new(
        caller_end: CallerEnd<W::Task, W::Answer>,
        shared: &'a Common<W::Answer>,
        work: &'a W,
    ) -> Caller<'a, W>
        requires queue { shared.now ≡ caller_end.queue }
        requires none_taken { caller_end.taken ≡ [] }
        ensures { result ≡ caller_end }
    {
        Caller {
            caller_end,
            shared,
            work,
            ran: 0,
        }
    }

    /// How many tasks can be given for sure.
    pub fn capacity(&self) -> u16
        ensures { result ≡ self.now.capacity }
    {
        self.caller_end.capacity()
    }

    /// Gives a task to the pool, and then wakes a worker if any sleeps. The task comes back where there is no memory for it,
    /// and then at least `capacity` tasks were given before.
    pub fn give(&mut self, task: W::Task) -> Result<(), W::Task>
        ensures given { OnOk result (self.new ≡ gave self.old task) }
        ensures refused { IfErr result (λ back. back ≡ task) }
        ensures same { IfErr result (λ _. self.new ≡ self.old) }
        ensures full { IfErr result (λ _. self.old.capacity ≤ length self.old.given) }
    {
        let given = self.caller_end.give(task);
        if given.is_ok() {
            self.shared.wake_one();
        }
        given
    }

    /// Takes back the first task that no worker took, or else one from a worker's deque, and runs it. There may be none.
    pub fn run_one(&mut self) -> Option<W::Answer>
        ensures ran { IfSome result (λ answer. TakesBack self.old self.new (W.asked answer)) }
        ensures none { IfNone result (self.new ≡ self.old) }
    {
        if self.ran > FULL {
            return None;
        }
        let task = self.caller_end.take()?;
        self.ran += u64::from(self.work.weigh(&task));
        Some(self.work.answer_to(task))
    }

    /// Receives an answer of a worker, if there is one.
    pub fn receive(&mut self) -> Option<W::Answer>
        ensures received { IfSome result (λ answer. self.new ≡ received self.old answer) }
        ensures none { IfNone result (self.new ≡ self.old) }
    {
        self.caller_end.receive(self.shared)
    }
}

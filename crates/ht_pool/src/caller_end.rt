//! What the caller of a pool owns.
ghost use Rattle.std.specs.Prelude.{◌≡◌, ◌+◌, ◌-◌, ◌≤◌, ◌∷◌, [], length, drop, map, IfErr, IfSome, IfNone, OnOk};
ghost use Rattle.crossbeam_queue.specs.Passes.{view as answer_view};
ghost use Rattle.ht_pool.specs.PassLogs.{pass_log};
ghost use Rattle.ht_pool.specs.Takers.{fresh_taker, fresh_own, deques_at};
ghost use Rattle.ht_pool.specs.Callers.{unused, gave, received, TakesBack};

use crate::common::{AnswerPass, Common};
use crate::lookout::steal_one;
use crate::own::OwnDeque;
use crate::taker::Taker;
use std::marker::Model;

/// The caller's own deque, its takers at all deques, and its pass on the queue of answers.
#[derive(Drop)]
pub struct CallerEnd<T: Drop, A: Drop> {
    pub(crate) own: OwnDeque<T>,
    pub(crate) takers: Vec<Taker<T>>,
    pub(crate) pass: AnswerPass<A>,
}

impl<T: Drop, A: Drop> Model for CallerEnd<T, A> {
    ghost use Rattle.std.specs.Prelude.{◌≡◌, ◌+◌, ◌≤◌, ◌∷◌, [], length, drop};
    ghost use Rattle.crossbeam_queue.specs.Passes.{view as answer_view};
    ghost use Rattle.ht_pool.specs.Takers.{deques_at};
    ghost use Rattle.ht_pool.specs.Callers.{CallerView, caller_view};

    ghost Value = { CallerView T A };

    ghost view = { λ p. caller_view p.own p.takers.items p.pass.table_id (answer_view p.pass).taken };

    ghost invariant = { λ p.
        (length p.takers.items ≤ 64)
        × (deques_at p.takers.items ≡ p.own.deque ∷ drop 1 (deques_at p.takers.items))
        × (p.own.parts + length p.takers.items ≡ 1024)
        × ((answer_view p.pass).parts + length p.takers.items ≡ 1025)
        × ((answer_view p.pass).pushed ≡ [])
        × (p.pass.me.1 ≡ []) };
}

impl<T: Drop, A: Drop> CallerEnd<T, A> {
    /// The end of a caller who has given nothing yet, and who has a taker at each deque, of which its own is the first.
    pub(crate) fn new(
        own: OwnDeque<T>,
        takers: Vec<Taker<T>>,
        pass: AnswerPass<A>,
    ) -> CallerEnd<T, A>
        requires few { length takers.items ≤ 64 }
        requires first { deques_at takers.items ≡ own.deque ∷ drop 1 (deques_at takers.items) }
        requires takers { takers.items ≡ map fresh_taker (deques_at takers.items) }
        requires own { own ≡ fresh_own (1024 - length takers.items) own.capacity own.deque }
        requires idle { pass.me.1 ≡ [] }
        requires answers { answer_view pass ≡ pass_log (1025 - length takers.items) [] [] }
        ensures { result ≡ unused own.capacity (deques_at takers.items) pass.table_id }
    {
        // For the proof alone: the call says that the vector's length fits its type.
        let _takers = takers.len();
        CallerEnd { own, takers, pass }
    }

    /// How many tasks can be given for sure.
    pub(crate) fn capacity(&self) -> u16
        ensures { result ≡ self.now.capacity }
    {
        self.own.capacity()
    }

    /// Gives a task to the pool. It comes back where there is no memory for it.
    pub(crate) fn give(&mut self, task: T) -> Result<(), T>
        ensures given { OnOk result (self.new ≡ gave self.old task) }
        ensures refused { IfErr result (λ back. back ≡ task) }
        ensures same { IfErr result (λ _. self.new ≡ self.old) }
        ensures full { IfErr result (λ _. self.old.capacity ≤ length self.old.given) }
    {
        self.own.push(task)
    }

    /// Takes the first task back that no worker took, or else one from a worker's deque.
    pub(crate) fn take(&mut self) -> Option<T>
        ensures took { IfSome result (TakesBack self.old self.new) }
        ensures none { IfNone result (self.new ≡ self.old) }
    {
        if let Some(task) = self.own.pop() {
            return Some(task);
        }
        steal_one(self.takers.as_mut_slice(), 0)
    }

    /// Receives an answer, if there is one.
    pub(crate) fn receive(&mut self, shared: &Common<A>) -> Option<A>
        requires queue { shared.now ≡ self.old.queue }
        ensures received { IfSome result (λ answer. self.new ≡ received self.old answer) }
        ensures none { IfNone result (self.new ≡ self.old) }
    {
        shared.receive(&mut self.pass)
    }
}

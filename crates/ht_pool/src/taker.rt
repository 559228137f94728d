//! The ends of a deque of tasks.
ghost use Rattle.std.specs.Prelude.{◌≡◌, []};
ghost use Rattle.crossbeam_deque.specs.Steals.{MatchSteal};
ghost use Rattle.crossbeam_deque.specs.Handles.{view, stealer_deque};
ghost use Rattle.ht_pool.specs.Takers.{IsThiefs, fresh_taker, stole};

use crate::pass_log::PassLog;
use crate::rule::{CountingRule, Take};
use crossbeam_deque::{Pass, Steal, Stealer, Worker};
use std::alloc::Global;
use std::marker::Model;

/// The owner's end of a deque of tasks: its worker pushes at the back and pops at the front.
pub type Owner<T> = Worker<T, Global, PassLog<T>, CountingRule>;

/// What takes tasks at the front of a deque that others own.
pub type Thief<T> = Stealer<T, Global, PassLog<T>, CountingRule>;

/// A pass on a deque.
pub type TaskPass<T> = Pass<T, PassLog<T>, Global>;

/// A thief with its pass, with which nothing was pushed. Contracts see which deque it is at, and the tasks that it has
/// taken there, in order.
#[derive(Drop)]
pub struct Taker<T: Drop> {
    thief: Thief<T>,
    pass: TaskPass<T>,
}

impl<T: Drop> Model for Taker<T> {
    ghost use Rattle.crossbeam_deque.specs.Handles.{view as pass_view, stealer_deque};
    ghost use Rattle.ht_pool.specs.Takers.{IsThiefs, TakerView};

    ghost Value = { TakerView T };

    ghost view = { λ s. record { at = stealer_deque s.thief; taken = (pass_view s.pass).taken } };

    ghost invariant = { λ s. IsThiefs (stealer_deque s.thief) s.pass };
}

impl<T: Drop> Taker<T> {
    /// A thief and its pass.
    pub(crate) fn new(thief: Thief<T>, pass: TaskPass<T>) -> Taker<T>
        requires of { IsThiefs (stealer_deque thief) pass }
        requires fresh { (view pass).taken ≡ [] }
        ensures { result ≡ fresh_taker (stealer_deque thief) }
    {
        Taker { thief, pass }
    }

    /// Takes the first task of the deque. `Empty` says that there was none at one moment of the call, `Retry` that
    /// another thread took it first.
    pub fn steal(&mut self) -> Steal<T>
        ensures { MatchSteal result (self.new ≡ self.old) (self.new ≡ self.old) (λ task. self.new ≡ stole self.old task) }
    {
        self.thief.steal_as::<Take>(&mut self.pass)
    }

    /// The pass alone.
    pub(crate) fn into_pass(self) -> TaskPass<T>
        ensures of { IsThiefs self.at result }
        ensures taken { (view result).taken ≡ self.taken }
    {
        self.pass
    }
}

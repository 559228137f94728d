//! A deque of tasks in the hands of its owner.
ghost use Rattle.std.specs.Prelude.{◌≡◌, ◌-◌, ◌<◌, ◌≤◌, List, length, IfOk, IfErr, IfSome, IfNone, OnOk};
ghost use Rattle.ht_pool.specs.PassLogs.{pass_log, AddsUp};
ghost use Rattle.ht_pool.specs.Takers.{fresh_taker, fresh_own, pushed_on, popped_from, took_in};
ghost use Rattle.ht_pool.specs.Through.{through};

use crate::ends::Ends;
use crate::rule::{Cut, Push, Take, Whole};
use crate::taker::{Owner, Taker};
use std::alloc::{AllocError, Global};
use std::marker::Model;

/// The owner's end of a deque. Contracts see which deque it is, for how many tasks it has room for sure, what its owner
/// pushed and took, in order, and how much of the right to know the whole deque the owner has.
#[derive(Drop)]
pub struct OwnDeque<T: Drop> {
    owner: Owner<T>,
    capacity: u16,
}

impl<T: Drop> Model for OwnDeque<T> {
    ghost use Rattle.std.specs.Prelude.{◌≡◌, ◌<◌, ◌≤◌, length};
    ghost use Rattle.crossbeam_deque.specs.Handles.{worker_deque, worker_view, worker_flavor, worker_index, worker_capacity};
    ghost use Rattle.ht_pool.specs.Takers.{OwnView};

    ghost Value = { OwnView T };

    ghost view = { λ d. record {
      deque = worker_deque d.owner;
      capacity = d.capacity;
      parts = (worker_view d.owner).parts;
      pushed = (worker_view d.owner).pushed;
      taken = (worker_view d.owner).taken;
    } };

    ghost invariant = { λ d.
        (worker_flavor d.owner ≡ 0)
        × (0 < (worker_view d.owner).parts)
        × (worker_index d.owner ≤ length (worker_view d.owner).pushed)
        × (d.capacity ≤ worker_capacity d.owner) };
}

impl<T: Drop> OwnDeque<T> {
    /// A new deque with room for a number of tasks.
    pub(crate) fn open(alloc: Global, capacity: u16) -> Result<OwnDeque<T>, AllocError>
        ensures { IfOk result (λ own. own ≡ fresh_own 1024 capacity own.deque) }
    {
        let owner: Owner<T> = Owner::fifo_as(alloc, usize::from(capacity))?;
        Ok(OwnDeque { owner, capacity })
    }

    /// For how many tasks there is room for sure.
    pub(crate) fn capacity(&self) -> u16
        ensures { result ≡ self.now.capacity }
    {
        self.capacity
    }

    /// A new taker at the deque.
    pub(crate) fn taker(&mut self) -> Result<Taker<T>, AllocError>
        requires some { 1 < self.old.parts }
        ensures own { OnOk result (self.new ≡ record self.old { parts = self.old.parts - 1 }) }
        ensures taker { IfOk result (λ taker. taker ≡ fresh_taker self.old.deque) }
    {
        let pass = self.owner.another::<Cut>();
        let thief = self.owner.stealer()?;
        Ok(Taker::new(thief, pass))
    }

    /// Pushes a task at the back. It comes back where there is no memory for it, and then at least `capacity` tasks were
    /// pushed before.
    pub(crate) fn push(&mut self, task: T) -> Result<(), T>
        ensures pushed { OnOk result (self.new ≡ pushed_on self.old task) }
        ensures refused { IfErr result (λ back. back ≡ task) }
        ensures same { IfErr result (λ _. self.new ≡ self.old) }
        ensures full { IfErr result (λ _. self.old.capacity ≤ length self.old.pushed) }
    {
        self.owner.push_as::<Push>(task)
    }

    /// Takes the first task, if there is one.
    pub(crate) fn pop(&mut self) -> Option<T>
        ensures popped { IfSome result (λ task. self.new ≡ popped_from self.old task) }
        ensures none { IfNone result (self.new ≡ self.old) }
    {
        self.owner.pop_as::<Take>()
    }

    /// Joins a taker at the deque into the owner's end.
    pub(crate) fn absorb(&mut self, taker: Taker<T>)
        requires at { taker.at ≡ self.old.deque }
        ensures { self.new ≡ took_in self.old taker }
    {
        self.owner.absorb::<Cut>(taker.into_pass());
    }

    /// The ends of the deque, once all takers at it are joined. What was pushed is what was taken and what is held.
    pub(crate) fn close(self) -> Ends<T>
        requires all { self.parts ≡ 1024 }
        ensures through { through result ≡ pass_log 1023 self.pushed self.taken }
        ensures whole { (held : List T) × AddsUp (through result) held }
    {
        let mut owner = self.owner;
        owner.len_as::<Whole>();
        let pass = owner.another::<Cut>();
        Ends::new(owner, pass)
    }
}

//! The deque of an actor.
ghost use Rattle.std.specs.Prelude.{◌≡◌, ◌↔◌, ◌<◌, [], ◌++◌, length, drop, slice_get, nat_lt, IsTrue, OnOk, OnErr};
ghost use Rattle.std.specs.Option.{option_to_list};
ghost use Rattle.ht_machine.specs.Facts.{numbered};

use ht_metric::Job;
use std::alloc::{AllocError, Global};
use std::collections::VecDeque;
use std::marker::Model;

/// Jobs that wait, from the front on.
#[derive(Debug, Drop)]
pub struct Deque {
    jobs: VecDeque<Job>,
}

impl Model for Deque {
    ghost use Rattle.std.specs.Prelude.{List};
    ghost use Rattle.ht_metric.specs.Jobs.{JobView};

    ghost Value = { List JobView };

    ghost view = { λ d. d.jobs.items };
}

impl Deque {
    /// A deque with no job.
    pub fn new(alloc: Global) -> Deque
        ensures { result ≡ [] }
    {
        Deque {
            jobs: VecDeque::new(alloc),
        }
    }

    /// Whether a job waits.
    pub fn has_some(&self) -> bool
        ensures { result ≡ nat_lt 0 (length self.now) }
    {
        !self.jobs.is_empty()
    }

    /// Whether a job of this number waits.
    pub fn has(&self, number: u64) -> bool
        ensures { IsTrue result ↔ (0 < numbered number self.now) }
    {
        for at in 0..self.jobs.len() {
            if self.jobs[at].number() == number {
                return true;
            }
        }
        false
    }

    /// Puts a copy of what is in a hand at the back.
    pub fn push(&mut self, hand: &Option<Job>) -> Result<(), AllocError>
        ensures ok { OnOk result (self.new ≡ self.old ++ option_to_list hand.now) }
        ensures err { OnErr result (self.new ≡ self.old) }
    {
        if let Some(job) = hand {
            self.jobs.push_back(job.copy())?;
        }
        Ok(())
    }

    /// Takes the front, if there is one.
    pub fn pop(&mut self) -> Option<Job>
        ensures front { result ≡ slice_get self.old 0 }
        ensures rest { self.new ≡ drop 1 self.old }
    {
        self.jobs.pop_front()
    }
}

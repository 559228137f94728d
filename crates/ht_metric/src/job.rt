//! What a detector is given.
ghost use Rattle.std.specs.Prelude.{◌≡◌, ◌↔◌, ⊤, length, IsTrue};
ghost use Rattle.ht_metric.specs.Jobs.{IsJob};

use crate::place::Place;
use crate::system::System;
use ht_pam::Grid;
use std::alloc::AllocError;
use std::marker::Model;

/// One vector to be detected: the system of a subcarrier in one symbol, and the grid of the vectors that may have been sent.
#[derive(Debug, PartialEq, Eq, Drop)]
pub struct Job {
    number: u64,
    place: Place,
    system: System,
    grid: Grid,
}

impl Model for Job {
    ghost use Rattle.ht_metric.specs.Jobs.{JobView, IsJob};

    ghost Value = { JobView };

    ghost view = { λ j. record { number = j.number; place = j.place; grid = j.grid; system = j.system } };

    ghost invariant = { λ j. IsJob (record { number = j.number; place = j.place; grid = j.grid; system = j.system }) };

    ghost inverse = { λ v. record { number = v.number; place = v.place; grid = v.grid; system = v.system } };
}

impl Job {
    /// The job of this number and place. The grid and the system have the same number of streams.
    pub fn new(number: u64, place: Place, grid: Grid, system: System) -> Job
        requires { length grid ≡ length system }
        ensures { result ≡ record { number = number; place = place; grid = grid; system = system } }
    {
        Job {
            number,
            place,
            system,
            grid,
        }
    }

    /// The number of the job, counted from 0 over a capture.
    pub fn number(&self) -> u64
        ensures { result ≡ self.now.number }
    {
        self.number
    }

    /// Where in the capture the job comes from.
    pub fn place(&self) -> Place
        ensures { result ≡ self.now.place }
    {
        self.place
    }

    /// The vectors that may have been sent.
    pub fn grid(&self) -> &Grid
        ensures grid { result.now ≡ self.now.grid }
        ensures job { IsJob self.now }
    {
        &self.grid
    }

    /// The channel and what was received.
    pub fn system(&self) -> &System
        ensures system { result.now ≡ self.now.system }
        ensures job { IsJob self.now }
    {
        &self.system
    }

    /// Whether both jobs have the same number, place, grid and system, as `==` says too.
    pub fn same(&self, other: &Job) -> bool
        ensures { IsTrue result ↔ (self.now ≡ other.now) }
    {
        let same = self.number == other.number && self.place == other.place;
        same && self.grid.same(&other.grid) && self.system.same(&other.system)
    }

    /// A copy of the job.
    pub fn copy(&self) -> Job
        ensures { result ≡ self.now }
    {
        Job { ..*self }
    }
}

impl Clone for Job {
    ghost is_clone = { λ job copy. copy ≡ job };

    ghost is_infallible = { λ _. ⊤ };

    fn clone(&self) -> Result<Job, AllocError> {
        Ok(self.copy())
    }
}

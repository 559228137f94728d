//! A sink in memory that never fails.
ghost use Rattle.std.specs.Prelude.{◌≡◌, ◌↔◌, ◌+◌, ◌-◌, ◌<◌, [], ◌++◌, length, take, min, IsOk, IsNone, OnOk, vec_capacity, option_copied};
ghost use Rattle.ht_io.specs.Causes.{last_count};
ghost use Rattle.ht_io.specs.Pieces.{KnownGrown};
ghost use Rattle.ht_io.specs.Writing.{known_of};

use crate::space::append;
use crate::{Failed, Sink};
use std::marker::Model;

/// Octets put into memory that is given. Octets beyond its capacity are only counted and dropped,
/// and from then on no octets of the sink are known. No put fails.
#[derive(Drop)]
pub struct SureSink {
    space: Vec<u8>,
    capacity: usize,
    dropped: u64,
}

impl Model for SureSink {
    ghost use Rattle.std.specs.Prelude.{◌≤◌, vec_len, vec_capacity};
    ghost use Rattle.ht_io.specs.Writing.{Fitting};

    ghost Value = { Fitting };

    ghost view = { λ s. record { fitted = s.space.items; capacity = s.capacity; dropped = s.dropped } };

    ghost invariant = { λ s. (s.capacity ≤ vec_capacity s.space) × (vec_len s.space ≤ s.capacity) };
}

impl SureSink {
    /// A sink that holds no octet yet. It empties `space` and puts its octets there, and takes no
    /// memory.
    pub fn new(mut space: Vec<u8>) -> SureSink
        ensures { result ≡ record { fitted = []; capacity = vec_capacity space; dropped = 0 } }
    {
        space.clear();
        let capacity = space.capacity();
        SureSink {
            space,
            capacity,
            dropped: 0,
        }
    }

    /// The octets that were put, or `None` where not all of them fitted.
    #[must_use]
    pub fn held(&self) -> Option<&[u8]>
        ensures octets { option_copied result ≡ known_of self.now }
        ensures none { IsNone result ↔ (0 < self.now.dropped) }
    {
        if self.dropped > 0 {
            return None;
        }
        Some(&self.space)
    }

    /// How many octets were dropped, at most 2^64 - 1.
    #[must_use]
    pub fn dropped(&self) -> u64
        ensures { result ≡ self.now.dropped }
    {
        self.dropped
    }
}

impl Sink for SureSink {
    ghost shown = { λ s. record { known = known_of s; faults = 0; borrow = 0 } };

    fn put(&mut self, piece: &[u8]) -> Result<(), Failed>
        ensures sure { IsOk result }
        ensures fitted { self.new.fitted ≡ take self.old.capacity (self.old.fitted ++ piece.now) }
        ensures dropped { self.new.dropped ≡ min (self.old.dropped + (length self.old.fitted + length piece.now - self.old.capacity)) last_count }
        ensures capacity { self.new.capacity ≡ self.old.capacity }

        ensures grown { OnOk result (KnownGrown (known_of self.old) (known_of self.new) piece.now) }
    {
        let room = piece.len().min(self.capacity - self.space.len());
        append(&mut self.space, &piece[..room]);
        self.dropped = self.dropped.saturating_add((piece.len() - room) as u64);
        Ok(())
    }
}

//! A sink in memory, for tests: it fails at the offsets that are named.
ghost use Rattle.std.specs.Prelude.{◌≡◌, ◌↔◌, ◌+◌, ◌<◌, ◌≤◌, [], ◌++◌, length, take, Some, IsErr, OnOk, OnErr, vec_capacity};
ghost use Rattle.std.specs.List.Sorted.{IsNonDecreasing};
ghost use Rattle.ht_io.specs.Causes.{HasRisen, one_more};
ghost use Rattle.ht_io.specs.Pieces.{KnownGrownByPart};
ghost use Rattle.ht_io.specs.Writing.{nearest, unspent, device_of_writing};

use crate::space::append;
use crate::{Failed, Sink};
use std::marker::Model;

/// Octets put into memory that is given. A put that would pass a failing offset, or the capacity,
/// goes up to it and fails. Each failing offset fails once.
#[derive(Drop)]
pub struct MemSink {
    space: Vec<u8>,
    capacity: usize,
    failing: Vec<u64>,
    faults: u64,
}

impl Model for MemSink {
    ghost use Rattle.std.specs.Prelude.{vec_len, vec_capacity};
    ghost use Rattle.ht_io.specs.Writing.{Writing, IsWithin};

    ghost Value = { Writing };

    ghost view = { λ s. record { held = s.space.items; capacity = s.capacity; failing = s.failing.items; faults = s.faults } };

    ghost invariant = { λ s. IsWithin (vec_len s.space) s.capacity (vec_capacity s.space) s.failing.items };
}

impl MemSink {
    /// A sink that holds no octet yet. It empties `space` and puts its octets there, and takes no
    /// memory. The failing offsets ascend.
    pub fn new(mut space: Vec<u8>, failing: Vec<u64>) -> MemSink
        requires ascends { IsNonDecreasing failing.items }
        ensures { result ≡ record { held = []; capacity = vec_capacity space; failing = failing.items; faults = 0 } }
    {
        space.clear();
        let capacity = space.capacity();
        MemSink {
            space,
            capacity,
            failing,
            faults: 0,
        }
    }

    /// The octets that were put.
    pub fn held(&self) -> &[u8]
        ensures { result.now ≡ self.now.held }
    {
        &self.space
    }
}

// How many octets may be held.
fn limit(failing: &[u64], capacity: usize) -> usize
    ensures { result ≡ nearest failing.now capacity }
{
    match failing.first() {
        Some(first) => capacity.min(*first as usize),
        None => capacity,
    }
}

// Takes out the first failing offset, where a put that goes as far as it may reaches it.
fn spend_reached(failing: &mut Vec<u64>, capacity: usize)
    ensures { failing.new.items ≡ unspent failing.old.items capacity }
{
    match failing.first() {
        Some(first) if *first as usize <= capacity => {
            failing.remove(0);
        }
        _ => {}
    }
}

impl Sink for MemSink {
    ghost shown = { device_of_writing };

    fn put(&mut self, piece: &[u8]) -> Result<(), Failed>
        // It fails exactly where it would pass the first unspent failing offset or the capacity.
        ensures fails { IsErr result ↔ (nearest self.old.failing self.old.capacity < length self.old.held + length piece.now) }
        ensures whole { OnOk result (self.new ≡ record self.old { held = self.old.held ++ piece.now }) }

        // Then it goes up to the nearer of the two, and spends the offset that it reached.
        ensures cut { OnErr result (self.new.held ≡ take (nearest self.old.failing self.old.capacity) (self.old.held ++ piece.now)) }
        ensures spent { OnErr result (self.new ≡ record self.old {
          held = self.new.held;
          failing = unspent self.old.failing self.old.capacity;
          faults = one_more self.old.faults;
        }) }

        ensures grown { OnOk result (self.new.held ≡ self.old.held ++ piece.now) }
        ensures part { OnErr result (KnownGrownByPart (Some self.old.held) (Some self.new.held) piece.now) }
        ensures cause { OnErr result (HasRisen self.old.faults self.new.faults) }
        ensures later { self.old.faults ≤ self.new.faults }
    {
        let room = limit(&self.failing, self.capacity) - self.space.len();
        if piece.len() <= room {
            append(&mut self.space, piece);
            return Ok(());
        }
        append(&mut self.space, &piece[..room]);
        spend_reached(&mut self.failing, self.capacity);
        self.faults = self.faults.saturating_add(1);
        Err(Failed)
    }
}

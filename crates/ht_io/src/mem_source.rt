//! A source over octets in memory, for tests: it reads in pieces and fails at the offsets that are named.
ghost use Rattle.std.specs.Prelude.{Contains, Some, IsTrue, IsSome, IsErr, IfOk, OnErr};
ghost use Rattle.std.specs.Prelude.{◌≡◌, ◌⊎◌, ◌↔◌, ◌+◌, ◌<◌, ◌≤◌, ℕ, List, [], ◌++◌, length, take, drop, min, nat_eq, position, if◌then◌else◌};
ghost use Rattle.ht_io.specs.Causes.{HasRisen, one_more};
ghost use Rattle.ht_io.specs.Reading.{without_first, PassesNone, IsFull, device_of_reading, hand_of_reading, ready_of};

use crate::space::copy_front;
use crate::{Failed, Source};
use std::marker::Model;

/// Octets in memory. No read passes a cut or a failing offset, and a read that starts at a failing
/// offset fails once for each entry that names it.
#[derive(Drop)]
pub struct MemSource {
    bytes: Vec<u8>,
    at: usize,
    cuts: Vec<u64>,
    failing: Vec<u64>,
    faults: u64,
}

impl Model for MemSource {
    ghost use Rattle.std.specs.Prelude.{◌≤◌, drop, vec_len};
    ghost use Rattle.ht_io.specs.Reading.{Reading};

    ghost Value = { Reading };

    ghost view = { λ s. record { left = drop s.at s.bytes.items; at = s.at; cuts = s.cuts.items; failing = s.failing.items; faults = s.faults } };

    ghost invariant = { λ s. s.at ≤ vec_len s.bytes };
}

impl MemSource {
    /// A source of these octets, with offsets counted from the first of them. It takes no memory.
    pub fn new(bytes: Vec<u8>, cuts: Vec<u64>, failing: Vec<u64>) -> MemSource
        ensures { result ≡ record { left = bytes.items; at = 0; cuts = cuts.items; failing = failing.items; faults = 0 } }
    {
        MemSource {
            bytes,
            at: 0,
            cuts,
            failing,
            faults: 0,
        }
    }
}

// How many of `most` octets from `at` on come before the stop.
fn nearer(stop: u64, at: usize, most: usize) -> usize
    requires { 0 < most }
    ensures some { 0 < result }
    ensures within { result ≤ most }
    ensures passes { (stop ≤ at) ⊎ (at + result ≤ stop) }
    ensures full { (result ≡ most) ⊎ (stop ≡ at + result) }
{
    let stop = stop as usize;
    if at < stop && stop - at < most {
        stop - at
    } else {
        most
    }
}

// How many of `room` octets from `at` on come before the next of the stops.
fn room_before(stops: &[u64], at: usize, room: usize) -> usize
    requires { 0 < room }
    ensures some { 0 < result }
    ensures within { result ≤ room }
    ensures passes_none { PassesNone stops.now at result }
    ensures full { IsFull stops.now at room result }
{
    let mut most = room;
    for stop in stops {
        most = nearer(*stop, at, most);
    }
    most
}

// How many of `room` octets from `at` on come before the next cut or failing offset.
fn room_for_both(cuts: &[u64], failing: &[u64], at: usize, room: usize) -> usize
    requires { 0 < room }
    ensures some { 0 < result }
    ensures within { result ≤ room }
    ensures passes_no_cut { PassesNone cuts.now at result }
    ensures passes_no_failing { PassesNone failing.now at result }
    ensures full { IsFull (cuts.now ++ failing.now) at room result }
{
    room_before(failing, at, room_before(cuts, at, room))
}

// Where the first entry that names the offset stands.
fn first_at(failing: &[u64], at: usize) -> Option<usize>
    ensures found { IsSome result ↔ Contains failing.now at }
    ensures first { result ≡ position (λ entry. nat_eq entry at) failing.now }
{
    failing.iter().position(|entry| *entry == at as u64)
}

// Takes out the first entry that names the offset, if there is one.
fn spend(failing: &mut Vec<u64>, at: usize) -> bool
    ensures found { IsTrue result ↔ Contains failing.old.items at }
    ensures spent { failing.new.items ≡ (if result then without_first at failing.old.items else failing.old.items) }
{
    match first_at(failing, at) {
        Some(index) => {
            failing.remove(index);
            true
        }
        None => false,
    }
}

// How many of the octets left come before the next stop, where the next read does not fail.
fn ready(cuts: &[u64], failing: &[u64], at: usize, left: usize) -> usize
    ensures within { result ≤ left }
    ensures value { (octets : List ℕ) → length octets ≡ left → take result octets ≡ ready_of cuts.now failing.now at octets }
{
    if left == 0 || first_at(failing, at).is_some() {
        return 0;
    }
    room_for_both(cuts, failing, at, left)
}

impl Source for MemSource {
    ghost shown = { device_of_reading };

    ghost hand = { hand_of_reading };

    fn read(&mut self, into: &mut [u8]) -> Result<usize, Failed>
        requires room { 0 < length into.old }
        ensures within { IfOk result (λ count. count ≤ length into.new) }
        ensures taken { IfOk result (λ count. self.old.left ≡ take count into.new ++ self.new.left) }
        ensures ended { IfOk result (λ count. (count ≡ 0) ↔ (self.old.left ≡ [])) }

        // It takes all that the room, the end, a cut or a failing offset lets it take.
        ensures moved { IfOk result (λ count. self.new ≡ record self.old { left = drop count self.old.left; at = self.old.at + count }) }
        ensures passes_no_cut { IfOk result (PassesNone self.old.cuts self.old.at) }
        ensures passes_no_failing { IfOk result (PassesNone self.old.failing self.old.at) }
        ensures full { IfOk result (IsFull (self.old.cuts ++ self.old.failing) self.old.at (min (length into.old) (length self.old.left))) }

        // It fails exactly at an unspent failing offset, and spends one entry.
        ensures fails { IsErr result ↔ Contains self.old.failing self.old.at }
        ensures spent { OnErr result (self.new
            ≡ record self.old { failing = without_first self.old.at self.old.failing; faults = one_more self.old.faults }) }
        ensures kept { OnErr result (self.new.left ≡ self.old.left) }
        ensures cause { OnErr result (HasRisen self.old.faults self.new.faults) }
        ensures later { self.old.faults ≤ self.new.faults }
    {
        if spend(&mut self.failing, self.at) {
            self.faults = self.faults.saturating_add(1);
            return Err(Failed);
        }
        let room = into.len().min(self.bytes.len() - self.at);
        if room == 0 {
            return Ok(0);
        }
        let count = room_for_both(&self.cuts, &self.failing, self.at, room);
        copy_front(&self.bytes, self.at, count, into);
        self.at += count;
        Ok(count)
    }

    // What the next read would give with room for all: none where it fails.
    fn at_hand(&self) -> &[u8]
        ensures { result.now ≡ hand_of_reading self.now }
    {
        let count = ready(
            &self.cuts,
            &self.failing,
            self.at,
            self.bytes.len() - self.at,
        );
        &self.bytes[self.at..self.at + count]
    }

    fn consume(&mut self, count: usize)
        requires { count ≤ length (hand_of_reading self.old) }
        ensures moved { self.new ≡ record self.old { left = drop count self.old.left; at = self.old.at + count } }
        ensures taken { self.old.left ≡ take count (hand_of_reading self.old) ++ self.new.left }
    {
        self.at += count;
    }
}

//! A source over octets in memory that never fails.
ghost use Rattle.std.specs.Prelude.{◌≡◌, ◌↔◌, ◌<◌, ◌≤◌, [], ◌++◌, length, take, drop, min, Some, IsOk, IfOk};

use crate::space::copy_front;
use crate::{Failed, Source};
use std::marker::Model;

/// Octets in memory, of which each read takes as many as it has room for. No read fails.
#[derive(Drop)]
pub struct SureSource {
    bytes: Vec<u8>,
    at: usize,
}

impl Model for SureSource {
    ghost use Rattle.std.specs.Prelude.{◌≤◌, ℕ, List, drop, vec_len};

    ghost Value = { List ℕ };

    ghost view = { λ s. drop s.at s.bytes.items };

    ghost invariant = { λ s. s.at ≤ vec_len s.bytes };
}

impl SureSource {
    /// A source of these octets. It takes no memory.
    pub fn new(bytes: Vec<u8>) -> SureSource
        ensures { result ≡ bytes.items }
    {
        SureSource { bytes, at: 0 }
    }
}

impl Source for SureSource {
    ghost shown = { λ s. record { known = Some s; faults = 0; borrow = 0 } };

    // All octets are at hand.
    ghost hand = { λ s. s };

    fn read(&mut self, into: &mut [u8]) -> Result<usize, Failed>
        requires room { 0 < length into.old }
        ensures sure { IsOk result }
        ensures count { IfOk result (λ count. count ≡ min (length into.old) (length self.old)) }
        ensures rest { IfOk result (λ count. self.new ≡ drop count self.old) }

        ensures within { IfOk result (λ count. count ≤ length into.new) }
        ensures taken { IfOk result (λ count. self.old ≡ take count into.new ++ self.new) }
        ensures ended { IfOk result (λ count. (count ≡ 0) ↔ (self.old ≡ [])) }
    {
        let count = into.len().min(self.bytes.len() - self.at);
        copy_front(&self.bytes, self.at, count, into);
        self.at += count;
        Ok(count)
    }

    fn at_hand(&self) -> &[u8]
        ensures { result.now ≡ self.now }
    {
        &self.bytes[self.at..]
    }

    fn consume(&mut self, count: usize)
        requires { count ≤ length self.old }
        ensures rest { self.new ≡ drop count self.old }
        ensures taken { self.old ≡ take count self.old ++ self.new }
    {
        self.at += count;
    }
}

//! The initial state of the scrambler.
ghost use Rattle.std.specs.Prelude.{◌≡◌, ◌↔◌, ℕ, IsSome, IfSome};
ghost use Rattle.ht_scramble.specs.Sequence.{IsSeed};

use std::marker::Model;

/// An initial state of the scrambler, from 1 to 127 (IEEE Std 802.11-2012, clause 18.3.5.5).
/// Bit i, of value 2^i, is the bit of the sequence at -1 - i.
#[derive(Clone, Copy, PartialEq, Eq, Debug)]
pub struct Seed {
    value: u8,
}

impl Model for Seed {
    ghost use Rattle.std.specs.Prelude.{ℕ};
    ghost use Rattle.ht_scramble.specs.Sequence.{IsSeed};

    ghost Value = { ℕ };

    ghost view = { λ s. s.value };

    ghost invariant = { λ s. IsSeed s.value };

    ghost inverse = { λ n. record { value = n } };
}

impl Seed {
    /// The seed of this value. None exactly where it is 0 or above 127.
    #[must_use]
    pub fn new(value: u8) -> Option<Seed>
        ensures valid { IsSome result ↔ IsSeed value }
        ensures value { IfSome result (λ seed. seed ≡ value) }
    {
        if value == 0 || value > 127 {
            return None;
        }
        Some(Seed { value })
    }

    /// The number, from 1 to 127.
    pub fn value(&self) -> u8
        ensures value { result ≡ self.now }
        ensures range { IsSeed result }
    {
        self.value
    }
}

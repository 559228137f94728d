//! The encoder's register.
ghost use Rattle.std.specs.Prelude.{◌≡◌, ◌%◌, ◌<◌, ◌∷◌, ◌==◌, replicate, take, false, count_ones};
ghost use Rattle.ht_conv.specs.Code.{taps_a, taps_b};
ghost use Rattle.ht_conv.specs.Continued.{tapped};

use std::marker::Model;

// The generators of the code, 133 and 171 in octal: the highest of the seven bits taps the present input, the
// lowest the input six steps before.
const GENERATOR_A: u8 = 0o133;

const GENERATOR_B: u8 = 0o171;

/// The six input bits before the present one, the latest in the highest place.
#[derive(Drop)]
pub(crate) struct Register {
    bits: u8,
}

impl Model for Register {
    ghost use Rattle.std.specs.Prelude.{List, Bool, ◌<◌};
    ghost use Rattle.ht_conv.specs.Register.{history_of};

    ghost Value = { List Bool };

    ghost view = { λ r. history_of r.bits };

    ghost invariant = { λ r. r.bits < 64 };
}

impl Register {
    // The register before the first input: all zeros.
    pub(crate) fn new() -> Self
        ensures { result ≡ replicate 6 false }
    {
        Register { bits: 0 }
    }

    // Takes the next input bit in, and gives the two coded bits of its step.
    pub(crate) fn enter(&mut self, bit: bool) -> (bool, bool)
        ensures a { result.0 ≡ tapped taps_a (bit ∷ self.old) }
        ensures b { result.1 ≡ tapped taps_b (bit ∷ self.old) }
        ensures next { self.new ≡ bit ∷ take 5 self.old }
    {
        let window = self.bits | u8::from(bit) << 6;
        self.bits = window >> 1;
        (parity(window & GENERATOR_A), parity(window & GENERATOR_B))
    }
}

// The sum of a number's bits modulo 2.
fn parity(bits: u8) -> bool
    ensures { result ≡ (count_ones bits % 2 == 1) }
{
    bits.count_ones() % 2 == 1
}

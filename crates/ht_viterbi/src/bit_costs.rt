//! What a coded bit costs.
ghost use Rattle.std.specs.Prelude.{◌≡◌, ◌≤◌, ◌^◌, Bool};
ghost use Rattle.ht_viterbi.specs.Trellis.{bit_cost, costs_of, free_bit};

use crate::coded_place::CodedPlace;

/// What a coded bit costs if it is 0, and if it is 1.
#[derive(Clone, Copy)]
pub(crate) struct BitCosts {
    pub(crate) zero: u32,
    pub(crate) one: u32,
}

impl BitCosts {
    /// The costs of a bit that was punctured.
    pub(crate) fn free() -> BitCosts
        ensures { result ≡ free_bit }
    {
        BitCosts { zero: 0, one: 0 }
    }

    /// The costs of a bit at a place.
    pub(crate) fn at<P: CodedPlace>(place: P) -> BitCosts
        ensures value { result ≡ costs_of P.cost place }
        ensures bound { (bit : Bool) → bit_cost result bit ≤ 2 ^ 32 }
    {
        BitCosts {
            zero: place.cost(false),
            one: place.cost(true),
        }
    }

    /// What it costs if it is this bit.
    pub(crate) fn of(self, bit: bool) -> u32
        ensures { result ≡ bit_cost self bit }
    {
        if bit { self.one } else { self.zero }
    }
}

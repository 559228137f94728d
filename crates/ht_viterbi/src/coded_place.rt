//! What a decoder knows of a coded bit, and what the bit costs there.
ghost use Rattle.std.specs.Prelude.{◌≡◌, ℕ, Bool};
ghost use Rattle.ht_viterbi.specs.Inputs.{place_cost, weight_cost};
ghost use Rattle.ht_viterbi.specs.Received.{known_of};

use crate::received_bit::ReceivedBit;

/// What is known of a coded bit at the place where it was received.
pub trait CodedPlace: Copy {
    /// What a bit costs at this place.
    ghost cost: { Self → Bool → ℕ };

    /// What a bit costs at this place.
    fn cost(self, bit: bool) -> u32
        ensures { result ≡ cost self bit };
}

/// A hard decision: the other bit costs 1. At an erased place, None, both bits cost nothing.
impl CodedPlace for Option<bool> {
    ghost cost = { place_cost };

    fn cost(self, bit: bool) -> u32 {
        match self {
            None => 0,
            Some(received) => u32::from(received != bit),
        }
    }
}

/// The same in one octet.
impl CodedPlace for ReceivedBit {
    ghost cost = { λ place. place_cost (known_of place) };

    fn cost(self, bit: bool) -> u32 {
        match self {
            ReceivedBit::Erased => 0,
            ReceivedBit::Zero => u32::from(bit),
            ReceivedBit::One => u32::from(!bit),
        }
    }
}

/// A weight: positive where a 1 is likelier, negative where a 0 is. Its size is what the other bit costs, and at an erased
/// place, 0, both bits cost nothing.
impl CodedPlace for i32 {
    ghost cost = { weight_cost };

    fn cost(self, bit: bool) -> u32 {
        if bit {
            self.min(0).unsigned_abs()
        } else {
            self.max(0).unsigned_abs()
        }
    }
}

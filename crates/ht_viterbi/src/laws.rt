//! What follows from the definitions alone. None of these functions does anything: its contract is a law.
ghost use Rattle.std.specs.Prelude.{◌≡◌, ◌-◌, ◌≤◌, ℕ, List, Bool, false, Some, Option, length, drop, map, replicate, IsTrue};
ghost use Rattle.ht_rate.specs.declared.kinds.Pattern.{Pattern};
ghost use Rattle.ht_conv.specs.Code.{sent_bits};
ghost use Rattle.ht_nearest.specs.Nearest.{IsOrder, Enumerates};
ghost use Rattle.ht_viterbi.specs.Decoded.{cheapest, decoded, terminated_inputs};
ghost use Rattle.ht_viterbi.specs.Inputs.{tail, is_terminated, is_before, distance, IsCheapest, IsDecoded};

use crate::coded_place::CodedPlace;

/// Terminated inputs have as many bits as there are steps, and end with six zeros.
pub fn terminated()
    ensures { (steps : ℕ) (u : List Bool) → tail ≤ steps → IsTrue (is_terminated steps u)
        → (length u ≡ steps) × (drop (steps - tail) u ≡ replicate tail false) }
{}

/// The order of terminated inputs is total.
pub fn order()
    ensures { (steps : ℕ) → IsOrder (is_terminated steps) is_before }
{}

/// At most one input is the answer.
pub fn unique()
    ensures { (steps : ℕ) (p : Pattern) (received : List (Option Bool)) (u v : List Bool)
        → IsDecoded steps p received u → IsDecoded steps p received v → u ≡ v }
{}

/// What is received as it was sent is decoded to what was sent, at distance 0.
pub fn sent_is_decoded()
    ensures answer { (steps : ℕ) (p : Pattern) (u : List Bool) → IsTrue (is_terminated steps u) → IsDecoded steps p (map Some (sent_bits p u)) u }
    ensures distance { (p : Pattern) (u : List Bool) → distance p (map Some (sent_bits p u)) u ≡ 0 }
{}

/// The list of terminated inputs has them all, and nothing else.
pub fn enumerated()
    ensures { (steps : ℕ) → tail ≤ steps → Enumerates (is_terminated steps) (terminated_inputs steps) }
{}

/// What is decoded is a function of what is received.
pub fn decoded_is()
    ensures answer { (steps : ℕ) (p : Pattern) (received : List (Option Bool)) (u : List Bool)
        → tail ≤ steps → IsDecoded steps p received u → decoded steps p received ≡ u }
    ensures some { (steps : ℕ) (p : Pattern) (received : List (Option Bool))
        → tail ≤ steps → IsDecoded steps p received (decoded steps p received) }
{}

/// What is cheapest is a function of the places.
pub fn cheapest_is<P: CodedPlace>()
    ensures answer { (steps : ℕ) (p : Pattern) (received : List P) (u : List Bool)
        → tail ≤ steps → IsCheapest P.cost steps p received u → cheapest P.cost steps p received ≡ u }
    ensures some { (steps : ℕ) (p : Pattern) (received : List P)
        → tail ≤ steps → IsCheapest P.cost steps p received (cheapest P.cost steps p received) }
{}

//! What follows from the definitions alone. No function here does anything: its contract is a law.
ghost use Rattle.std.specs.Prelude.{◌≡◌, ◌≢◌, ◌<◌, ◌≤◌, ℕ, List, Bool, Some, Option, length, map, IsTrue};
ghost use Rattle.ht_rate.specs.declared.kinds.Pattern.{Pattern};
ghost use Rattle.ht_conv.specs.Puncturing.{sent_count};
ghost use Rattle.ht_viterbi.specs.Inputs.{IsFound, distance, is_terminated, place_cost, tail};
ghost use Rattle.ht_clean.specs.Sparse.{IsSparse, wrong_before};

/// Where the wrong places lie far enough apart, every other input is farther away.
pub fn others_are_farther()
    ensures { (steps : ℕ) (p : Pattern) (received : List Bool) (u v : List Bool) → tail ≤ steps
        → sent_count p steps ≤ length received → IsTrue (is_terminated steps u) → IsTrue (is_terminated steps v)
        → IsSparse p (map Some received) u steps → u ≢ v → distance p (map Some received) u < distance p (map Some received) v }
{}

/// So such an input is found: it is the first nearest one.
pub fn sparse_is_found()
    ensures { (steps : ℕ) (p : Pattern) (received u : List Bool) → tail ≤ steps → sent_count p steps ≤ length received
        → IsTrue (is_terminated steps u) → IsSparse p (map Some received) u steps
        → IsFound place_cost steps p (map Some received) u (wrong_before p (map Some received) u steps) }
{}

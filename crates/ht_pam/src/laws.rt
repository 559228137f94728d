//! What follows from the definitions, for every list of levels. None of these functions does anything.
ghost use Rattle.std.specs.Prelude.{◌≡◌, ℕ, ℤ, List};
ghost use Rattle.ht_pam.specs.Zigzags.{Ascending, nearest_first, occurrences};

/// Where levels are sorted nearest first, none is farther than a later one.
pub fn ascends()
    ensures { (cost : ℤ → ℕ) (xs : List ℤ) → Ascending cost (nearest_first cost xs) }
{}

/// Sorting the levels nearest first keeps each of them, as often as it was there.
pub fn keeps()
    ensures { (cost : ℤ → ℕ) (xs : List ℤ) (x : ℤ) → occurrences x (nearest_first cost xs) ≡ occurrences x xs }
{}

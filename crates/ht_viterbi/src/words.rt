//! 64 flags in one word.
ghost use Rattle.std.specs.Prelude.{◌≡◌, ◌<◌, ◌≢◌, ◌↔◌, ◌==◌, ℕ, true};
ghost use Rattle.std.specs.Int.{bit_at};

// Whether the flag of a place is 1.
pub(crate) fn is_set(word: u64, place: usize) -> bool
    requires { place < 64 }
    ensures { result ≡ (bit_at word place == 1) }
{
    (word >> place) & 1 == 1
}

// The word with the flag of a place, where it was 0.
pub(crate) fn with_flag(word: u64, place: usize, flag: bool) -> u64
    requires place { place < 64 }
    requires fresh { bit_at word place ≡ 0 }
    ensures here { (bit_at result place ≡ 1) ↔ (flag ≡ true) }
    ensures others { (k : ℕ) → k ≢ place → bit_at result k ≡ bit_at word k }
{
    if flag { word | (1 << place) } else { word }
}

//! What holds of the scrambling sequence. No function here does anything: its contract is a law.
ghost use Rattle.std.specs.Prelude.{◌≡◌, ◌≢◌, ℕ, ◌+◌, ◌-◌, ◌%◌, ◌<◌, List, Bool, false, length, replicate, slice_index_or};
ghost use Rattle.std.specs.Bool.{xor};
ghost use Rattle.ht_bits.specs.Bits.{bit};
ghost use Rattle.ht_scramble.specs.Sequence.{IsSeed, delayed, sequence, first_seven, seed_of, scrambled, polarity_at};

/// `s(t) = s(t - 7) xor s(t - 4)` from 0 on, where bit i of the seed is s(-1 - i).
pub fn recurrence()
    ensures start { (seed i : ℕ) → i < 7 → delayed seed (6 - i) ≡ bit seed i }
    ensures delay { (seed t : ℕ) → delayed seed (t + 7) ≡ sequence seed t }
    ensures next { (seed t : ℕ) → sequence seed t ≡ xor (delayed seed t) (delayed seed (t + 3)) }
    ensures later { (seed t : ℕ) → sequence seed (t + 7) ≡ xor (sequence seed t) (sequence seed (t + 3)) }
{}

/// The sequence of each seed repeats after 127 bits, and after no fewer.
pub fn period()
    ensures again { (seed t : ℕ) → sequence seed (t + 127) ≡ sequence seed t }
    ensures not_before { (seed d : ℕ) → IsSeed seed → 0 < d → d < 127 → ¬ ((t : ℕ) → sequence seed (t + d) ≡ sequence seed t) }
{}

/// A scrambled list has `u(t) xor s(t)` at t, and is as long as the list u.
pub fn scrambled_bit()
    ensures place { (seed : ℕ) (bits : List Bool) (t : ℕ) → t < length bits
        → slice_index_or (scrambled seed bits) t false ≡ xor (slice_index_or bits t false) (sequence seed t) }
    ensures length { (seed : ℕ) (bits : List Bool) → length (scrambled seed bits) ≡ length bits }
{}

/// Scrambling twice restores the bits.
pub fn scrambled_twice()
    ensures { (seed : ℕ) (bits : List Bool) → scrambled seed (scrambled seed bits) ≡ bits }
{}

/// The sequence of a seed begins with seven bits that give this seed, and seven bits that aren't all 0 give a seed whose
/// sequence begins with them.
pub fn seed_of_beginning()
    ensures seed { (seed : ℕ) → IsSeed seed → seed_of (first_seven seed) ≡ seed }
    ensures beginning { (first : List Bool) → length first ≡ 7 → first_seven (seed_of first) ≡ first }
    ensures range { (first : List Bool) → length first ≡ 7 → first ≢ replicate 7 false → IsSeed (seed_of first) }
{}

/// The polarity repeats after 127 symbols.
pub fn polarity_period()
    ensures { (n : ℕ) → polarity_at (n % 127) ≡ polarity_at n }
{}

//! The shift register of the scrambler, forwards and backwards.
ghost use Rattle.std.specs.Prelude.{◌≡◌, ◌+◌, ◌-◌, ◌<◌, ◌≤◌, ◌↔◌, ℕ, length, slice_index_or, replicate, false, IsNone, IfSome};
ghost use Rattle.std.specs.Bool.{xor};
ghost use Rattle.ht_scramble.specs.Sequence.{IsSeed, sequence, first_seven, seed_of, scrambled};
ghost use Rattle.ht_scramble.specs.Register.{register_at};

use crate::Seed;
use ht_bits::octet_of;

// After how many bits the sequence begins again.
const PERIOD: usize = 127;

// The next bit of the sequence: s(t) = s(t - 7) xor s(t - 4).
fn next_bit(register: u8) -> bool
    requires { register < 128 }
    ensures { (seed t : ℕ) → register ≡ register_at seed t → result ≡ sequence seed t }
{
    ((register >> 6) ^ (register >> 3)) & 1 == 1
}

// The register after this bit of the sequence.
fn shifted(register: u8, latest: bool) -> u8
    requires { register < 128 }
    ensures next { (seed t : ℕ) → register ≡ register_at seed t → latest ≡ sequence seed t → result ≡ register_at seed (t + 1) }
    ensures bound { result < 128 }
{
    ((register << 1) & 0x7f) | u8::from(latest)
}

// The sequence of a seed until it begins again.
fn sequence_of(seed: Seed) -> [bool; 127]
    ensures { (t : ℕ) → t < 127 → slice_index_or result t false ≡ sequence seed t }
{
    let mut sequence = [false; 127];
    let mut register = seed.value();
    for bit in sequence.iter_mut() {
        let latest = next_bit(register);
        *bit = latest;
        register = shifted(register, latest);
    }
    sequence
}

// Adds the sequence to the bits from a place on to another, modulo 2.
#[inline(always)]
fn add(bits: &mut [bool], start: usize, end: usize, sequence: &[bool; 127])
    requires order { start ≤ end }
    requires within { end ≤ length bits.old }
    requires few { end ≤ start + 127 }
    ensures length { length bits.new ≡ length bits.old }
    ensures here { (k : ℕ) → start ≤ k → k < end
        → slice_index_or bits.new k false ≡ xor (slice_index_or bits.old k false) (slice_index_or sequence.now (k - start) false) }
    ensures before { (k : ℕ) → k < start → slice_index_or bits.new k false ≡ slice_index_or bits.old k false }
    ensures behind { (k : ℕ) → end ≤ k → slice_index_or bits.new k false ≡ slice_index_or bits.old k false }
{
    for place in start..end {
        bits[place] ^= sequence[place - start];
    }
}

/// Adds the sequence of this seed to the bits, modulo 2, from its start. Scrambling twice restores the bits (IEEE Std
/// 802.11-2012, clause 18.3.5.5).
pub fn scramble(bits: &mut [bool], seed: Seed)
    ensures { bits.new ≡ scrambled seed bits.old }
{
    let sequence = sequence_of(seed);
    for turn in 0..bits.len().div_ceil(PERIOD) {
        let start = PERIOD * turn;
        let end = bits.len().min(start + PERIOD);
        add(bits, start, end, &sequence);
    }
}

/// The seed whose sequence begins with these seven bits. None exactly where all are 0, which is
/// the beginning of no sequence; any other seven bits begin that of exactly one seed.
#[must_use]
pub fn recover(first: &[bool; 7]) -> Option<Seed>
    ensures none { IsNone result ↔ (first.now ≡ replicate 7 false) }
    ensures value { IfSome result (λ seed. seed ≡ seed_of first.now) }
    ensures begins { IfSome result (λ seed. first_seven seed ≡ first.now) }
    ensures range { IfSome result (λ seed. IsSeed seed) }
    ensures only { (other : ℕ) → IsSeed other → first_seven other ≡ first.now → result ≡ Some other }
{
    let [s0, s1, s2, s3, s4, s5, s6] = *first;

    // The recurrence backwards: s(t - 7) = s(t) xor s(t - 4), for t from 6 down to 0.
    let bit0 = s6 ^ s2;
    let bit1 = s5 ^ s1;
    let bit2 = s4 ^ s0;
    let bit3 = s3 ^ bit0;
    let bit4 = s2 ^ bit1;
    let bit5 = s1 ^ bit2;
    let bit6 = s0 ^ bit3;
    Seed::new(octet_of(&[bit0, bit1, bit2, bit3, bit4, bit5, bit6]))
}

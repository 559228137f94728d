//! The polarity of the pilots.
ghost use Rattle.std.specs.Prelude.{◌≡◌, ◌%◌, unsigned_abs};
ghost use Rattle.ht_scramble.specs.Sequence.{polarity_at};

/// The number of bits after which the scrambling sequence begins again.
const PERIOD: u32 = 127;

/// 1 where the sequence of seed 127 has a 0, and -1 where it has a 1.
static SIGNS: [i8; 127] = [
    1, 1, 1, 1, -1, -1, -1, 1, -1, -1, -1, -1, 1, 1, -1, 1, -1, -1, 1, 1, -1, 1, 1, -1, 1, 1, 1, 1,
    1, 1, -1, 1, 1, 1, -1, 1, 1, -1, -1, 1, 1, 1, -1, 1, -1, -1, -1, 1, -1, 1, -1, -1, 1, -1, -1,
    1, 1, 1, 1, 1, -1, -1, 1, 1, -1, -1, 1, -1, 1, -1, 1, 1, -1, -1, -1, 1, 1, -1, -1, -1, -1, 1,
    -1, -1, 1, -1, 1, 1, 1, 1, -1, 1, -1, 1, -1, 1, -1, -1, -1, -1, -1, 1, -1, 1, 1, -1, 1, -1, 1,
    1, 1, -1, -1, 1, -1, -1, -1, 1, 1, 1, -1, -1, -1, -1, -1, -1, -1,
];

/// The polarity p[n mod 127] of the pilots of a symbol: 1 where the scrambling sequence of seed
/// 127 has a 0 there, and -1 where it has a 1 (IEEE Std 802.11-2012, clause 18.3.5.10).
pub fn polarity(n: u32) -> i8
    ensures value { result ≡ polarity_at (n % 127) }
    ensures unit { unsigned_abs result ≡ 1 }
{
    SIGNS[(n % PERIOD) as usize]
}

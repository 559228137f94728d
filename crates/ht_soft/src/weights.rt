//! What a label bit weighs.
ghost use Rattle.std.specs.Prelude.{◌≡◌, ◌≤◌, min, pos, unsigned_abs};
ghost use Rattle.ht_soft.specs.Weights.{heaviest, weight_of};

// The size of the heaviest weight.
const HEAVIEST: u128 = 65535;

/// The weight of a label bit: the least distance among the vectors where it is 0, less the least one among those where it
/// is 1, cut to the range from -65535 to 65535.
///
/// It is positive where the nearest vector with 1 is nearer, negative where the one with 0 is, and 0 where both are as
/// near. The distances are those of the hits of the two halves of a job that [`half`](crate::half) makes.
#[tactic(auto, using(crate::proofs::Signs::signs))]
pub fn weight(zero: u128, one: u128) -> i32
    ensures value { result ≡ weight_of zero one }
    ensures bound { unsigned_abs result ≤ heaviest }
{
    if zero < one {
        -cut(one - zero)
    } else {
        cut(zero - one)
    }
}

// A size cut to that of the heaviest weight.
fn cut(size: u128) -> i32
    ensures { result ≡ pos (min size heaviest) }
{
    size.min(HEAVIEST) as i32
}

//! The two coded bits of one step of the trellis, and what they cost.
ghost use Rattle.std.specs.Prelude.{◌≡◌, ◌+◌, ◌<◌, ◌≤◌, ◌^◌, ℕ, Bool, length, map};
ghost use Rattle.ht_conv.specs.Puncturing.{kept_count, sent_count};
ghost use Rattle.ht_viterbi.specs.Trellis.{pair_at, pair_of, output_a, output_b, branch_cost, costs_of, free_bit, moved};

use crate::bit_costs::BitCosts;
use crate::coded_place::CodedPlace;
use crate::words::is_set;
use ht_conv::{Kept, kept_at};
use ht_rate::Pattern;

/// What the two coded bits of a step, A and B, cost as a 0 and as a 1. One that was punctured costs nothing.
pub(crate) type StepCosts = (BitCosts, BitCosts);

// The coded bits A and B that each state gives at an input bit of 0: bit n of the word is that of state n.
const A_OF_ZERO: u64 = 0x6699_9966_6699_9966;

const B_OF_ZERO: u64 = 0x55aa_aa55_aa55_55aa;

// How many places of the received codeword a step has: one for each coded bit that was kept of it.
pub(crate) fn places_of(kept: Kept) -> usize
    ensures { result ≡ kept_count kept }
{
    match kept {
        Kept::Both => 2,
        Kept::A | Kept::B => 1,
    }
}

// What the two coded bits of a step cost, whose places begin at `start`.
fn costs_from<P: CodedPlace>(received: &[P], start: usize, kept: Kept) -> StepCosts
    requires { start + kept_count kept ≤ length received.now }
    ensures value { result ≡ pair_of free_bit kept (map (costs_of P.cost) received.now) start }
    ensures bound { (state : ℕ) (bit : Bool) → branch_cost result state bit ≤ 2 ^ 33 }
{
    match kept {
        Kept::Both => (
            BitCosts::at(received[start]),
            BitCosts::at(received[start + 1]),
        ),
        Kept::A => (BitCosts::at(received[start]), BitCosts::free()),
        Kept::B => (BitCosts::free(), BitCosts::at(received[start])),
    }
}

// What the two coded bits of step `at` cost. `start` is where the places of the step behind it begin, and goes back to where
// its own do.
#[inline(always)]
pub(crate) fn step_at<P: CodedPlace>(
    pattern: Pattern,
    received: &[P],
    at: usize,
    start: &mut usize,
) -> StepCosts
    requires few { at < 2 ^ 20 }
    requires start { start.old ≡ sent_count pattern (at + 1) }
    requires within { start.old ≤ length received.now }
    ensures value { result ≡ pair_at free_bit pattern (map (costs_of P.cost) received.now) at }
    ensures bound { (state : ℕ) (bit : Bool) → branch_cost result state bit ≤ 2 ^ 33 }
    ensures start { start.new ≡ sent_count pattern at }
{
    let kept = kept_at(pattern, at as u32);
    *start -= places_of(kept);
    costs_from(received, *start, kept)
}

// The coded bit A of a step: its generator taps the input, so a 1 flips what a 0 gives.
pub(crate) fn coded_a(state: usize, bit: bool) -> bool
    requires { state < 64 }
    ensures { result ≡ output_a state bit }
{
    is_set(A_OF_ZERO, state) != bit
}

// The coded bit B of a step: its generator taps the input, so a 1 flips what a 0 gives.
pub(crate) fn coded_b(state: usize, bit: bool) -> bool
    requires { state < 64 }
    ensures { result ≡ output_b state bit }
{
    is_set(B_OF_ZERO, state) != bit
}

// What a step adds to the cost, from a state and with an input bit.
#[tactic(auto, unfolding(crate::specs::Trellis::branch_cost))]
pub(crate) fn cost_of_branch(step: StepCosts, state: usize, bit: bool) -> u64
    requires { state < 64 }
    ensures value { result ≡ branch_cost step state bit }
    ensures bound { result ≤ 2 ^ 33 }
{
    let a = step.0.of(coded_a(state, bit));
    let b = step.1.of(coded_b(state, bit));
    u64::from(a) + u64::from(b)
}

// The state after an input bit. A state is the last six input bits, the latest in the highest place.
pub(crate) fn state_after(state: usize, bit: bool) -> usize
    requires { state < 64 }
    ensures value { result ≡ moved state bit }
    ensures bound { result < 64 }
{
    if bit { state / 2 + 32 } else { state / 2 }
}

//! The plain decoder: 64 costs a step, for hard decisions and for weights alike.
ghost use Rattle.std.specs.Prelude.{◌≡◌, ◌+◌, ◌^◌, ◌<◌, ◌≤◌, ◌↔◌, ℕ, true, false, IfOk};
ghost use Rattle.std.specs.Prelude.{length, replicate, slice_index};
ghost use Rattle.std.specs.Int.{bit_at};
ghost use Rattle.ht_conv.specs.Puncturing.{sent_count};
ghost use Rattle.ht_viterbi.specs.Inputs.{IsFound, place_cost, tail};
ghost use Rattle.ht_viterbi.specs.Trellis.{way, chosen, lesser, StepCosts};

use crate::backwards::{Backwards, Word};
use crate::coded_place::CodedPlace;
use crate::codeword::{Cheapest, Codeword};
use crate::pairs::{StepCosts, cost_of_branch, state_after, step_at};
use crate::words::with_flag;
use ht_rate::Pattern;
use std::alloc::{AllocError, Global};

// The least cost of an input from this state on whose first bit is this one: that of the branch, and that of the state it leads to.
fn way_of(costs: &[u64; 64], branches: StepCosts, state: usize, bit: bool) -> u64
    requires state { state < 64 }
    requires bound { (k : ℕ) → slice_index costs.now k ≤ 2 ^ 60 }
    ensures { result ≡ way (slice_index costs.now) branches state bit }
{
    cost_of_branch(branches, state, bit) + costs[state_after(state, bit)]
}

// The bit that is taken of the two, and its cost. A 1 is taken where it is free to be chosen and costs less; at a tie 0 is.
fn pick(free: bool, zero: u64, one: u64) -> (bool, u64)
    ensures taken { result.0 ≡ chosen free zero one }
    ensures least { result.1 ≡ lesser free zero one }
{
    let taken = free && one < zero;
    (taken, if taken { one } else { zero })
}

// The bit that is taken in a state, and its cost, where the costs from the next step on and those of this step are these.
fn picked(costs: &[u64; 64], branches: StepCosts, free: bool, state: usize) -> (bool, u64)
    requires state { state < 64 }
    requires bound { (k : ℕ) → slice_index costs.now k ≤ 2 ^ 60 }
    ensures taken { result.0 ≡ chosen free (way (slice_index costs.now) branches state false) (way (slice_index costs.now) branches state true) }
    ensures least { result.1 ≡ lesser free (way (slice_index costs.now) branches state false) (way (slice_index costs.now) branches state true) }
{
    let zero = way_of(costs, branches, state, false);
    let one = way_of(costs, branches, state, true);
    pick(free, zero, one)
}

// One step of the trellis, from the costs behind it to those before it, `into`. Bit n of the answer is set where a 1 is taken
// in state n. In the tail no bit is free: it is 0.
fn step(costs: &[u64; 64], branches: StepCosts, free: bool, into: &mut [u64; 64]) -> u64
    requires { (k : ℕ) → slice_index costs.now k ≤ 2 ^ 60 }
    ensures costs { (k : ℕ) → k < 64
        → slice_index into.new k ≡ lesser free (way (slice_index costs.now) branches k false) (way (slice_index costs.now) branches k true) }
    ensures choices { (k : ℕ) → k < 64 → (bit_at result k ≡ 1)
        ↔ (chosen free (way (slice_index costs.now) branches k false) (way (slice_index costs.now) branches k true) ≡ true) }
{
    let mut choices = 0u64;
    for state in 0..64usize {
        let (taken, least) = picked(costs, branches, free, state);
        choices = with_flag(choices, state, taken);
        into[state] = least;
    }
    choices
}

// No state costs anything at the end.
fn no_costs() -> [u64; 64]
    ensures { result ≡ replicate 64 0 }
{
    [0; 64]
}

/// The plain way back through the trellis: one state after the other, with costs of 64 bits.
pub(crate) struct Plain;

impl<P: CodedPlace> Backwards<P> for Plain {
    fn backwards(pattern: Pattern, received: &[P], choices: &mut [u64]) -> u64 {
        let steps = choices.len();
        let mut costs = no_costs();
        let mut at = steps;
        let mut start = received.len();
        while at > 0 {
            at -= 1;
            let branches = step_at(pattern, received, at, &mut start);
            let mut into = no_costs();
            choices[at] = step(&costs, branches, steps - at > 6, &mut into);
            costs = into;
        }
        costs[0]
    }
}

/// Decodes a punctured codeword from any places: the first terminated input whose coded bits cost least at `received`.
///
/// `steps` is the length of the input with its tail of six zeros, from 6 to 524302, and `received` has the places of the
/// coded bits that `pattern` keeps of these steps, A before B: hard decisions or weights. It has 64 costs and 64
/// comparisons a step. The memory for all steps is taken first, eight octets a step and one for each bit of the answer. The
/// only refusal is lack of it.
///
/// IEEE Std 802.11-2012, clauses 18.3.5.6 and 20.3.11.6.
pub fn decode_places<P: CodedPlace>(
    alloc: Global,
    steps: u32,
    pattern: Pattern,
    received: &[P],
) -> Result<Cheapest, AllocError>
    requires least { tail ≤ steps }
    requires most { steps ≤ 524302 }
    requires received { length received.now ≡ sent_count pattern steps }
    ensures { IfOk result (λ c. IsFound P.cost steps pattern received.now c.input c.cost) }
{
    let word = Word {
        steps,
        pattern,
        received,
    };
    word.decode::<Plain>(alloc)
}

/// Decodes a punctured codeword of hard decisions as [`decode`](crate::decode) does, in the plain form of [`decode_places`]:
/// 64 costs and 64 comparisons a step. A place without a bit, `None`, costs nothing. The only refusal is lack of memory.
///
/// IEEE Std 802.11-2012, clauses 18.3.5.6 and 20.3.11.6.
pub fn plain_decode(
    alloc: Global,
    steps: u32,
    pattern: Pattern,
    received: &[Option<bool>],
) -> Result<Codeword, AllocError>
    requires least { tail ≤ steps }
    requires most { steps ≤ 524302 }
    requires received { length received.now ≡ sent_count pattern steps }
    ensures { IfOk result (λ c. IsFound place_cost steps pattern received.now c.input c.distance) }
{
    let nearest = decode_places(alloc, steps, pattern, received)?;
    Ok(Codeword {
        input: nearest.input,
        distance: nearest.cost as u32,
    })
}

//! Clean codewords: those that were received as an encoder sends them, with no place wrong or erased.
//!
//! Each step has at least one place, and its generator taps the present input bit. So where the earlier input is known,
//! the first place of a step tells its input bit, and a second place only confirms it. The input that explains all
//! places is the only one at distance 0.
ghost use Rattle.std.specs.Prelude.{◌≡◌, ◌+◌, ◌%◌, ◌<◌, ◌≤◌, ◌^◌, [], true, Some, IfSome, length, map, vec_capacity};
ghost use Rattle.std.specs.Prelude.{IsTrue};
ghost use Rattle.ht_conv.specs.Code.{sent_bits};
ghost use Rattle.ht_conv.specs.Puncturing.{kept_count, period_of, sent_count};
ghost use Rattle.ht_viterbi.specs.Explained.{Explains, IsExplained};
ghost use Rattle.ht_viterbi.specs.Inputs.{is_terminated};
ghost use Rattle.ht_viterbi.specs.Received.{known_of};

use crate::pairs::{coded_a, coded_b, places_of, state_after};
use crate::received_bit::ReceivedBit;
use ht_conv::{Kept, period};
use ht_rate::Pattern;

// The input bit that explains the places of a step from a state, if one does. A generator gives the input bit for its
// coded bit as it gives the coded bit for the input bit.
#[inline(always)]
fn explaining_bit(received: &[ReceivedBit], start: usize, kept: Kept, state: usize) -> Option<bool>
    requires within { start + kept_count kept ≤ length received.now }
    requires state { state < 64 }
    ensures { IfSome result (λ bit. Explains kept (map known_of received.now) start state bit) }
{
    let first = received[start];
    let bit = match kept {
        Kept::Both | Kept::A => coded_a(state, first.is(true)),
        Kept::B => coded_b(state, first.is(true)),
    };
    let explained = match kept {
        Kept::Both => {
            first.is(coded_a(state, bit)) & received[start + 1].is(coded_b(state, bit))
        }
        Kept::A => first.is(coded_a(state, bit)),
        Kept::B => first.is(coded_b(state, bit)),
    };
    if explained { Some(bit) } else { None }
}

// How far a word is explained: the place where the next step begins, and the encoder's state before it.
#[derive(Clone, Copy)]
struct Reached {
    place: usize,
    state: usize,
}

// Appends the input of some steps, which begin a period and go on for one period at most, if it explains all places.
#[inline(always)]
fn explain_turn(
    pattern: Pattern,
    received: &[ReceivedBit],
    input: &mut Vec<bool>,
    first: usize,
    count: usize,
    before: Reached,
) -> Option<Reached>
    requires turn { first % length (period_of pattern) ≡ 0 }
    requires count { count ≤ length (period_of pattern) }
    requires places { sent_count pattern (first + count) ≤ length received.now }
    requires few { length received.now ≤ 2 ^ 22 }
    requires room { first + count ≤ vec_capacity input.old }
    requires so_far { IsExplained pattern (map known_of received.now) input.old.items first before.place before.state }
    ensures explained { IfSome result (λ r. IsExplained pattern (map known_of received.now) input.new.items (first + count) r.place r.state) }
    ensures capacity { vec_capacity input.new ≡ vec_capacity input.old }
{
    let period = period(pattern);
    let Reached {
        mut place,
        mut state,
    } = before;
    for phase in 0..count {
        let kept = period[phase];
        match explaining_bit(received, place, kept, state) {
            Some(bit) => {
                input.push_reserved(bit);
                place += places_of(kept);
                state = state_after(state, bit);
            }
            None => return None,
        }
    }
    Some(Reached { place, state })
}

// Appends the input of all steps, period by period, if it explains all places and leaves the encoder in state 0.
#[inline(always)]
fn explain_all(
    pattern: Pattern,
    steps: usize,
    received: &[ReceivedBit],
    input: &mut Vec<bool>,
) -> bool
    requires few { steps ≤ 2 ^ 20 }
    requires received { length received.now ≡ sent_count pattern steps }
    requires room { steps ≤ vec_capacity input.old }
    requires fresh { input.old.items ≡ [] }
    ensures explained { result ≡ true → map Some (sent_bits pattern input.new.items) ≡ map known_of received.now }
    ensures terminated { result ≡ true → 6 ≤ steps → IsTrue (is_terminated steps input.new.items) }
    ensures capacity { vec_capacity input.new ≡ vec_capacity input.old }
{
    let len = period(pattern).len();
    let mut reached = Reached { place: 0, state: 0 };
    for turn in 0..steps / len {
        match explain_turn(pattern, received, input, turn * len, len, reached) {
            Some(next) => reached = next,
            None => return false,
        }
    }
    match explain_turn(
        pattern,
        received,
        input,
        steps - steps % len,
        steps % len,
        reached,
    ) {
        Some(end) => end.state == 0,
        None => false,
    }
}

/// Appends the input of a clean codeword: the terminated input that sends what was received. Of any other codeword it
/// appends some bits, and answers false.
///
/// Each pattern has its own loop, in which what is kept of a step is known.
pub(crate) fn explain(
    pattern: Pattern,
    steps: usize,
    received: &[ReceivedBit],
    input: &mut Vec<bool>,
) -> bool
    requires few { steps ≤ 2 ^ 20 }
    requires received { length received.now ≡ sent_count pattern steps }
    requires room { steps ≤ vec_capacity input.old }
    requires fresh { input.old.items ≡ [] }
    ensures explained { result ≡ true → map Some (sent_bits pattern input.new.items) ≡ map known_of received.now }
    ensures terminated { result ≡ true → 6 ≤ steps → IsTrue (is_terminated steps input.new.items) }
    ensures capacity { vec_capacity input.new ≡ vec_capacity input.old }
{
    match pattern {
        Pattern::Half => explain_all(Pattern::Half, steps, received, input),
        Pattern::TwoThirds => explain_all(Pattern::TwoThirds, steps, received, input),
        Pattern::ThreeQuarters => explain_all(Pattern::ThreeQuarters, steps, received, input),
        Pattern::FiveSixths => explain_all(Pattern::FiveSixths, steps, received, input),
    }
}

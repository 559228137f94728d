//! Turns: some steps of a pattern, whole periods, whose input is looked up at once.
//!
//! The code is linear, so that what the places of a turn give from a state is the sum of two rows of tables: one of the
//! state, one of the places. Its lowest bits are the input bits that the first places of the steps tell, and those above
//! are 0 where the second places of steps agree.
ghost use Rattle.std.specs.Prelude.{◌≡◌, ◌+◌, ◌*◌, ◌<◌, ◌≤◌, ◌^◌, ℕ, IfSome, length};
ghost use Rattle.ht_viterbi.specs.Packed.{TurnExplains, code_sums, state_sums, turn_of, turn_places, word_steps, word_turns};

use ht_rate::Pattern;

static STATES_HALF: [u8; 64] = [
    0, 21, 63, 42, 54, 35, 9, 28, 49, 36, 14, 27, 7, 18, 56, 45, 55, 34, 8, 29, 1, 20, 62, 43, 6,
    19, 57, 44, 48, 37, 15, 26, 46, 59, 17, 4, 24, 13, 39, 50, 31, 10, 32, 53, 41, 60, 22, 3, 25,
    12, 38, 51, 47, 58, 16, 5, 40, 61, 23, 2, 30, 11, 33, 52,
];

static STATES_TWO_THIRDS: [u8; 64] = [
    0, 13, 55, 58, 46, 35, 25, 20, 33, 44, 22, 27, 15, 2, 56, 53, 47, 34, 24, 21, 1, 12, 54, 59,
    14, 3, 57, 52, 32, 45, 23, 26, 62, 51, 9, 4, 16, 29, 39, 42, 31, 18, 40, 37, 49, 60, 6, 11, 17,
    28, 38, 43, 63, 50, 8, 5, 48, 61, 7, 10, 30, 19, 41, 36,
];

static STATES_THREE_QUARTERS: [u8; 64] = [
    0, 5, 11, 14, 2, 7, 9, 12, 5, 0, 14, 11, 7, 2, 12, 9, 3, 6, 8, 13, 1, 4, 10, 15, 6, 3, 13, 8,
    4, 1, 15, 10, 10, 15, 1, 4, 8, 13, 3, 6, 15, 10, 4, 1, 13, 8, 6, 3, 9, 12, 2, 7, 11, 14, 0, 5,
    12, 9, 7, 2, 14, 11, 5, 0,
];

static STATES_FIVE_SIXTHS: [u8; 64] = [
    0, 13, 51, 62, 10, 7, 57, 52, 21, 24, 38, 43, 31, 18, 44, 33, 27, 22, 40, 37, 17, 28, 34, 47,
    14, 3, 61, 48, 4, 9, 55, 58, 42, 39, 25, 20, 32, 45, 19, 30, 63, 50, 12, 1, 53, 56, 6, 11, 49,
    60, 2, 15, 59, 54, 8, 5, 36, 41, 23, 26, 46, 35, 29, 16,
];

static CODES_HALF: [u8; 64] = [
    0, 29, 8, 21, 50, 47, 58, 39, 16, 13, 24, 5, 34, 63, 42, 55, 36, 57, 44, 49, 22, 11, 30, 3, 52,
    41, 60, 33, 6, 27, 14, 19, 32, 61, 40, 53, 18, 15, 26, 7, 48, 45, 56, 37, 2, 31, 10, 23, 4, 25,
    12, 17, 54, 43, 62, 35, 20, 9, 28, 1, 38, 59, 46, 51,
];

static CODES_TWO_THIRDS: [u8; 64] = [
    0, 29, 16, 13, 42, 55, 58, 39, 36, 57, 52, 41, 14, 19, 30, 3, 32, 61, 48, 45, 10, 23, 26, 7, 4,
    25, 20, 9, 46, 51, 62, 35, 8, 21, 24, 5, 34, 63, 50, 47, 44, 49, 60, 33, 6, 27, 22, 11, 40, 53,
    56, 37, 2, 31, 18, 15, 12, 17, 28, 1, 38, 59, 54, 43,
];

static CODES_THREE_QUARTERS: [u8; 64] = [
    0, 13, 8, 5, 6, 11, 14, 3, 4, 9, 12, 1, 2, 15, 10, 7, 128, 128, 128, 128, 128, 128, 128, 128,
    128, 128, 128, 128, 128, 128, 128, 128, 128, 128, 128, 128, 128, 128, 128, 128, 128, 128, 128,
    128, 128, 128, 128, 128, 128, 128, 128, 128, 128, 128, 128, 128, 128, 128, 128, 128, 128, 128,
    128, 128,
];

static CODES_FIVE_SIXTHS: [u8; 64] = [
    0, 45, 32, 13, 30, 51, 62, 19, 20, 57, 52, 25, 10, 39, 42, 7, 24, 53, 56, 21, 6, 43, 38, 11,
    12, 33, 44, 1, 18, 63, 50, 31, 16, 61, 48, 29, 14, 35, 46, 3, 4, 41, 36, 9, 26, 55, 58, 23, 8,
    37, 40, 5, 22, 59, 54, 27, 28, 49, 60, 17, 2, 47, 34, 15,
];

// The table of a pattern's states.
#[inline(always)]
#[tactic(auto, unfolding(crate::specs::Packed::state_sums))]
fn states(pattern: Pattern) -> &'static [u8; 64]
    ensures { result.now ≡ state_sums pattern }
{
    match pattern {
        Pattern::Half => &STATES_HALF,
        Pattern::TwoThirds => &STATES_TWO_THIRDS,
        Pattern::ThreeQuarters => &STATES_THREE_QUARTERS,
        Pattern::FiveSixths => &STATES_FIVE_SIXTHS,
    }
}

// The table of the places of its turns.
#[inline(always)]
#[tactic(auto, unfolding(crate::specs::Packed::code_sums))]
fn codes(pattern: Pattern) -> &'static [u8; 64]
    ensures { result.now ≡ code_sums pattern }
{
    match pattern {
        Pattern::Half => &CODES_HALF,
        Pattern::TwoThirds => &CODES_TWO_THIRDS,
        Pattern::ThreeQuarters => &CODES_THREE_QUARTERS,
        Pattern::FiveSixths => &CODES_FIVE_SIXTHS,
    }
}

/// The number of steps of a turn.
#[inline(always)]
pub(crate) fn steps_of_turn(pattern: Pattern) -> usize
    ensures { result ≡ length (turn_of pattern) }
{
    match pattern {
        Pattern::Half | Pattern::ThreeQuarters => 3,
        Pattern::TwoThirds => 4,
        Pattern::FiveSixths => 5,
    }
}

/// The number of places of a turn.
#[inline(always)]
pub(crate) fn places_of_turn(pattern: Pattern) -> usize
    ensures { result ≡ turn_places pattern }
{
    match pattern {
        Pattern::ThreeQuarters => 4,
        _ => 6,
    }
}

/// The number of turns that a word holds.
#[inline(always)]
pub(crate) fn turns_of_word(pattern: Pattern) -> usize
    ensures { result ≡ word_turns pattern }
{
    match pattern {
        Pattern::ThreeQuarters => 15,
        _ => 10,
    }
}

/// The number of steps that a word holds.
#[inline(always)]
pub(crate) fn steps_of_word(pattern: Pattern) -> usize
    ensures { result ≡ word_steps pattern }
{
    match pattern {
        Pattern::Half => 30,
        Pattern::TwoThirds => 40,
        Pattern::ThreeQuarters => 45,
        Pattern::FiveSixths => 50,
    }
}

/// The input of a turn, the bit of its first step lowest, and the state behind it.
#[derive(Clone, Copy)]
pub(crate) struct Turned {
    pub(crate) input: u8,
    pub(crate) state: u8,
}

/// The input of a turn from a state that explains all its places, the first one lowest, if one does.
#[inline(always)]
pub(crate) fn looked_up(pattern: Pattern, code: usize, state: u8) -> Option<Turned>
    requires code { code < 2 ^ turn_places pattern }
    requires state { state < 64 }
    ensures explained { IfSome result (λ t. TurnExplains (turn_of pattern) code 0 state t.input 0 t.state) }
    ensures low { IfSome result (λ t. t.state < 64) }
{
    let sum = states(pattern)[usize::from(state)] ^ codes(pattern)[code];
    let steps = steps_of_turn(pattern);
    if sum >> steps == 0 {
        let all = usize::from(state) + 64 * usize::from(sum);
        Some(Turned {
            input: sum,
            state: (all >> steps) as u8,
        })
    } else {
        None
    }
}

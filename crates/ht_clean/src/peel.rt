//! Single wrong places, taken out of a guess one by one. Nothing is proved of it: the check judges what it leaves.
ghost use Rattle.std.specs.Prelude.{◌≡◌, ◌+◌, ◌<◌, ◌≤◌, length};

use crate::layout::steps_of_word;
use crate::planes::Planes;
use ht_conv::period;
use ht_rate::Pattern;

/// What one wrong place does to a guess: which input bits it flips, and at which coded bits the guess then differs from what
/// was received, both from the place's step on.
#[derive(Clone, Copy)]
struct SingleError {
    // The step in its period.
    phase: u32,
    // How many steps behind it the first coded bit differs.
    first: u32,
    input: u64,
    wrong: Planes,
}

static HALF: [SingleError; 2] = [
    SingleError {
        phase: 0,
        first: 0,
        input: 0x14,
        wrong: Planes { a: 0x765, b: 0x5cc },
    },
    SingleError {
        phase: 0,
        first: 0,
        input: 0x1f,
        wrong: Planes { a: 0x4bb, b: 0x764 },
    },
];

static TWO_THIRDS: [SingleError; 3] = [
    SingleError {
        phase: 0,
        first: 0,
        input: 0x4c5,
        wrong: Planes {
            a: 0x1_9818,
            b: 0x1_0111,
        },
    },
    SingleError {
        phase: 0,
        first: 0,
        input: 0x5b8,
        wrong: Planes {
            a: 0x1_e798,
            b: 0x1_5141,
        },
    },
    SingleError {
        phase: 1,
        first: 1,
        input: 0x24d,
        wrong: Planes {
            a: 0xc3f0,
            b: 0x8a8a,
        },
    },
];

static THREE_QUARTERS: [SingleError; 4] = [
    SingleError {
        phase: 0,
        first: 0,
        input: 0xae3e,
        wrong: Planes {
            a: 0x29_2653,
            b: 0x24_9048,
        },
    },
    SingleError {
        phase: 0,
        first: 0,
        input: 0xacdb,
        wrong: Planes {
            a: 0x29_94cb,
            b: 0x24_1208,
        },
    },
    SingleError {
        phase: 1,
        first: 2,
        input: 0x5c8b,
        wrong: Planes {
            a: 0x16_594c,
            b: 0x10_4120,
        },
    },
    SingleError {
        phase: 2,
        first: 1,
        input: 0x2b23,
        wrong: Planes {
            a: 0xa_6016,
            b: 0x9_0010,
        },
    },
];

static FIVE_SIXTHS: [SingleError; 6] = [
    SingleError {
        phase: 0,
        first: 0,
        input: 0x6fc_c8d4,
        wrong: Planes {
            a: 0x4200_8021,
            b: 0x1_0802_0084,
        },
    },
    SingleError {
        phase: 0,
        first: 0,
        input: 0x6ca_9c59,
        wrong: Planes {
            a: 0x4000_8001,
            b: 0x1_0002_0004,
        },
    },
    SingleError {
        phase: 1,
        first: 4,
        input: 0x365_977f,
        wrong: Planes {
            a: 0x2008_4010,
            b: 0x8021_0040,
        },
    },
    SingleError {
        phase: 2,
        first: 3,
        input: 0x1bf_3235,
        wrong: Planes {
            a: 0x1080_2008,
            b: 0x4200_8020,
        },
    },
    SingleError {
        phase: 3,
        first: 2,
        input: 0x6_cb23,
        wrong: Planes {
            a: 0x40_1004,
            b: 0x100_4010,
        },
    },
    SingleError {
        phase: 4,
        first: 1,
        input: 0x6f_d7a7,
        wrong: Planes {
            a: 0x421_0802,
            b: 0x1084_2008,
        },
    },
];

// Those of a pattern, one for each place of a period.
#[inline(always)]
fn single_errors(pattern: Pattern) -> &'static [SingleError] {
    match pattern {
        Pattern::Half => &HALF,
        Pattern::TwoThirds => &TWO_THIRDS,
        Pattern::ThreeQuarters => &THREE_QUARTERS,
        Pattern::FiveSixths => &FIVE_SIXTHS,
    }
}

// A word of a list, and none behind the last.
#[inline(always)]
fn word_at(wrong: &[Planes], at: usize) -> Planes {
    if at < wrong.len() {
        wrong[at]
    } else {
        Planes { a: 0, b: 0 }
    }
}

// The bits of a word from a step on, and as many of the next one as there is room for.
#[inline(always)]
fn from_step(word: u64, next: u64, step: u32, width: u32) -> u64
    requires width { width < 64 }
    requires step { step ≤ width }
{
    word >> step | next << (width - step)
}

// How many bits are 1.
#[inline(always)]
fn ones(planes: Planes) -> u32
    ensures { result ≤ 128 }
{
    planes.a.count_ones() + planes.b.count_ones()
}

// The single error whose first differing coded bit may stand at a step, and which leaves the fewest differing bits from its
// own step on, if any leaves fewer than there are; and where its step is.
#[inline(always)]
fn best_error(
    pattern: Pattern,
    wrong: &[Planes],
    at: usize,
    step: u32,
) -> Option<(SingleError, usize, u32)>
    requires { step < 64 }
{
    let width = steps_of_word(pattern);
    let period = period(pattern).len() as u32;
    let mut best = None;
    let mut fewest = 0;
    for error in single_errors(pattern) {
        let (word, start) = if error.first <= step {
            (at, step - error.first)
        } else {
            (
                at.saturating_sub(1),
                (step + width).saturating_sub(error.first),
            )
        };
        if start < width && start % period == error.phase {
            let (here, next) = (word_at(wrong, word), word_at(wrong, word.saturating_add(1)));
            let now = Planes {
                a: from_step(here.a, next.a, start, width),
                b: from_step(here.b, next.b, start, width),
            };
            let then = Planes {
                a: now.a ^ error.wrong.a,
                b: now.b ^ error.wrong.b,
            };
            let gain = ones(now).saturating_sub(ones(then));
            if gain > fewest {
                fewest = gain;
                best = Some((*error, word, start));
            }
        }
    }
    best
}

// Flips bits of two words from a step on.
#[inline(always)]
fn flip(word: u64, next: u64, bits: u64, step: u32, width: u32) -> (u64, u64)
    requires width { width < 64 }
    requires step { step ≤ width }
{
    (
        (word ^ bits << step) & ((1 << width) - 1),
        next ^ bits >> (width - step),
    )
}

// Takes a wrong place out of a guess.
#[inline(always)]
fn take_out(
    pattern: Pattern,
    input: &mut [u64],
    wrong: &mut [Planes],
    error: SingleError,
    at: usize,
    step: u32,
) {
    let width = steps_of_word(pattern);
    if step < width && at < input.len() && at < wrong.len() {
        if at + 1 < input.len() && at + 1 < wrong.len() {
            let (now, next) = flip(input[at], input[at + 1], error.input, step, width);
            input[at] = now;
            input[at + 1] = next;
            let (now_a, next_a) = flip(wrong[at].a, wrong[at + 1].a, error.wrong.a, step, width);
            let (now_b, next_b) = flip(wrong[at].b, wrong[at + 1].b, error.wrong.b, step, width);
            wrong[at] = Planes { a: now_a, b: now_b };
            wrong[at + 1] = Planes {
                a: next_a,
                b: next_b,
            };
        }
    }
}

/// Takes single wrong places out of a guess of the input, where its coded bits are wrong at these steps: the guess is then
/// right again, and only the places are wrong.
#[inline(always)]
pub(crate) fn peel(pattern: Pattern, input: &mut [u64], wrong: &mut [Planes]) {
    let width = steps_of_word(pattern);
    for at in 0..wrong.len() {
        let mut left = u64::MAX;
        for _ in 0..width {
            let seen = wrong[at].a | wrong[at].b;
            if seen & left == 0 {
                break;
            }
            let step = (seen & left).trailing_zeros();
            if step >= width {
                break;
            }
            match best_error(pattern, wrong, at, step) {
                Some((error, word, start)) => {
                    take_out(pattern, input, wrong, error, word, start);
                }
                None => left = u64::MAX << step << 1,
            }
        }
    }
}

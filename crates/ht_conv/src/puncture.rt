//! Puncturing: which coded bits of each step are sent (IEEE Std 802.11-2012, clauses 18.3.5.6 and 20.3.11.6).
ghost use Rattle.std.specs.Prelude.{◌≡◌, ◌+◌, ◌<◌, ◌^◌};
ghost use Rattle.ht_conv.specs.Puncturing.{kept_of, period_of, sent_count};

use ht_rate::Pattern;

/// Which of a step's two coded bits are sent.
#[derive(Clone, Copy, Debug, PartialEq, Eq)]
pub enum Kept {
    /// A and then B.
    Both,
    /// A alone; B is stolen.
    A,
    /// B alone; A is stolen.
    B,
}

static HALF: [Kept; 1] = [Kept::Both];

static TWO_THIRDS: [Kept; 2] = [Kept::Both, Kept::A];

static THREE_QUARTERS: [Kept; 3] = [Kept::Both, Kept::A, Kept::B];

static FIVE_SIXTHS: [Kept; 5] = [Kept::Both, Kept::A, Kept::B, Kept::A, Kept::B];

/// Which coded bits are sent of each step of one period of a pattern. A period has 1, 2, 3 or 5 steps.
///
/// The pattern then begins anew, so that a loop over steps can go round this slice with no division.
pub fn period(pattern: Pattern) -> &'static [Kept]
    ensures { result.now ≡ period_of pattern }
{
    match pattern {
        Pattern::Half => &HALF,
        Pattern::TwoThirds => &TWO_THIRDS,
        Pattern::ThreeQuarters => &THREE_QUARTERS,
        Pattern::FiveSixths => &FIVE_SIXTHS,
    }
}

/// Which coded bits of a step are sent (clauses 18.3.5.6 and 20.3.11.6). Steps count from 0 at the first input bit.
pub fn kept_at(pattern: Pattern, step: u32) -> Kept
    ensures { result ≡ kept_of pattern step }
{
    let period = period(pattern);
    period[step as usize % period.len()]
}

/// The number of coded bits that are sent of the first `steps` steps (clauses 18.3.5.6 and 20.3.11.6).
pub fn sent(pattern: Pattern, steps: u32) -> u64
    ensures { result ≡ sent_count pattern steps }
{
    kept_of_steps(pattern, steps as usize) as u64
}

// One bit of each step is kept, and a second one of the first step of each period.
pub(crate) fn kept_of_steps(pattern: Pattern, steps: usize) -> usize
    requires { steps < 2 ^ 63 }
    ensures { result ≡ sent_count pattern steps }
{
    steps + steps.div_ceil(period(pattern).len())
}

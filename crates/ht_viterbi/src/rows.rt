//! Which row of the table of branches each step of a word has.
ghost use Rattle.std.specs.Prelude.{◌≡◌, ◌+◌, ◌%◌, ◌<◌, ◌≤◌, ◌^◌, None, length, map};
ghost use Rattle.ht_conv.specs.Puncturing.{kept_count, period_of, sent_count};
ghost use Rattle.ht_viterbi.specs.Lanes.{HasRows, number_of_pair};
ghost use Rattle.ht_viterbi.specs.Received.{known_of};
ghost use Rattle.ht_viterbi.specs.Trellis.{pair_of};

use crate::pairs::places_of;
use crate::received_bit::ReceivedBit;
use ht_conv::{Kept, period};
use ht_rate::Pattern;

// The row of a step whose places begin at `start`.
#[inline(always)]
fn row_from(received: &[ReceivedBit], start: usize, kept: Kept) -> u8
    requires { start + kept_count kept ≤ length received.now }
    ensures value { result ≡ number_of_pair (pair_of None kept (map known_of received.now) start) }
    ensures bound { result < 9 }
{
    match kept {
        Kept::Both => 3 * received[start].number() + received[start + 1].number(),
        Kept::A => 3 * received[start].number(),
        Kept::B => received[start].number(),
    }
}

// Fills in the rows of some steps, which begin a period and go on for one period at most. The answer is the place where
// the bits of the next step begin.
#[inline(always)]
fn fill_turn(
    pattern: Pattern,
    received: &[ReceivedBit],
    rows: &mut [u8],
    first: usize,
    count: usize,
    begin: usize,
) -> usize
    requires turn { first % length (period_of pattern) ≡ 0 }
    requires count { count ≤ length (period_of pattern) }
    requires within { first + count ≤ length rows.old }
    requires few { length rows.old ≤ 2 ^ 20 }
    requires received { length received.now ≡ sent_count pattern (length rows.old) }
    requires begin { begin ≡ sent_count pattern first }
    requires so_far { HasRows pattern (map known_of received.now) rows.old first }
    ensures next { result ≡ sent_count pattern (first + count) }
    ensures rows { HasRows pattern (map known_of received.now) rows.new (first + count) }
    ensures length { length rows.new ≡ length rows.old }
{
    let period = period(pattern);
    let mut start = begin;
    for phase in 0..count {
        let kept = period[phase];
        rows[first + phase] = row_from(received, start, kept);
        start += places_of(kept);
    }
    start
}

// Fills in the rows of all steps, period by period.
#[inline(always)]
fn fill(pattern: Pattern, received: &[ReceivedBit], rows: &mut [u8])
    requires few { length rows.old ≤ 2 ^ 20 }
    requires received { length received.now ≡ sent_count pattern (length rows.old) }
    ensures rows { HasRows pattern (map known_of received.now) rows.new (length rows.old) }
    ensures length { length rows.new ≡ length rows.old }
{
    let steps = rows.len();
    let len = period(pattern).len();
    let mut begin = 0;
    for turn in 0..steps / len {
        begin = fill_turn(pattern, received, rows, turn * len, len, begin);
    }
    fill_turn(
        pattern,
        received,
        rows,
        steps - steps % len,
        steps % len,
        begin,
    );
}

/// Fills in the row of each step. Each pattern has its own loop, in which what is kept of a step is known.
pub(crate) fn fill_rows(pattern: Pattern, received: &[ReceivedBit], rows: &mut [u8])
    requires few { length rows.old ≤ 2 ^ 20 }
    requires received { length received.now ≡ sent_count pattern (length rows.old) }
    ensures rows { HasRows pattern (map known_of received.now) rows.new (length rows.old) }
    ensures length { length rows.new ≡ length rows.old }
{
    match pattern {
        Pattern::Half => fill(Pattern::Half, received, rows),
        Pattern::TwoThirds => fill(Pattern::TwoThirds, received, rows),
        Pattern::ThreeQuarters => fill(Pattern::ThreeQuarters, received, rows),
        Pattern::FiveSixths => fill(Pattern::FiveSixths, received, rows),
    }
}

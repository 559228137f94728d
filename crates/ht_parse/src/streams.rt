//! The stream parser (IEEE Std 802.11-2012, clause 20.3.11.8.2): how the coded bits of a symbol go to the spatial
//! streams, and back.
ghost use Rattle.std.specs.Prelude.{◌≡◌, ◌+◌, ◌-◌, ◌*◌, ◌<◌, ◌≤◌, ℕ, IfOk, length, slice_index_or, false, vec_len, vec_capacity};
ghost use Rattle.ht_rate.specs.Rates.{coded_bits_of};
ghost use Rattle.ht_parse.specs.Encoders.{AreShares, list_of};
ghost use Rattle.ht_parse.specs.Groups.{FollowsRule, laid_bit, gathered_bit};
ghost use Rattle.ht_parse.specs.Streams.{share_of, IsLaid};

use crate::layout::Layout;
use crate::pair::Pair;
use ht_bits::Bits;
use ht_rate::Rate;
use std::alloc::{AllocError, Global};

/// Lays the coded bits of one symbol on the spatial streams (clause 20.3.11.8.2).
///
/// Each encoder that the rate has gives N_CBPS / N_ES bits; `second` is empty where it has one encoder. The result
/// has N_CBPS bits, stream after stream, stream 1 first. The only refusal is lack of memory.
pub fn to_streams(
    alloc: Global,
    rate: &Rate,
    first: &[bool],
    second: &[bool],
) -> Result<Vec<bool>, AllocError>
    requires share { length first.now ≡ share_of rate.now }
    requires shares { AreShares rate.now first.now second.now }
    ensures { IfOk result (λ bits. IsLaid rate.now bits.items first.now second.now) }
{
    let layout = Layout::of(rate);
    let mut bits = Vec::with_capacity(alloc, usize::from(rate.coded_bits()))?;
    for stream in 0..layout.streams {
        for round in 0..layout.rounds {
            push_laid_round(&mut bits, &layout, stream, round, first, second);
        }
    }
    Ok(bits)
}

// Appends one round of a stream: a group of each encoder.
fn push_laid_round(
    bits: &mut Vec<bool>,
    layout: &Layout,
    stream: usize,
    round: usize,
    first: &[bool],
    second: &[bool],
)
    requires share { length first.now ≡ share_of layout.now.rate }
    requires shares { AreShares layout.now.rate first.now second.now }
    requires stream { stream < layout.now.streams }
    requires round { round < layout.now.rounds }
    requires len { vec_len bits.old ≡ (stream * layout.now.rounds + round) * layout.now.encoders * layout.now.group }
    requires capacity { vec_capacity bits.old ≡ coded_bits_of layout.now.rate }
    requires laid { FollowsRule (laid_bit layout.now.rate first.now second.now) bits.old.items }
    ensures len { vec_len bits.new ≡ (stream * layout.now.rounds + (round + 1)) * layout.now.encoders * layout.now.group }
    ensures capacity { vec_capacity bits.new ≡ coded_bits_of layout.now.rate }
    ensures laid { FollowsRule (laid_bit layout.now.rate first.now second.now) bits.new.items }
{
    let at = layout.bit(stream, round);
    for encoder in 0..layout.encoders {
        push_group(bits, of_encoder(first, second, encoder), at, layout.group);
    }
}

// The bits of an encoder.
fn of_encoder<'a>(first: &'a [bool], second: &'a [bool], encoder: usize) -> &'a [bool]
    ensures { result.now ≡ list_of first.now second.now encoder }
{
    if encoder == 0 { first } else { second }
}

// Appends a group of bits from a place on.
fn push_group(bits: &mut Vec<bool>, from: &[bool], at: usize, group: usize)
    requires within { at + group ≤ length from.now }
    requires room { vec_len bits.old + group ≤ vec_capacity bits.old }
    ensures len { vec_len bits.new ≡ vec_len bits.old + group }
    ensures capacity { vec_capacity bits.new ≡ vec_capacity bits.old }
    ensures kept { (p : ℕ) → p < vec_len bits.old → slice_index_or bits.new.items p false ≡ slice_index_or bits.old.items p false }
    ensures copied { (x : ℕ) → x < group → slice_index_or bits.new.items (vec_len bits.old + x) false ≡ slice_index_or from.now (at + x) false }
{
    for bit in &from[at..at + group] {
        bits.push_reserved(*bit);
    }
}

/// Gathers the coded bits of one symbol from the spatial streams: the inverse of `to_streams`
/// (clause 20.3.11.8.2).
///
/// `bits` has N_CBPS bits, stream after stream, stream 1 first. With one encoder the second list is empty. The only
/// refusal is lack of memory.
pub fn from_streams(alloc: Global, rate: &Rate, bits: &[bool]) -> Result<Pair, AllocError>
    requires { length bits.now ≡ coded_bits_of rate.now }
    ensures { IfOk result (λ p. IsLaid rate.now bits.now p.first p.second) }
{
    let layout = Layout::of(rate);
    let first = gathered(alloc, &layout, bits, 0)?;
    if layout.encoders == 1 {
        return Ok(Pair {
            first: Bits::from(first),
            second: Bits::from(Vec::new(alloc)),
        });
    }
    let second = gathered(alloc, &layout, bits, 1)?;
    Ok(Pair {
        first: Bits::from(first),
        second: Bits::from(second),
    })
}

// The bits of one encoder.
fn gathered(
    alloc: Global,
    layout: &Layout,
    bits: &[bool],
    encoder: usize,
) -> Result<Vec<bool>, AllocError>
    requires encoder { encoder < layout.now.encoders }
    requires whole { length bits.now ≡ coded_bits_of layout.now.rate }
    ensures len { IfOk result (λ gathered. length gathered.items ≡ share_of layout.now.rate) }
    ensures gathered { IfOk result (λ gathered. FollowsRule (gathered_bit layout.now.rate bits.now encoder) gathered.items) }
{
    let mut gathered = Vec::with_capacity(alloc, layout.share())?;
    for round in 0..layout.rounds {
        push_gathered_round(&mut gathered, layout, round, bits, encoder);
    }
    Ok(gathered)
}

// Appends the bits of the next round: a group of each stream.
fn push_gathered_round(
    gathered: &mut Vec<bool>,
    layout: &Layout,
    round: usize,
    bits: &[bool],
    encoder: usize,
)
    requires encoder { encoder < layout.now.encoders }
    requires whole { length bits.now ≡ coded_bits_of layout.now.rate }
    requires round { round < layout.now.rounds }
    requires len { vec_len gathered.old ≡ round * layout.now.streams * layout.now.group }
    requires capacity { vec_capacity gathered.old ≡ share_of layout.now.rate }
    requires gathered { FollowsRule (gathered_bit layout.now.rate bits.now encoder) gathered.old.items }
    ensures len { vec_len gathered.new ≡ (round + 1) * layout.now.streams * layout.now.group }
    ensures capacity { vec_capacity gathered.new ≡ share_of layout.now.rate }
    ensures gathered { FollowsRule (gathered_bit layout.now.rate bits.now encoder) gathered.new.items }
{
    for stream in 0..layout.streams {
        push_group(
            gathered,
            bits,
            layout.place(stream, round, encoder),
            layout.group,
        );
    }
}

//! The encoder parser (IEEE Std 802.11-2012, clause 20.3.11.5): the data bits go to the encoders in turn.
ghost use Rattle.std.specs.Prelude.{◌≡◌, ◌+◌, ◌-◌, ◌*◌, ◌/◌, ◌%◌, ◌<◌, ℕ, IfOk, length, slice_index_or, false};
ghost use Rattle.ht_rate.specs.Rates.{encoders_of};
ghost use Rattle.ht_parse.specs.Encoders.{AreShares, IsParsed};

use crate::pair::Pair;
use ht_bits::Bits;
use ht_rate::Rate;
use std::alloc::{AllocError, Global};

/// Shares the bits among the encoders, one bit to each in turn (clause 20.3.11.5).
///
/// Place N_ES * i + j becomes bit i of encoder j. The number of bits is a multiple of N_ES. With one encoder the
/// second list is empty. The only refusal is lack of memory.
pub fn split_encoders(alloc: Global, rate: &Rate, bits: &[bool]) -> Result<Pair, AllocError>
    requires { length bits.now % encoders_of rate.now ≡ 0 }
    ensures { IfOk result (λ p. IsParsed rate.now bits.now p.first p.second) }
{
    if rate.encoders() == 1 {
        let first = bits.to_vec(alloc)?;
        return Ok(Pair {
            first: Bits::from(first),
            second: Bits::from(Vec::new(alloc)),
        });
    }
    let first = every_second(alloc, bits, 0)?;
    let second = every_second(alloc, bits, 1)?;
    Ok(Pair {
        first: Bits::from(first),
        second: Bits::from(second),
    })
}

// Every second bit, from the bit at `start` on.
fn every_second(alloc: Global, bits: &[bool], start: usize) -> Result<Vec<bool>, AllocError>
    requires start { start < 2 }
    requires even { length bits.now % 2 ≡ 0 }
    ensures len { IfOk result (λ v. 2 * length v.items ≡ length bits.now) }
    ensures places { IfOk result (λ v. (i : ℕ) → i < length v.items → slice_index_or v.items i false ≡ slice_index_or bits.now (2 * i + start) false) }
{
    let half = bits.len() / 2;
    let mut taken = Vec::with_capacity(alloc, half)?;
    for i in 0..half {
        taken.push_reserved(bits[2 * i + start]);
    }
    Ok(taken)
}

/// Puts the bits of the encoders together again: the inverse of `split_encoders` (clause 20.3.11.5).
///
/// Both lists are equally long, or `second` is empty where the rate has one encoder. The only refusal is lack of
/// memory.
pub fn join_encoders(
    alloc: Global,
    rate: &Rate,
    first: &[bool],
    second: &[bool],
) -> Result<Vec<bool>, AllocError>
    requires { AreShares rate.now first.now second.now }
    ensures { IfOk result (λ bits. IsParsed rate.now bits.items first.now second.now) }
{
    if rate.encoders() == 1 {
        return first.to_vec(alloc);
    }
    alternated(alloc, first, second)
}

// One bit of each in turn.
fn alternated(alloc: Global, first: &[bool], second: &[bool]) -> Result<Vec<bool>, AllocError>
    requires { length second.now ≡ length first.now }
    ensures len { IfOk result (λ v. length v.items ≡ 2 * length first.now) }
    ensures firsts { IfOk result (λ v. (i : ℕ) → i < length first.now → slice_index_or v.items (2 * i) false ≡ slice_index_or first.now i false) }
    ensures seconds { IfOk result (λ v. (i : ℕ) → i < length first.now
        → slice_index_or v.items (2 * i + 1) false ≡ slice_index_or second.now i false) }
{
    let mut bits = Vec::with_capacity(alloc, 2 * first.len())?;
    for (i, bit) in first.iter().enumerate() {
        bits.push_reserved(*bit);
        bits.push_reserved(second[i]);
    }
    Ok(bits)
}

//! Frames decoded from weights.
ghost use Rattle.std.specs.Prelude.{◌≡◌, ◌==◌, ◌-◌, ◌*◌, ◌≤◌, IfOk, if◌then◌else◌, length};
ghost use Rattle.ht_rate.specs.Rates.{encoders_of, label_bits_of, steps_of};
ghost use Rattle.ht_inverse.specs.Received.{labels_in_frame};
ghost use Rattle.ht_soft.specs.Frames.{no_soft_codeword, soft_codeword_of, soft_decoded_frame};

use crate::soft_decoded::SoftDecoded;
use ht_bits::Bits;
use ht_inverse::{Share, Table, inputs_come_to};
use ht_rate::Rate;
use ht_viterbi::{Cheapest, decode_weights};
use std::alloc::{AllocError, Global};

// The codeword of a share's encoder.
fn codeword(
    share: &Share,
    alloc: Global,
    octets: u16,
    weights: &[i32],
) -> Result<Cheapest, AllocError>
    requires some { 1 ≤ octets }
    requires weights { length weights.now ≡ labels_in_frame share.now.rate octets * label_bits_of share.now.rate }
    ensures value { IfOk result (λ c. c ≡ soft_codeword_of share.now.rate octets share.now.erased weights.now share.now.encoder) }
    ensures steps { IfOk result (λ c. length c.input ≡ steps_of share.now.rate octets) }
{
    let received = share.values(alloc, octets, weights, 0)?;
    let steps = share.rate.codeword_steps(octets);
    decode_weights(alloc, steps, share.rate.pattern(), &received)
}

// The codeword of encoder 1, or an empty one where there is none.
fn second_codeword(
    table: &Table,
    alloc: Global,
    octets: u16,
    weights: &[i32],
) -> Result<Cheapest, AllocError>
    requires some { 1 ≤ octets }
    requires weights { length weights.now ≡ labels_in_frame table.now.first.rate octets * label_bits_of table.now.first.rate }
    ensures value { IfOk result (λ c. c ≡ (if encoders_of table.now.first.rate == 2
        then soft_codeword_of table.now.first.rate octets table.now.first.erased weights.now 1 else no_soft_codeword)) }
    ensures steps { IfOk result (λ c. length c.input ≡ (encoders_of table.now.first.rate - 1) * steps_of table.now.first.rate octets) }
{
    match &table.second {
        Some(share) => codeword(share, alloc, octets, weights),
        None => Ok(Cheapest {
            input: Bits::from(Vec::new(alloc)),
            cost: 0,
        }),
    }
}

/// Decodes a frame from the weights of its label bits.
///
/// The frame has a PSDU of `octets` octets, at least one. `weights` has one for each label bit, N_SYM * N_CBPS in the
/// order symbol, data subcarrier, stream, bit. Bit c of `erased` is set where subcarrier c is erased, and the weights
/// there count as 0. Each encoder's input is the first of those that cost least at its weights, as
/// [`soft_decode`](crate::soft_decode) has it; what they come to is what hard decisions come to, with the same descrambler.
/// The only refusal is lack of memory.
///
/// IEEE Std 802.11-2012, clauses 20.3.11.2 to 20.3.11.6 backwards.
pub fn soft_frame(
    alloc: Global,
    rate: &Rate,
    octets: u16,
    erased: u128,
    weights: &[i32],
) -> Result<SoftDecoded, AllocError>
    requires some { 1 ≤ octets }
    requires weights { length weights.now ≡ labels_in_frame rate.now octets * label_bits_of rate.now }
    ensures { IfOk result (λ frame. frame ≡ soft_decoded_frame rate.now octets erased weights.now) }
{
    let table = Table::of(alloc, rate, erased)?;
    let first = codeword(&table.first, alloc, octets, weights)?;
    let second = second_codeword(&table, alloc, octets, weights)?;
    let outcome = inputs_come_to(alloc, rate, octets, &first.input, &second.input)?;
    Ok(SoftDecoded {
        outcome,
        cost: u128::from(first.cost) + u128::from(second.cost),
    })
}

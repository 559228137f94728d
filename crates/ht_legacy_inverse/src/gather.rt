//! The received list of a frame, as an octet for each coded bit, and as words.
ghost use Rattle.std.specs.Prelude.{◌≡◌, ◌+◌, ◌*◌, ◌<◌, ◌≤◌, IfOk, length, map, vec_len, vec_capacity};
ghost use Rattle.std.specs.List.{range_with_len};
ghost use Rattle.ht_clause18.specs.Rates.{coded_bits_of, needed_bits, pattern_of, symbols_of};
ghost use Rattle.ht_conv.specs.Puncturing.{sent_count};
ghost use Rattle.ht_viterbi.specs.Packed.{packed};
ghost use Rattle.ht_legacy_inverse.specs.Places.{AreLabelPlaces};
ghost use Rattle.ht_legacy_inverse.specs.Received.{labels_in_frame, received_at, received_of, told_by};

use crate::label_place::LabelPlace;
use crate::places::label_places;
use ht_clause18::LegacyRate;
use ht_conv::sent;
use ht_inverse::packed_words;
use std::alloc::{AllocError, Global};

// The labels of a symbol.
const LABELS: usize = 48;

// The bits of SERVICE and of the tail.
const FRAMING: u32 = 22;

/// The steps of a frame's codeword: SERVICE, the octets and the tail.
pub(crate) fn steps(octets: u16) -> u32
    ensures value { result ≡ needed_bits octets }
{
    FRAMING + 8 * u32::from(octets)
}

// A coded bit of a symbol, out of the symbol's labels: 0 where it is 0.
#[inline(always)]
fn coded_bit(rate: LegacyRate, places: &[LabelPlace; 288], labels: &[u8], symbol: u32, k: u16) -> u8
    requires places { AreLabelPlaces rate places.now }
    requires labels { symbol * 48 + 48 ≤ length labels.now }
    requires place { k < coded_bits_of rate }
    ensures { told_by result ≡ received_at rate labels.now (symbol * coded_bits_of rate + k) }
{
    let _size = rate.coded_bits(); // at most 288, which only the proof asks for
    let place = places[usize::from(k)];
    let at = symbol as usize * LABELS + usize::from(place.carrier);
    labels[at] & place.mask
}

// Puts the first coded bits of a symbol, this number of them, behind those of the symbols in front of it. So nothing is
// divided: a division for each bit would cost as much as all the rest.
fn push_symbol(
    rate: LegacyRate,
    places: &[LabelPlace; 288],
    labels: &[u8],
    symbol: u32,
    count: u16,
    bits: &mut Vec<u8>,
)
    requires places { AreLabelPlaces rate places.now }
    requires labels { symbol * 48 + 48 ≤ length labels.now }
    requires few { count ≤ coded_bits_of rate }
    requires room { vec_len bits.old + count ≤ vec_capacity bits.old }
    requires before { map told_by bits.old.items ≡ map (received_at rate labels.now) (range_with_len 0 (symbol * coded_bits_of rate)) }
    ensures bits { map told_by bits.new.items ≡ map (received_at rate labels.now) (range_with_len 0 (symbol * coded_bits_of rate + count)) }
    ensures len { vec_len bits.new ≡ vec_len bits.old + count }
    ensures capacity { vec_capacity bits.new ≡ vec_capacity bits.old }
{
    for k in 0..count {
        bits.push_reserved(coded_bit(rate, places, labels, symbol, k));
    }
}

// The coded bits of a frame's codeword, which its symbols hold.
fn coded_bits(rate: LegacyRate, octets: u16) -> usize
    ensures value { result ≡ sent_count (pattern_of rate) (needed_bits octets) }
    ensures within { result ≤ symbols_of rate octets * coded_bits_of rate }
{
    sent(rate.pattern(), steps(octets)) as usize
}

// The received list of a frame, an octet for each coded bit. The only refusal is lack of memory.
fn received(
    alloc: Global,
    rate: LegacyRate,
    octets: u16,
    labels: &[u8],
) -> Result<Vec<u8>, AllocError>
    requires octets { (1 ≤ octets) × (octets ≤ 4095) }
    requires labels { length labels.now ≡ labels_in_frame rate octets }
    ensures { IfOk result (λ bits. map told_by bits.items ≡ received_of rate octets labels.now) }
{
    let places = label_places(rate);
    let _symbols = rate.symbols(octets); // how many are enough, which only the proof asks for
    let count = coded_bits(rate, octets);
    let mut bits = Vec::with_capacity(alloc, count)?;
    let size = rate.coded_bits();
    let mut symbol = 0;
    let mut left = count;
    while left > 0 {
        let taken = left.min(usize::from(size)) as u16;
        push_symbol(rate, &places, labels, symbol, taken, &mut bits);
        symbol += 1;
        left -= usize::from(taken);
    }
    Ok(bits)
}

/// The received list of a frame, 60 places to a word. The only refusal is lack of memory.
pub(crate) fn received_words(
    alloc: Global,
    rate: LegacyRate,
    octets: u16,
    labels: &[u8],
) -> Result<Vec<u64>, AllocError>
    requires octets { (1 ≤ octets) × (octets ≤ 4095) }
    requires labels { length labels.now ≡ labels_in_frame rate octets }
    ensures places { IfOk result (λ words. sent_count (pattern_of rate) (needed_bits octets) ≤ 60 * length words.items) }
    ensures list { IfOk result (λ words. packed words.items (sent_count (pattern_of rate) (needed_bits octets)) ≡ received_of rate octets labels.now) }
{
    let marks = received(alloc, rate, octets, labels)?;
    packed_words(alloc, marks.as_slice())
}

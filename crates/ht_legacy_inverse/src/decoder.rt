//! From labels to octets.
ghost use Rattle.std.specs.Prelude.{◌≡◌, ◌+◌, ◌*◌, ◌≤◌, IfOk, length, take};
ghost use Rattle.ht_clause18.specs.Rates.{needed_bits};
ghost use Rattle.ht_inverse.specs.Decoding.{outcome_of};
ghost use Rattle.ht_legacy_inverse.specs.Decoding.{legacy_decoded_frame};
ghost use Rattle.ht_legacy_inverse.specs.Received.{labels_in_frame};

use crate::gather::{received_words, steps};
use ht_clause18::LegacyRate;
use ht_clean::decode_words;
use ht_inverse::{Decoded, input_comes_to};
use std::alloc::{AllocError, Global};

/// Decodes a frame from its labels.
///
/// The frame has a PSDU of `octets` octets, 1 to 4095. `labels` has N_SYM * 48 labels in the order symbol, data subcarrier,
/// each with its first bit as the most significant one. The only refusal is lack of memory.
///
/// IEEE Std 802.11-2012, clauses 18.3.5.2 to 18.3.5.8.
pub fn legacy_decode_frame(
    alloc: Global,
    rate: LegacyRate,
    octets: u16,
    labels: &[u8],
) -> Result<Decoded, AllocError>
    requires octets { (1 ≤ octets) × (octets ≤ 4095) }
    requires labels { length labels.now ≡ labels_in_frame rate octets }
    ensures { IfOk result (λ frame. frame ≡ legacy_decoded_frame rate octets labels.now) }
{
    let words = received_words(alloc, rate, octets, labels)?;
    let pattern = rate.pattern();
    let codeword = decode_words(alloc, steps(octets), pattern, words.as_slice())?;
    let outcome = input_comes_to(alloc, pattern, codeword.words.as_slice(), octets)?;
    Ok(Decoded {
        outcome,
        code: codeword.distance,
    })
}

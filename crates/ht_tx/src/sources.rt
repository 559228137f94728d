//! Where the bits of a symbol's labels come from.
ghost use Rattle.std.specs.Prelude.{◌≡◌, ◌+◌, ◌*◌, ◌<◌, ◌≤◌, ◌^◌, IfOk, ℕ, length, slice_index_or};
ghost use Rattle.ht_rate.specs.Rates.{coded_bits_of, streams_of, stream_bits_of};
ghost use Rattle.ht_parse.specs.Streams.{source_of};
ghost use Rattle.ht_tx.specs.Sources.{source_of_slot};

use ht_interleave::origin;
use ht_rate::Rate;
use std::alloc::{AllocError, Global};

/// The places of the coded bits of a symbol's labels, in the order data subcarrier, stream, bit.
///
/// The lists of the encoders stand one after another, each with `reach` bits; the places are those of symbol 0, and those
/// of the next symbols lie a share further each. A frame needs this table once, so its symbols take no division for a bit.
pub(crate) fn sources(alloc: Global, rate: &Rate, reach: u32) -> Result<Vec<u32>, AllocError>
    requires { reach < 2 ^ 30 }
    ensures len { IfOk result (λ sources. length sources.items ≡ coded_bits_of rate.now) }
    ensures places { IfOk result (λ sources. (slot : ℕ) → slot < length sources.items
        → slice_index_or sources.items slot 0 ≡ source_of_slot rate.now reach slot) }
{
    let count = rate.coded_bits();
    let mut sources = Vec::with_capacity(alloc, usize::from(count))?;
    for slot in 0..count {
        sources.push_reserved(source(rate, reach, slot));
    }
    Ok(sources)
}

// The place of the coded bit of a label bit.
fn source(rate: &Rate, reach: u32, slot: u16) -> u32
    requires slot { slot < coded_bits_of rate.now }
    requires reach { reach < 2 ^ 30 }
    ensures { result ≡ source_of_slot rate.now reach slot }
{
    let label_bits = u16::from(rate.label_bits());
    let streams = u16::from(rate.streams());
    let label = slot / label_bits;
    let stream = (label % streams + 1) as u8;
    let place = label / streams * label_bits + slot % label_bits;
    parsed(rate, reach, stream, origin(rate, stream, place))
}

// The place of the coded bit that the stream parser sends to bit k of a stream.
fn parsed(rate: &Rate, reach: u32, stream: u8, k: u16) -> u32
    requires stream { (1 ≤ stream) × (stream ≤ streams_of rate.now) }
    requires bit { k < stream_bits_of rate.now }
    requires reach { reach < 2 ^ 30 }
    ensures { result ≡ (source_of rate.now stream k).0 * reach + (source_of rate.now stream k).1 }
{
    let bit = u32::from(k);
    let group = u32::from(rate.axis_bits());
    let encoders = u32::from(rate.encoders());
    let round = bit / (encoders * group);
    let start = u32::from(stream - 1) * group + u32::from(rate.streams()) * group * round;
    bit / group % encoders * reach + (start + bit % group)
}

//! Decoders of frames.
ghost use Rattle.std.specs.Prelude.{◌≡◌, ◌≤◌, IfOk, length};
ghost use Rattle.ht_inverse.specs.Decoding.{decoded_frame};
ghost use Rattle.ht_inverse.specs.Received.{labels_in_frame};

use crate::decoded::Decoded;
use crate::frame_labels::FrameLabels;
use crate::table::Table;
use ht_rate::Rate;
use std::alloc::{AllocError, Global};

/// Decodes a frame from its labels.
///
/// The frame has a PSDU of `octets` octets, at least one. Bit c of `erased` is set where subcarrier c is erased, and the
/// bits of its labels count for nothing. `labels` has N_SYM * N_SD * N_SS labels in the order symbol, data subcarrier,
/// stream, each with its first bit as the most significant one. The only refusal is lack of memory.
pub fn decode_frame(
    alloc: Global,
    rate: &Rate,
    octets: u16,
    erased: u128,
    labels: &[u8],
) -> Result<Decoded, AllocError>
    requires some { 1 ≤ octets }
    requires labels { length labels.now ≡ labels_in_frame rate.now octets }
    ensures { IfOk result (λ frame. frame ≡ decoded_frame rate.now octets erased labels.now) }
{
    let table = Table::of(alloc, rate, erased)?;
    table.decode(alloc, &FrameLabels { octets, labels })
}

/// What decodes frames, one after another.
pub trait Decoder {
    /// Decodes a frame from its labels, as [`decode_frame`] does.
    fn decode(
        &mut self,
        alloc: Global,
        rate: &Rate,
        octets: u16,
        erased: u128,
        labels: &[u8],
    ) -> Result<Decoded, AllocError>
        requires some { 1 ≤ octets }
        requires labels { length labels.now ≡ labels_in_frame rate.now octets }
        ensures { IfOk result (λ frame. frame ≡ decoded_frame rate.now octets erased labels.now) };
}

/// A decoder on one thread.
///
/// It keeps what it worked out for the rate and the erased subcarriers of its last frame, so that frames of one kind
/// find it made. Where there was no memory to make it, nothing is kept.
#[derive(Drop)]
pub struct Alone {
    table: Option<Table>,
}

impl Alone {
    /// A decoder that has seen no frame. Takes no memory.
    pub fn new() -> Alone {
        Alone { table: None }
    }
}

/// A table that serves: the one that was kept, or a new one.
pub(crate) fn table_for(
    alloc: Global,
    kept: Option<Table>,
    rate: &Rate,
    erased: u128,
) -> Result<Table, AllocError>
    ensures rate { IfOk result (λ table. table.first.rate ≡ rate.now) }
    ensures erased { IfOk result (λ table. table.first.erased ≡ erased) }
{
    match kept {
        Some(table) if table.serves(rate, erased) => Ok(table),
        _ => Table::of(alloc, rate, erased),
    }
}

impl Decoder for Alone {
    fn decode(
        &mut self,
        alloc: Global,
        rate: &Rate,
        octets: u16,
        erased: u128,
        labels: &[u8],
    ) -> Result<Decoded, AllocError> {
        let table = table_for(alloc, self.table.take(), rate, erased)?;
        let decoded = table.decode(alloc, &FrameLabels { octets, labels });
        self.table = Some(table);
        decoded
    }
}

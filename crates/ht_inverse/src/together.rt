//! Decoding with two threads, where a frame has two codewords.
ghost use Rattle.std.specs.Prelude.{◌≡◌, ◌≤◌, IfOk, length};
ghost use Rattle.ht_inverse.specs.Decoding.{decoded_frame};
ghost use Rattle.ht_inverse.specs.Received.{labels_in_frame};

use crate::decoded::Decoded;
use crate::decoder::{Decoder, table_for};
use crate::frame_labels::FrameLabels;
use crate::table::Table;
use ht_rate::Rate;
use std::alloc::{AllocError, Global};
use std::thread::Threads;

/// Decodes a frame from its labels, as [`decode_frame`](crate::decode_frame) does, and the codewords of two encoders in
/// two threads. Where no thread can be made, they are decoded one after the other. A frame of one encoder is decoded in
/// the thread of the caller.
pub fn decode_frame_together<R: Threads>(
    rt: &R,
    alloc: Global,
    rate: &Rate,
    octets: u16,
    erased: u128,
    labels: &[u8],
) -> Result<Decoded, AllocError>
    requires some { 1 ≤ octets }
    requires labels { length labels.now ≡ labels_in_frame rate.now octets }
    ensures { IfOk result (λ frame. frame ≡ decoded_frame rate.now octets erased labels.now) }
{
    let table = Table::of(alloc, rate, erased)?;
    table.decode_together(rt, alloc, &FrameLabels { octets, labels })
}

/// A decoder that decodes the codewords of two encoders in two threads, and a frame of one encoder in its own.
///
/// Like [`Alone`](crate::Alone) it keeps what it worked out for the rate and the erased subcarriers of its last frame.
#[derive(Drop)]
pub struct Together<'a, R: Threads> {
    rt: &'a R,
    table: Option<Table>,
}

impl<'a, R: Threads> Together<'a, R> {
    /// A decoder that has seen no frame and starts its threads by `rt`. Takes no memory.
    pub fn new(rt: &'a R) -> Together<'a, R> {
        Together { rt, table: None }
    }
}

impl<'a, R: Threads> Decoder for Together<'a, R> {
    fn decode(
        &mut self,
        alloc: Global,
        rate: &Rate,
        octets: u16,
        erased: u128,
        labels: &[u8],
    ) -> Result<Decoded, AllocError> {
        let table = table_for(alloc, self.table.take(), rate, erased)?;
        let decoded = table.decode_together(self.rt, alloc, &FrameLabels { octets, labels });
        self.table = Some(table);
        decoded
    }
}

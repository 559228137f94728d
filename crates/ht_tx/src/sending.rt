//! Frames that are sent one after another.
ghost use Rattle.std.specs.Prelude.{IfOk};
ghost use Rattle.ht_tx.specs.Transmitted.{AreTransmitted};

use crate::frames::Frame;
use crate::symbols::Symbols;
use crate::transmitter::transmit;
use std::alloc::{AllocError, Global};

/// The symbols that are sent for frames, one after another. The only refusal is lack of memory.
pub fn transmit_all(alloc: Global, frames: &[Frame]) -> Result<Vec<Symbols>, AllocError>
    ensures { IfOk result (λ sent. AreTransmitted frames.now sent.items) }
{
    let mut sent = Vec::with_capacity(alloc, frames.len())?;
    for frame in frames {
        sent.push(transmit(alloc, frame)?)?;
    }
    Ok(sent)
}

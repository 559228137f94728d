//! The whole chain.
ghost use Rattle.std.specs.Prelude.{◌≡◌, ◌≤◌, IfOk, drop, length};
ghost use Rattle.ht_tx.specs.Symbols.{IsSymbols};
ghost use Rattle.ht_tx.specs.Transmitted.{IsTransmitted};

use crate::coder::coded_bits;
use crate::frames::Frame;
use crate::mapper::push_symbol;
use crate::points::Points;
use crate::sources::sources;
use crate::symbols::Symbols;
use std::alloc::{AllocError, Global};

/// The symbols that are sent for a frame (IEEE Std 802.11-2012, clause 20.3.11).
///
/// On each pilot stands its value, and on each data subcarrier and stream the point of the label whose bits are the coded
/// bits that land there. The only refusal is lack of memory.
pub fn transmit(alloc: Global, frame: &Frame) -> Result<Symbols, AllocError>
    ensures sent { IfOk result (λ sent. IsTransmitted frame.now sent) }
    ensures whole { IfOk result (λ sent. IsSymbols sent.rate sent.length sent.points) }
{
    let rate = frame.rate();
    let length = frame.octets().len() as u16;
    let symbols = rate.symbols(length);
    let share = u32::from(rate.coded_bits()) / u32::from(rate.encoders());
    let coded = coded_bits(alloc, frame)?;
    let sources = sources(alloc, &rate, symbols * share)?;
    let width = usize::from(rate.carriers()) * usize::from(rate.streams());
    let mut points = Vec::with_capacity(alloc, symbols as usize * width)?;
    for symbol in 0..symbols {
        let coded = behind(coded.as_slice(), (symbol * share) as usize);
        push_symbol(&mut points, frame, coded, sources.as_slice(), symbol);
    }
    Ok(Symbols::new(rate, length, Points::from(points)))
}

// The bits from a place on.
fn behind(bits: &[bool], place: usize) -> &[bool]
    requires { place ≤ length bits.now }
    ensures { result.now ≡ drop place bits.now }
{
    &bits[place..]
}

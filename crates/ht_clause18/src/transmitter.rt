//! The whole chain.
ghost use Rattle.std.specs.Prelude.{◌≡◌, ◌+◌, ◌≤◌, IfOk, length, drop, take};
ghost use Rattle.ht_clause18.specs.Points.{sent_points};

use crate::carriers::CARRIERS;
use crate::coder::coded_bits;
use crate::frames::LegacyFrame;
use crate::mapper::push_symbol;
use crate::places::sources;
use ht_pam::Point;
use std::alloc::{AllocError, Global};

/// The points that are sent for a frame, in the order symbol, subcarrier: 52 for each of its `rate.symbols(length)`
/// symbols (IEEE Std 802.11-2012, clause 18.3.5).
///
/// On each pilot stands its value, and on each data subcarrier the point of its label, on the whole-number grid. The only
/// refusal is lack of memory.
#[tactic(auto, unfolding(crate::specs::Points::sent_points))]
pub fn legacy_transmit(alloc: Global, frame: &LegacyFrame) -> Result<Vec<Point>, AllocError>
    ensures { IfOk result (λ points. points.items ≡ sent_points frame.now) }
{
    let rate = frame.rate();
    let symbols = rate.symbols(frame.octets().len() as u16);
    let share = usize::from(rate.coded_bits());
    let coded = coded_bits(alloc, frame)?;
    let sources = sources(rate);
    let mut points = Vec::with_capacity(alloc, symbols as usize * usize::from(CARRIERS))?;
    for symbol in 0..symbols {
        let bits = part(coded.as_slice(), symbol as usize * share, share);
        push_symbol(&mut points, rate, &sources, bits, symbol);
    }
    Ok(points)
}

// A number of bits from a place on.
fn part(bits: &[bool], place: usize, count: usize) -> &[bool]
    requires { place + count ≤ length bits.now }
    ensures { result.now ≡ take count (drop place bits.now) }
{
    &bits[place..place + count]
}

//! From coded bits to points.
ghost use Rattle.std.specs.Prelude.{◌≡◌, ◌+◌, ◌*◌, ◌<◌, ◌≤◌, vec_len, vec_capacity};
ghost use Rattle.ht_rate.specs.Carriers.{IsAmong};
ghost use Rattle.ht_rate.specs.Rates.{data_carriers_of, streams_of, carriers_of};
ghost use Rattle.ht_tx.specs.Transmitted.{Carries, IsPointOf};
ghost use Rattle.ht_tx.specs.Sources.{AreCarried, AreWired};

use crate::frames::Frame;
use ht_data::label;
use ht_map::point;
use ht_pam::Point;
use ht_pilot::pilot;
use ht_rate::Carrier;

// The point of a data subcarrier.
fn data_point(
    frame: &Frame,
    coded: &[bool],
    sources: &[u32],
    symbol: u32,
    carrier: u8,
    stream: u8,
) -> Point
    requires wired { AreWired frame.now symbol coded.now sources.now }
    requires carrier { carrier < data_carriers_of frame.now.rate }
    requires stream { (1 ≤ stream) × (stream ≤ streams_of frame.now.rate) }
    ensures { IsPointOf frame.now symbol carrier stream result }
{
    let rate = frame.rate();
    let bits = usize::from(rate.label_bits());
    let slot = (usize::from(carrier) * usize::from(rate.streams()) + usize::from(stream - 1))
        * bits;
    point(rate.modulation(), label(&sources[slot..slot + bits], coded))
}

// The point of a subcarrier.
fn point_for(
    frame: &Frame,
    coded: &[bool],
    sources: &[u32],
    symbol: u32,
    carrier: Carrier,
    stream: u8,
) -> Point
    requires wired { AreWired frame.now symbol coded.now sources.now }
    requires carrier { IsAmong frame.now.rate carrier }
    requires stream { (1 ≤ stream) × (stream ≤ streams_of frame.now.rate) }
    ensures { Carries frame.now symbol carrier stream result }
{
    match carrier {
        Carrier::Data(m) => data_point(frame, coded, sources, symbol, m, stream),
        Carrier::Pilot(k) => Point {
            i: pilot(&frame.rate(), symbol, k, stream),
            q: 0,
        },
    }
}

// Appends the points of a subcarrier: one for each stream.
fn push_carrier(
    points: &mut Vec<Point>,
    frame: &Frame,
    coded: &[bool],
    sources: &[u32],
    symbol: u32,
    index: u8,
)
    requires wired { AreWired frame.now symbol coded.now sources.now }
    requires index { index < carriers_of frame.now.rate }
    requires len { vec_len points.old ≡ (symbol * carriers_of frame.now.rate + index) * streams_of frame.now.rate }
    requires room { vec_len points.old + streams_of frame.now.rate ≤ vec_capacity points.old }
    requires carried { AreCarried frame.now points.old.items }
    ensures len { vec_len points.new ≡ (symbol * carriers_of frame.now.rate + (index + 1)) * streams_of frame.now.rate }
    ensures capacity { vec_capacity points.new ≡ vec_capacity points.old }
    ensures carried { AreCarried frame.now points.new.items }
{
    let carrier = frame.rate().carrier(index);
    for stream in 0..frame.rate().streams() {
        points.push_reserved(point_for(frame, coded, sources, symbol, carrier, stream + 1));
    }
}

/// Appends the points of a symbol, in the order subcarrier, stream.
pub(crate) fn push_symbol(
    points: &mut Vec<Point>,
    frame: &Frame,
    coded: &[bool],
    sources: &[u32],
    symbol: u32,
)
    requires wired { AreWired frame.now symbol coded.now sources.now }
    requires len { vec_len points.old ≡ symbol * carriers_of frame.now.rate * streams_of frame.now.rate }
    requires room { (symbol + 1) * carriers_of frame.now.rate * streams_of frame.now.rate ≤ vec_capacity points.old }
    requires carried { AreCarried frame.now points.old.items }
    ensures len { vec_len points.new ≡ (symbol + 1) * carriers_of frame.now.rate * streams_of frame.now.rate }
    ensures capacity { vec_capacity points.new ≡ vec_capacity points.old }
    ensures carried { AreCarried frame.now points.new.items }
{
    for index in 0..frame.rate().carriers() {
        push_carrier(points, frame, coded, sources, symbol, index);
    }
}

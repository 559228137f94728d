//! From the coded bits of a symbol to its points (IEEE Std 802.11-2012, clauses 18.3.5.7 to 18.3.5.10).
ghost use Rattle.std.specs.Prelude.{◌≡◌, ◌+◌, ◌<◌, ◌≤◌, ◌++◌, length, vec_len, vec_capacity};
ghost use Rattle.ht_map.specs.Gray.{point_of};
ghost use Rattle.ht_clause18.specs.Carriers.{carriers, IsAmong};
ghost use Rattle.ht_clause18.specs.Interleaver.{interleaved};
ghost use Rattle.ht_clause18.specs.Points.{label_at, carried, symbol_points};
ghost use Rattle.ht_clause18.specs.Rates.{coded_bits_of, modulation_of};
ghost use Rattle.ht_clause18.specs.Sources.{AreSources};

use crate::carriers::{CARRIERS, legacy_carrier};
use crate::pilots::legacy_pilot;
use crate::rates::LegacyRate;
use ht_data::label;
use ht_map::point;
use ht_pam::Point;
use ht_rate::Carrier;

// The point of data subcarrier m.
fn data_point(rate: LegacyRate, sources: &[u32], bits: &[bool], m: u8) -> Point
    requires sources { AreSources rate sources.now }
    requires bits { length bits.now ≡ coded_bits_of rate }
    requires carrier { m < 48 }
    ensures { result ≡ point_of (modulation_of rate) (label_at rate (interleaved rate bits.now) m) }
{
    let count = usize::from(rate.label_bits());
    let place = usize::from(m) * count;
    point(
        rate.modulation(),
        label(&sources[place..place + count], bits),
    )
}

// The point of a subcarrier.
fn point_for(
    rate: LegacyRate,
    sources: &[u32],
    bits: &[bool],
    symbol: u32,
    carrier: Carrier,
) -> Point
    requires sources { AreSources rate sources.now }
    requires bits { length bits.now ≡ coded_bits_of rate }
    requires carrier { IsAmong carrier }
    ensures { result ≡ carried rate (interleaved rate bits.now) symbol carrier }
{
    match carrier {
        Carrier::Data(m) => data_point(rate, sources, bits, m),
        Carrier::Pilot(k) => Point {
            i: legacy_pilot(symbol, k),
            q: 0,
        },
    }
}

/// Appends the points of a symbol with these coded bits, from the lowest subcarrier up.
pub(crate) fn push_symbol(
    points: &mut Vec<Point>,
    rate: LegacyRate,
    sources: &[u32],
    bits: &[bool],
    symbol: u32,
)
    requires sources { AreSources rate sources.now }
    requires bits { length bits.now ≡ coded_bits_of rate }
    requires room { vec_len points.old + carriers ≤ vec_capacity points.old }
    ensures items { points.new.items ≡ points.old.items ++ symbol_points rate bits.now symbol }
    ensures len { vec_len points.new ≡ vec_len points.old + carriers }
    ensures capacity { vec_capacity points.new ≡ vec_capacity points.old }
{
    for index in 0..CARRIERS {
        points.push_reserved(point_for(rate, sources, bits, symbol, legacy_carrier(index)));
    }
}

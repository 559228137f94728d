//! A point of a frame: what its two octets are, and whether it fits its place.
ghost use Rattle.std.specs.Prelude.{◌≡◌, ◌≤◌, ◌+◌, ◌%◌};
ghost use Rattle.ht_rate.specs.Carriers.{IsAmong};
ghost use Rattle.ht_rate.specs.Rates.{streams_of};
ghost use Rattle.ht_files.specs.Points.{fits_carrier, kind_on, point_in};

use ht_io::Kind;
use ht_map::label;
use ht_pam::Point;
use ht_pilot::pilot;
use ht_rate::{Carrier, Rate};

/// The point of two octets.
#[tactic(auto, unfolding(crate::specs::Points::point_in))]
pub(crate) fn point_of(octets: [u8; 2]) -> Point
    ensures { result ≡ point_in octets }
{
    Point {
        i: octets[0].cast_signed(),
        q: octets[1].cast_signed(),
    }
}

// The stream of a symbol's point by its place, counted from 1.
fn stream(rate: &Rate, place: usize) -> u8
    ensures value { result ≡ place % streams_of rate.now + 1 }
    ensures low { 1 ≤ result }
    ensures high { result ≤ streams_of rate.now }
{
    (place % usize::from(rate.streams())) as u8 + 1
}

/// Whether a symbol's point fits its place: it is on the constellation, or it is the pilot's.
pub(crate) fn is_fitting(
    rate: &Rate,
    symbol: u32,
    carrier: Carrier,
    place: usize,
    point: Point,
) -> bool
    requires { IsAmong rate.now carrier }
    ensures { result ≡ fits_carrier rate.now symbol carrier (place % streams_of rate.now + 1) point }
{
    match carrier {
        Carrier::Data(_) => label(rate.modulation(), point).is_some(),
        Carrier::Pilot(index) => {
            point.i == pilot(rate, symbol, index, stream(rate, place)) && point.q == 0
        }
    }
}

/// The kind of fault of a point on a subcarrier.
pub(crate) fn fault_kind(carrier: Carrier) -> Kind
    ensures { result ≡ kind_on carrier }
{
    match carrier {
        Carrier::Data(_) => Kind::BadPoint,
        Carrier::Pilot(_) => Kind::BadPilot,
    }
}

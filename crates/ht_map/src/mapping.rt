//! From labels to points and back.
ghost use Rattle.std.specs.Prelude.{◌≡◌, ◌/◌, ◌<◌, ◌≤◌, ◌^◌, ◌↔◌, IfSome, IsNone};
ghost use Rattle.ht_rate.specs.Schemes.{bits_of};
ghost use Rattle.ht_map.specs.Axes.{IsSize, axis_of};
ghost use Rattle.ht_map.specs.Constellation.{IsOff};
ghost use Rattle.ht_map.specs.Gray.{i_axis, joined, label_of, point_of, q_axis, q_levels};

use crate::axis::{bits_naming, level_of};
use ht_pam::Point;
use ht_rate::Modulation;

/// The constellation point of a label (clause 20.3.11.9).
///
/// `label` has N_BPSCS bits, the first one the most significant. In 64-QAM label 100000 is I = 7 and Q = -7.
#[tactic(auto, unfolding(crate::specs::Gray::point_of))]
pub fn point(modulation: Modulation, label: u8) -> Point
    requires { label < 2 ^ bits_of modulation }
    ensures { result ≡ point_of modulation label }
{
    let levels = q_levels_of(modulation);
    Point {
        i: level_of(label / levels, i_levels_of(modulation)),
        q: level_of(label % levels, levels),
    }
}

/// The label of a point, or `None` exactly where the point is off the constellation (clause 20.3.11.9).
///
/// In BPSK a point whose Q is not 0 is off it.
#[tactic(auto, using(crate::proofs::LabelFacts::back_and_forth), unfolding(crate::specs::Gray::label_of))]
pub fn label(modulation: Modulation, point: Point) -> Option<u8>
    ensures value { result ≡ label_of modulation point }
    ensures on { IfSome result (λ label.
        (label < 2 ^ bits_of modulation) × (point_of modulation label ≡ point)) }
    ensures off { IsNone result ↔ IsOff modulation point }
{
    let levels = q_levels_of(modulation);
    let i = bits_naming(point.i, i_levels_of(modulation));
    let q = bits_naming(point.q, levels);
    join(i, q, levels)
}

// The number of levels of I.
#[tactic(auto, unfolding(crate::specs::Axes::axis_of))]
fn i_levels_of(modulation: Modulation) -> u8
    ensures value { result ≡ 2 ^ bits_of modulation / q_levels modulation }
    ensures size { IsSize result }
    ensures axis { axis_of result ≡ i_axis modulation }
{
    match modulation {
        Modulation::Bpsk | Modulation::Qpsk => 2,
        Modulation::Qam16 => 4,
        Modulation::Qam64 => 8,
    }
}

// The number of levels of Q.
#[tactic(auto, unfolding(crate::specs::Axes::axis_of))]
fn q_levels_of(modulation: Modulation) -> u8
    ensures value { result ≡ q_levels modulation }
    ensures size { IsSize result }
    ensures axis { axis_of result ≡ q_axis modulation }
{
    match modulation {
        Modulation::Bpsk => 1,
        Modulation::Qpsk => 2,
        Modulation::Qam16 => 4,
        Modulation::Qam64 => 8,
    }
}

// The label of the bits of I and those of Q, which has this number of levels.
fn join(i: Option<u8>, q: Option<u8>, levels: u8) -> Option<u8>
    requires i { IfSome i (λ bits. bits < 8) }
    requires q { IfSome q (λ bits. bits < 8) }
    requires levels { levels ≤ 8 }
    ensures { result ≡ joined levels i q }
{
    Some(i? * levels + q?)
}

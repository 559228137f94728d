//! The subcarriers of a frame that are present.
ghost use Rattle.std.specs.Prelude.{◌≡◌, ◌<◌, ◌≤◌, ◌++◌, false, All, length, map, IfOk, OnOk};
ghost use Rattle.ht_rate.specs.Carriers.{carrier_of};
ghost use Rattle.ht_rate.specs.Rates.{carriers_of, streams_of};
ghost use Rattle.ht_capture.specs.Contents.{seen};
ghost use Rattle.ht_capture.specs.Files.{FitsFrame, is_erased as erased_at, present_of, triangles_behind};
ghost use Rattle.ht_certify.specs.Making.{has_data, subcarrier_of, subcarriers_of};

use ht_capture::CaptureFrame;
use ht_metric::Triangle;
use ht_rate::{Carrier, Rate};
use std::alloc::AllocError;

/// A subcarrier that is present.
#[derive(Clone, Copy, Debug)]
pub struct Subcarrier {
    /// Whether it carries data: else it is a pilot.
    pub carries_data: bool,
    /// The channel on it.
    pub triangle: Triangle,
}

// Whether a subcarrier carries data.
fn carries_data(rate: &Rate, carrier: u8) -> bool
    requires { carrier < carriers_of rate.now }
    ensures { result ≡ has_data (carrier_of rate.now carrier) }
{
    matches!(rate.carrier(carrier), Carrier::Data(_))
}

// Whether a subcarrier is erased.
fn is_erased(erased: u128, carrier: u8) -> bool
    requires { carrier < 128 }
    ensures { result ≡ erased_at erased carrier }
{
    erased >> carrier & 1 == 1
}

// Adds a subcarrier where it is present, with the first of these triangles, and gives the triangles of those behind it.
fn add<'a>(
    rate: &Rate,
    erased: bool,
    carrier: u8,
    triangles: &'a [Triangle],
    into: &mut Vec<Subcarrier>,
) -> Result<&'a [Triangle], AllocError>
    requires carrier { carrier < carriers_of rate.now }
    requires some { erased ≡ false → 0 < length triangles.now }
    ensures added { OnOk result (into.new.items ≡ into.old.items ++ map (subcarrier_of rate.now) (seen erased carrier triangles.now)) }
    ensures behind { IfOk result (λ behind. behind.now ≡ triangles_behind erased triangles.now) }
{
    if erased {
        return Ok(triangles);
    }
    into.push(Subcarrier {
        carries_data: carries_data(rate, carrier),
        triangle: triangles[0],
    })?;
    Ok(&triangles[1..])
}

/// Lists the subcarriers of a frame that are present, in ascending order, in the memory of a vector, whatever that held.
pub fn gather_subcarriers(
    frame: &CaptureFrame,
    into: &mut Vec<Subcarrier>,
) -> Result<(), AllocError>
    requires fits { FitsFrame frame.now }
    ensures listed { OnOk result (into.new.items ≡ subcarriers_of frame.now) }
    ensures present { OnOk result (length into.new.items ≡ present_of frame.now) }
    ensures few { OnOk result (length into.new.items ≤ carriers_of frame.now.rate) }
    ensures streams { OnOk result (All (λ s. length s.triangle ≡ streams_of frame.now.rate) into.new.items) }
{
    into.clear();
    let mut triangles = frame.triangles.as_slice();
    for carrier in 0..frame.rate.carriers() {
        let erased = is_erased(frame.erased, carrier);
        match add(&frame.rate, erased, carrier, triangles, into) {
            Ok(behind) => triangles = behind,
            Err(fault) => return Err(fault),
        }
    }
    Ok(())
}

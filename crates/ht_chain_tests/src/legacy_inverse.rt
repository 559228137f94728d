//! Frames of the transmitter, with and without wrong labels.
ghost use Rattle.std.specs.Prelude.{◌≡◌, ◌≤◌};
ghost use Rattle.ht_legacy_inverse.specs.Received.{labels_in_frame};

use crate::equal::equal;
use ht_clause18::{LegacyFrame, LegacyRate, legacy_transmit};
use ht_inverse::Outcome;
use ht_legacy_inverse::legacy_decode_frame;
use ht_map::label;
use ht_scramble::Seed;
use std::test::Fail;

// A PSDU.
static OCTETS: [u8; 20] = [
    0x04, 0x02, 0x00, 0x2e, 0x00, 0x60, 0x08, 0xcd, 0x37, 0xa6, 0x00, 0x20, 0xd6, 0x01, 0x3c, 0xf1,
    0x00, 0x60, 0x08, 0xad,
];

// The labels of a frame's points.
fn sent_labels(rt: &HostRuntime, rate: LegacyRate) -> Result<Vec<u8>, Fail> {
    let seed = Seed::new(93).ok_or("a seed")?;
    let frame = LegacyFrame::new(rate, seed, OCTETS.to_vec(rt.alloc())?).ok_or("a frame")?;
    let points = legacy_transmit(rt.alloc(), &frame)?;
    let pilots = [5, 19, 32, 46];
    let mut labels = Vec::new(rt.alloc());
    for (k, point) in points.iter().enumerate() {
        if !pilots.contains(&(k % 52)) {
            labels.push(label(rate.modulation(), *point).ok_or("a label")?)?;
        }
    }
    Ok(labels)
}

// The number of labels of a frame.
fn count_of(rate: LegacyRate, octets: u16) -> usize
    requires { (1 ≤ octets) × (octets ≤ 4095) }
    ensures { result ≡ labels_in_frame rate octets }
{
    rate.symbols(octets) as usize * 48
}

// Whether labels come to the octets, and how far off they are.
fn decoded(rt: &HostRuntime, rate: LegacyRate, labels: &[u8]) -> Result<(bool, u32), Fail> {
    if labels.len() != count_of(rate, 20) {
        return Ok((false, 0));
    }
    let frame = legacy_decode_frame(rt.alloc(), rate, 20, labels)?;
    match &frame.outcome {
        Outcome::Octets(octets) => Ok((octets.as_slice() == OCTETS.as_slice(), frame.code)),
        Outcome::SeedZero => Ok((false, frame.code)),
    }
}

// What was sent comes back at every rate, also with one wrong bit.
#[test]
fn come_back(rt: HostRuntime) -> Result<(), Fail> {
    for index in 0..8 {
        let rate = LegacyRate::of(index).ok_or("a rate")?;
        let mut labels = sent_labels(&rt, rate)?;
        let right = decoded(&rt, rate, &labels)?;
        if labels.len() > 7 {
            labels[7] ^= 1;
        }
        let wrong = decoded(&rt, rate, &labels)?;
        equal(&rt, (index, right, wrong), (index, (true, 0), (true, 1)));
    }
    Ok(())
}

#[test]
fn no_seed(rt: HostRuntime) -> Result<(), Fail> {
    let labels = Vec::from_elem(rt.alloc(), 0u8, count_of(LegacyRate::Mbit24, 3))?;
    let frame = legacy_decode_frame(rt.alloc(), LegacyRate::Mbit24, 3, &labels)?;
    let no_seed = matches!(frame.outcome, Outcome::SeedZero);
    equal(&rt, (frame.code, no_seed), (0, true));
    Ok(())
}

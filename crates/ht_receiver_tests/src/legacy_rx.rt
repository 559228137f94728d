//! A capture of the transmitter's points, with a wrong sample, by one worker and by several.
use crate::common::{Harm, push_times};
use crate::equal::equal;
use ht_clause18::{LegacyFrame, LegacyRate, legacy_transmit};
use ht_feed::OpenGate;
use ht_legacy_rx::legacy_receive;
use ht_pam::Point;
use ht_scramble::Seed;
use std::alloc::{AllocError, Global};
use std::test::Fail;

// The points of a frame of the rate of this index.
fn sent(alloc: Global, index: u8, octets: &[u8]) -> Result<Vec<Point>, Fail> {
    let rate = LegacyRate::of(index).ok_or("a rate")?;
    let seed = Seed::new(93).ok_or("a seed")?;
    let frame = LegacyFrame::new(rate, seed, octets.to_vec(alloc)?).ok_or("a frame")?;
    Ok(legacy_transmit(alloc, &frame)?)
}

// Appends a frame of this rate and length over diagonals of 1, whose samples are its points.
fn push_frame(
    capture: &mut Vec<u8>,
    index: u8,
    length: u8,
    points: &[Point],
) -> Result<(), AllocError> {
    capture.extend_from_slice(&[index, 0, length])?;
    push_times(capture, 52, &[0, 1])?;
    for point in points {
        capture.extend_from_slice(&i32::from(point.i).to_be_bytes())?;
        capture.extend_from_slice(&i32::from(point.q).to_be_bytes())?;
    }
    Ok(())
}

// A frame at 9 Mbit/s and one at 54 Mbit/s. In the first symbol of the first one the imaginary part is 3 on the lowest
// subcarrier, which has data, and 2 on the highest pilot.
fn two_frames(alloc: Global) -> Result<Vec<u8>, Fail> {
    let mut octets = b"LGCP\x01\x00\x02".to_vec(alloc)?;
    let points = sent(alloc, 1, &[0x04, 0x02, 0x00, 0x2e])?;
    push_frame(&mut octets, 1, 4, &points)?;
    push_frame(&mut octets, 7, 1, &sent(alloc, 7, &[0xa5])?)?;
    if let Some(octet) = octets.get_mut(7 + 107 + 7) {
        *octet = 3;
    }
    if let Some(octet) = octets.get_mut(7 + 107 + 46 * 8 + 7) {
        *octet = 2;
    }
    Ok(octets)
}

static LINES: [u8; 99] = *b"frame 0 data 9 pilot 4 code 0 octets 0402002e
frame 1 data 0 pilot 0 code 0 octets a5
end 2 frames
";

#[test]
fn two_rates(rt: HostRuntime) -> Result<(), Fail> {
    let alloc = rt.alloc();
    let octets = two_frames(alloc)?;
    for workers in [1, 2] {
        let mut source = Harm::None.source(alloc, &octets)?;
        let mut sink = Harm::None.sink(alloc)?;
        let frames = legacy_receive(&rt, alloc, workers, 16, &mut source, &mut sink, &OpenGate);
        equal(
            &rt,
            (workers, frames, sink.held()),
            (workers, Ok(2), LINES.as_slice()),
        );
    }
    Ok(())
}

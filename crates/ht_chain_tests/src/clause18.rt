//! Frames whose points are known, each call with ample memory.
use crate::equal::equal;
use ht_clause18::{LegacyFrame, LegacyRate, legacy_transmit};
use ht_pam::Point;
use ht_scramble::Seed;
use std::test::Fail;

// The PSDU of annex L.1: a MAC header of 24 octets, 72 octets of text and the FCS.
static EXAMPLE: [u8; 100] =
    *b"\x04\x02\x00\x2e\x00\x60\x08\xcd\x37\xa6\x00\x20\xd6\x01\x3c\xf1\x00\x60\x08\xad\x3b\xaf\x00\x00\
    Joy, bright spark of divinity,\n\
    Daughter of Elysium,\nFire-insired we trea\x67\x33\x21\xb6";

// Its first symbol, from subcarrier -26 up: I, and Q.
static EXAMPLE_POINTS: [[i8; 52]; 2] = [
    [
        -1, -1, 1, -3, 1, 1, 1, 1, -1, -1, -3, -3, -3, 3, 1, -3, -3, -3, -3, 1, 3, 3, -3, 1, -3,
        -3, -1, 1, -3, 3, 1, -1, 1, -1, 3, -3, 3, -1, 3, 3, 3, -1, -3, -3, -3, -3, -1, 1, 3, -3,
        -1, 1,
    ],
    [
        1, 1, 1, -3, 3, 0, 1, -3, -3, 1, 1, -3, -3, 1, 1, -1, -1, -1, -3, 0, -1, 3, -1, -1, -1, 3,
        3, 3, 1, -3, 1, -1, 0, 3, -1, -1, 1, 3, 1, -1, -3, -3, 1, -3, -3, -3, 0, -1, 1, 1, 3, -1,
    ],
];

// The data subcarriers of symbol 0 of the octet a5 with seed 127 at 6 Mbit/s.
static ONE_OCTET: [u8; 48] = *b"011010011011001000010010110100110001000110000101";

// The points of a frame of the rate of this index.
fn sent(rt: &HostRuntime, index: u8, seed: u8, octets: &[u8]) -> Result<Vec<Point>, Fail> {
    let rate = LegacyRate::of(index).ok_or("a rate")?;
    let seed = Seed::new(seed).ok_or("a seed")?;
    let frame = LegacyFrame::new(rate, seed, octets.to_vec(rt.alloc())?).ok_or("a frame")?;
    Ok(legacy_transmit(rt.alloc(), &frame)?)
}

// IEEE Std 802.11-2012, annex L.1: 100 octets at 36 Mbit/s, the first state of the scrambler 1011101.
#[test]
fn annex(rt: HostRuntime) -> Result<(), Fail> {
    let points = sent(&rt, 5, 0b1011101, &EXAMPLE)?;
    equal(&rt, points.len(), 6 * 52);
    let [parts, others] = &EXAMPLE_POINTS;
    for (k, (point, (i, q))) in points.iter().zip(parts.iter().zip(others)).enumerate() {
        equal(&rt, (k, *point), (k, Point { i: *i, q: *q }));
    }
    Ok(())
}

#[test]
fn one_octet(rt: HostRuntime) -> Result<(), Fail> {
    let rate = LegacyRate::of(0).ok_or("a rate")?;
    equal(&rt, (rate.symbols(1), rate.pads(1)), (2, 18));
    let points = sent(&rt, 0, 127, &[0xa5])?;
    equal(&rt, points.len(), 2 * 52);
    let pilots = [5, 19, 32, 46];
    let mut data = points
        .iter()
        .enumerate()
        .filter(|(k, _)| !pilots.contains(k));
    for bit in &ONE_OCTET {
        let i = if *bit == b'1' { 1 } else { -1 };
        let (k, point) = data.next().ok_or("a point")?;
        equal(&rt, (k, *point), (k, Point { i, q: 0 }));
    }
    Ok(())
}

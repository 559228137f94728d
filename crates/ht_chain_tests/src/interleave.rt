//! Outside values, through the public calls.
use crate::equal::equal;
use ht_interleave::{deinterleave, interleave, origin, place};
use ht_rate::Rate;

// The code of the bandwidth, the MCS index, the stream, a bit and its place.
static PLACES: [(u8, u8, u8, u16, u16); 10] = [
    (0, 24, 1, 1, 4),
    (0, 24, 2, 1, 34),
    (0, 24, 3, 1, 45),
    (0, 24, 4, 1, 23),
    (0, 13, 1, 1, 26),
    (0, 13, 2, 1, 206),
    (1, 31, 3, 1, 512),
    (1, 31, 4, 1, 164),
    (1, 31, 3, 647, 471),
    (1, 31, 4, 647, 123),
];

// Where bit k of a stream lands, and from where the bit at r comes, if the rate has them.
fn ways(bw: u8, mcs: u8, stream: u8, k: u16, r: u16) -> Option<(u16, u16)> {
    let rate = Rate::of(bw, mcs).ok()?;
    if 1 <= stream && stream <= rate.streams() && k < rate.stream_bits() && r < rate.stream_bits() {
        return Some((place(&rate, stream, k), origin(&rate, stream, r)));
    }
    None
}

#[test]
fn smoke(rt: HostRuntime) {
    for &(bw, mcs, stream, k, r) in &PLACES {
        let answer = ways(bw, mcs, stream, k, r);
        equal(&rt, (mcs, stream, answer), (mcs, stream, Some((r, k))));
    }
}

// Coded bits of two symbols of BPSK at 20 MHz, and the same interleaved.
static BLOCKS: [(&[u8; 52], &[u8; 52]); 2] = [
    (
        b"0000000011100101111100111010010010111000000100010010",
        b"0110000001000110010101000110000010111110111001010000",
    ),
    (
        b"0111000011011111111100001000111101001101011100000100",
        b"0101110011111111011101100100001010001000001111101000",
    ),
];

#[test]
fn vectors(rt: HostRuntime) {
    let Ok(rate) = Rate::of(0, 0) else {
        assert!(rt; false);
        return;
    };
    assert_eq!(rt; (rate.streams(), rate.stream_bits()), (1, 52));
    for (before, after) in &BLOCKS {
        let (coded, wanted) = (bits(before), bits(after));
        let mut places = [false; 52];
        interleave(&rate, 1, &coded, &mut places);
        let mut again = [false; 52];
        deinterleave(&rate, 1, &places, &mut again);
        equal(&rt, (places, again), (wanted, coded));
    }
}

fn bits(text: &[u8; 52]) -> [bool; 52] {
    let mut bits = [false; 52];
    for (i, digit) in text.iter().enumerate() {
        bits[i] = *digit == b'1';
    }
    bits
}

use crate::equal::equal;
use ht_conv::{Kept, encode, kept_at, sent};
use ht_rate::Pattern;
use std::test::Fail;

// The bits of a text of zeros and ones, in which blanks count for nothing.
fn bits(rt: &HostRuntime, text: &str) -> Result<Vec<bool>, Fail> {
    let mut bits = Vec::new(rt.alloc());
    for digit in text.bytes() {
        if digit != b' ' {
            bits.push(digit == b'1')?;
        }
    }
    Ok(bits)
}

// An impulse at two rates, and the two symbols of a frame of 20 MHz, MCS 0, octet a5 and seed 127.
static VECTORS: [(Pattern, &str, &str); 3] = [
    (Pattern::Half, "1000000", "11 01 11 11 00 10 11"),
    (Pattern::ThreeQuarters, "1000000", "1101 1100 11"),
    (
        Pattern::Half,
        "00001110 11110010 01101100 00000010 00100110 00101110 1011",
        "00000000 11100101 11110011 10100100 10111000 00010001 0010 01110000 11011111 11110000 10001111 01001101 01110000 0100",
    ),
];

#[test]
fn vectors(rt: HostRuntime) -> Result<(), Fail> {
    for &(pattern, input, coded) in &VECTORS {
        let got = encode(rt.alloc(), bits(&rt, input)?.as_slice(), pattern)?;
        let wanted = bits(&rt, coded)?;
        equal(&rt, (input, got.as_slice()), (input, wanted.as_slice()));
    }
    Ok(())
}

#[test]
fn longest(rt: HostRuntime) {
    let pattern = Pattern::FiveSixths;
    equal(
        &rt,
        (sent(pattern, 262154), kept_at(pattern, 262154)),
        (314585, Kept::B),
    );
}

//! Values of the standard.
use crate::equal::equal;
use ht_scramble::{Seed, polarity, recover, scramble};

// The beginning of the sequence of the all-ones state.
const BEGINNING: &str = "0000111011110010110010010000001000100110001011101011";

// Symbols and the signs of their pilots.
static SIGNS: [(u32, i8); 8] = [
    (0, 1),
    (3, 1),
    (4, -1),
    (7, 1),
    (8, -1),
    (126, -1),
    (127, 1),
    (131, -1),
];

#[test]
fn vectors(rt: HostRuntime) {
    let seed = Seed::new(127).expect(&rt, "a seed");
    let mut bits = [false; 52];
    scramble(&mut bits, seed);
    for (t, (bit, one)) in bits.iter().zip(BEGINNING.as_bytes()).enumerate() {
        equal(&rt, (t, *bit), (t, *one == b'1'));
    }
    let recovered = recover(&[false, false, false, false, true, true, true]);
    equal(&rt, recovered, Some(seed));
    for &(n, sign) in &SIGNS {
        equal(&rt, (n, polarity(n)), (n, sign));
    }
}

#[test]
fn refusals(rt: HostRuntime) {
    equal(&rt, recover(&[false; 7]), None);
    for (value, is_seed) in [
        (0, false),
        (1, true),
        (127, true),
        (128, false),
        (255, false),
    ] {
        equal(&rt, (value, Seed::new(value).is_some()), (value, is_seed));
    }
}

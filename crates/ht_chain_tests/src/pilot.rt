//! Pilots of the header's end, of two streams and round the wrap of the polarity.
use crate::equal::equal;
use ht_pilot::pilot;
use ht_rate::Rate;

// One row: code of the bandwidth, MCS; symbol, stream; pilots with their values.
type Row = ((u8, u8), (u32, u8), &'static [(u8, i8)]);

static ROWS: [Row; 8] = [
    // 20 MHz and one stream, the first two symbols.
    ((0, 0), (0, 1), &[(0, 1), (1, 1), (2, 1), (3, -1)]),
    ((0, 0), (1, 1), &[(0, -1), (1, -1), (2, 1), (3, -1)]),
    // Two streams.
    ((0, 8), (0, 1), &[(0, 1), (2, 1), (3, -1)]),
    ((0, 8), (0, 2), &[(0, 1), (2, -1), (3, 1)]),
    // 40 MHz and four streams, where the polarity comes again.
    ((1, 31), (123, 1), &[(0, -1), (2, 1)]),
    ((1, 31), (123, 4), &[(5, 1)]),
    ((1, 31), (124, 3), &[(5, -1)]),
    ((1, 31), (124, 4), &[(5, 1)]),
];

// What stands on a pilot of a symbol and a stream, if there is such a pilot.
fn value_of((bandwidth, mcs): (u8, u8), (symbol, stream): (u32, u8), index: u8) -> Option<i8> {
    let rate = Rate::of(bandwidth, mcs).ok()?;
    if index < rate.pilots() && 1 <= stream && stream <= rate.streams() {
        return Some(pilot(&rate, symbol, index, stream));
    }
    None
}

#[test]
fn vectors(rt: HostRuntime) {
    for &(rate, at, values) in &ROWS {
        for &(index, value) in values {
            let found = value_of(rate, at, index);
            equal(
                &rt,
                (rate, at, index, found),
                (rate, at, index, Some(value)),
            );
        }
    }
}

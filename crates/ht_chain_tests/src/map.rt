use crate::equal::equal;
use ht_map::{grid, label, point};
use ht_pam::Point;
use ht_rate::{Modulation, Rate};

// A point, by its I and its Q, and its label.
static LABELS: [(Modulation, i8, i8, Option<u8>); 17] = [
    (Modulation::Bpsk, -1, 0, Some(0b0)),
    (Modulation::Bpsk, 1, 0, Some(0b1)),
    (Modulation::Qpsk, -1, 1, Some(0b01)),
    (Modulation::Qpsk, 1, -1, Some(0b10)),
    (Modulation::Qam16, -1, 1, Some(0b0111)),
    (Modulation::Qam16, 1, 1, Some(0b1111)),
    (Modulation::Qam16, -3, -3, Some(0b0000)),
    (Modulation::Qam16, 1, 3, Some(0b1110)),
    (Modulation::Qam64, 7, -7, Some(0b100000)),
    (Modulation::Qam64, -5, 5, Some(0b001101)),
    (Modulation::Qam64, -1, 1, Some(0b010110)),
    (Modulation::Bpsk, 1, 1, None),
    (Modulation::Bpsk, 0, 0, None),
    (Modulation::Qpsk, 1, 0, None),
    (Modulation::Qam16, -3, 5, None),
    (Modulation::Qam64, 2, 1, None),
    (Modulation::Qam64, 7, -9, None),
];

#[test]
fn labels(rt: HostRuntime) {
    for &(modulation, i, q, name) in &LABELS {
        let point = Point { i, q };
        equal(&rt, (point, label(modulation, point)), (point, name));
    }
}

#[test]
fn points(rt: HostRuntime) {
    equal(&rt, point(Modulation::Bpsk, 0b1), Point { i: 1, q: 0 });
    equal(&rt, point(Modulation::Qpsk, 0b10), Point { i: 1, q: -1 });
    equal(&rt, point(Modulation::Qam16, 0b0111), Point { i: -1, q: 1 });
    equal(
        &rt,
        point(Modulation::Qam64, 0b100000),
        Point { i: 7, q: -7 },
    );
}

// A rate by the code of its bandwidth and its MCS, a stream, one of its axes and a level; the streams, and whether the
// axis has the level.
static LEVELS: [((u8, u8), (u8, bool, i8), (u8, bool)); 6] = [
    ((0, 11), (2, false, -3), (2, true)),
    ((0, 11), (1, true, 1), (2, true)),
    ((0, 11), (2, true, 5), (2, false)),
    ((1, 0), (1, false, -1), (1, true)),
    ((1, 0), (1, true, 0), (1, true)),
    ((1, 0), (1, true, 1), (1, false)),
];

// The streams of a rate's grid, and whether the stream has the level on this axis.
fn has((bandwidth, mcs): (u8, u8), (stream, is_q, level): (u8, bool, i8)) -> Option<(u8, bool)> {
    let grid = grid(&Rate::of(bandwidth, mcs).ok()?);
    if stream < 1 || stream > grid.streams() {
        return None;
    }
    let ladder = if is_q {
        grid.q_ladder(stream)
    } else {
        grid.i_ladder(stream)
    };
    Some((grid.streams(), ladder.has(level)))
}

#[test]
fn grids(rt: HostRuntime) {
    for &(rate, asked, answer) in &LEVELS {
        equal(&rt, (asked, has(rate, asked)), (asked, Some(answer)));
    }
}

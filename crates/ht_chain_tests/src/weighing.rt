//! All weights of a job against those of its halves, of which every vector is tried.
ghost use Rattle.std.specs.Prelude.{◌≡◌, ◌≤◌, ◌*◌, length, replicate, IfOk};
ghost use Rattle.ht_rate.specs.Schemes.{bits_of};
ghost use Rattle.ht_map.specs.Constellation.{axes_of};

use crate::equal::equal;
use ht_map::grid;
use ht_metric::{Job, Place, Sample, System, Tap, Triangle, plain_nearest};
use ht_rate::{Modulation, Rate};
use ht_soft::{half, weight};
use ht_weigh::weigh;
use std::alloc::{AllocError, Global};
use std::test::Fail;

// A job of one or two streams at an MCS: its diagonals, its entry and its samples, each by its parts.
type Received = (u8, [u16; 2], (i16, i16), [(i32, i32); 2]);

const LEAST: i32 = -2147483648;

const MOST: i32 = 2147483647;

// Rows of zeros, ties, the ends of all ranges, and weights next to the cut.
const RECEIVED: [Received; 25] = [
    (0, [0, 0], (0, 0), [(0, 0), (0, 0)]),
    (0, [10, 0], (0, 0), [(3, -4), (0, 0)]),
    (0, [65535, 0], (0, 0), [(LEAST, MOST), (0, 0)]),
    (0, [128, 0], (0, 0), [(127, 0), (0, 0)]),
    (0, [128, 0], (0, 0), [(128, 0), (0, 0)]),
    (1, [127, 0], (0, 0), [(129, -128), (0, 0)]),
    (3, [2, 0], (0, 0), [(3, -7), (0, 0)]),
    (3, [64, 0], (0, 0), [(-128, 129), (0, 0)]),
    (5, [0, 0], (0, 0), [(MOST, LEAST), (0, 0)]),
    (5, [1, 0], (0, 0), [(0, 0), (0, 0)]),
    (5, [65535, 0], (0, 0), [(-393210, 1), (0, 0)]),
    (5, [91, 0], (0, 0), [(-1, 500), (0, 0)]),
    (8, [0, 0], (0, 0), [(0, 0), (0, 0)]),
    (8, [3, 0], (8, 0), [(0, 0), (1, 0)]),
    (
        8,
        [0, 65535],
        (32767, -32768),
        [(LEAST, LEAST), (MOST, MOST)],
    ),
    (9, [0, 0], (10, 0), [(10, -10), (0, 0)]),
    (9, [10, 1], (10, 0), [(-20, 0), (1, 0)]),
    (9, [65535, 65535], (-32768, -32768), [(MOST, LEAST), (0, 1)]),
    (9, [90, 91], (3, -5), [(7, 80), (-95, 92)]),
    (9, [181, 0], (181, 0), [(0, 0), (5, -5)]),
    (11, [0, 0], (0, 0), [(7, -7), (1, 2)]),
    (11, [3, 5], (-2, 4), [(9, -1), (-14, 6)]),
    (11, [0, 40], (25, -13), [(100, 60), (-81, 39)]),
    (
        11,
        [65535, 1],
        (32767, 32767),
        [(LEAST, MOST), (MOST, LEAST)],
    ),
    (11, [64, 63], (-1, 1), [(2, -130), (127, 0)]),
];

const PLACE: Place = Place {
    frame: 0,
    symbol: 0,
    carrier: 0,
};

fn sample(parts: (i32, i32)) -> Sample {
    Sample {
        re: parts.0,
        im: parts.1,
    }
}

// The triangle and the samples of one stream or two.
fn system_of(streams: u8, received: &Received) -> System
    requires some { 1 ≤ streams }
    requires few { streams ≤ 2 }
    ensures { length result ≡ streams }
{
    let none = Sample { re: 0, im: 0 };
    let no_tap = Tap { re: 0, im: 0 };
    let (_, d, entry, y) = *received;
    if streams == 1 {
        let triangle = Triangle::new(1, [d[0], 0, 0, 0], [no_tap; 6]);
        return System::new(triangle, [sample(y[0]), none, none, none]);
    }
    let tap = Tap {
        re: entry.0,
        im: entry.1,
    };
    let above = [tap, no_tap, no_tap, no_tap, no_tap, no_tap];
    let triangle = Triangle::new(2, [d[0], d[1], 0, 0], above);
    System::new(triangle, [sample(y[0]), sample(y[1]), none, none])
}

// The weights of a job, bit by bit from all vectors of both halves.
fn weights_of_halves(
    alloc: Global,
    modulation: Modulation,
    job: &Job,
) -> Result<Vec<i32>, AllocError>
    requires full { job.now.grid ≡ replicate (length job.now.grid) (axes_of modulation) }
{
    let mut weights = Vec::new(alloc);
    for stream in 1..job.grid().streams() + 1 {
        for bit in 0..modulation.label_bits() {
            let zero = plain_nearest(&half(modulation, job, 0, stream, bit, false));
            let one = plain_nearest(&half(modulation, job, 0, stream, bit, true));
            weights.push(weight(zero.distance(), one.distance()))?;
        }
    }
    Ok(weights)
}

// The weights of a job by one search.
fn weights_of(alloc: Global, modulation: Modulation, job: &Job) -> Result<Vec<i32>, AllocError>
    requires full { job.now.grid ≡ replicate (length job.now.grid) (axes_of modulation) }
{
    let count = usize::from(job.system().streams()) * usize::from(modulation.label_bits());
    let mut weights = Vec::from_elem(alloc, 0i32, count)?;
    weigh(modulation, job, weights.as_mut_slice());
    Ok(weights)
}

// Both, of a job of one stream or two; none of other rates.
fn both_ways(alloc: Global, received: &Received) -> Result<(Vec<i32>, Vec<i32>), Fail> {
    let rate = Rate::of(0, received.0)?;
    let grid = grid(&rate);
    let streams = grid.streams();
    if streams > 2 {
        return Ok((Vec::new(alloc), Vec::new(alloc)));
    }
    let job = Job::new(0, PLACE, grid, system_of(streams, received));
    let modulation = rate.modulation();
    let found = weights_of(alloc, modulation, &job)?;
    Ok((found, weights_of_halves(alloc, modulation, &job)?))
}

#[test]
fn hostile(rt: HostRuntime) -> Result<(), Fail> {
    for received in RECEIVED {
        let (found, wanted) = both_ways(rt.alloc(), &received)?;
        equal(
            &rt,
            (received, found.as_slice()),
            (received, wanted.as_slice()),
        );
    }
    Ok(())
}

#[test]
fn by_hand(rt: HostRuntime) -> Result<(), Fail> {
    let (qam, _) = both_ways(rt.alloc(), &(3, [2, 0], (0, 0), [(3, -7), (0, 0)]))?;
    let (cut, _) = both_ways(rt.alloc(), &(0, [128, 0], (0, 0), [(128, 0), (0, 0)]))?;
    let (less, _) = both_ways(rt.alloc(), &(0, [128, 0], (0, 0), [(127, 0), (0, 0)]))?;
    let (two, _) = both_ways(
        rt.alloc(),
        &(9, [100, 200], (40, 0), [(180, -30), (170, 250)]),
    )?;
    equal(&rt, qam.as_slice(), [24, 8, -80, -24].as_slice());
    equal(
        &rt,
        two.as_slice(),
        [56000, -28000, 65535, 65535].as_slice(),
    );
    equal(
        &rt,
        (cut.as_slice(), less.as_slice()),
        ([65535].as_slice(), [65024].as_slice()),
    );
    Ok(())
}

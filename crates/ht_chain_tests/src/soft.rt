//! Weights of small captures by trying all vectors, and what they are decoded to, as other programs have it; each call with
//! ample memory.
ghost use Rattle.std.specs.Prelude.{◌≡◌, ◌*◌, ◌<◌, ◌≤◌, length, replicate};
ghost use Rattle.ht_rate.specs.Rates.{label_bits_of};
ghost use Rattle.ht_rate.specs.Schemes.{bits_of};
ghost use Rattle.ht_map.specs.Constellation.{axes_of};
ghost use Rattle.ht_inverse.specs.Received.{labels_in_frame};

use crate::equal::equal;
use ht_inverse::Outcome;
use ht_map::grid;
use ht_metric::{Job, Place, Sample, System, Tap, Triangle, plain_nearest};
use ht_rate::{Modulation, Pattern, Rate};
use ht_soft::{half, soft_decode, soft_frame, weight};
use std::alloc::{AllocError, Global};
use std::test::Fail;

// What was received on a data subcarrier of one stream: its diagonal, and the two parts of its sample.
type Received = (u16, i32, i32);

// What was received on all data subcarriers of a symbol: the diagonals, and the two parts of each sample.
type Symbol = ([u16; 52], [i32; 52], [i32; 52]);

// One symbol of 16-QAM at rate 1/2, small-mcs03.
static QAM16: Symbol = (
    [
        2, 0, 3, 0, 5, 8, 0, 2, 8, 1, 5, 2, 2, 2, 2, 2, 2, 5, 0, 2, 3, 8, 1, 0, 2, 2, 0, 3, 0, 0,
        2, 1, 2, 1, 1, 2, 2, 2, 8, 1, 2, 0, 0, 2, 1, 5, 0, 0, 3, 0, 0, 0,
    ],
    [
        40, 22, 16, 33, -40, 36, 16, -15, 30, -29, 24, -16, 3, 8, 27, 33, 15, -6, -6, 19, -25, -32,
        -33, -38, -40, 0, -34, -40, -6, 10, 40, 19, -6, -17, -5, -22, -35, 7, 30, 35, 23, 24, -39,
        -18, -26, 40, -29, 0, -24, 20, -34, -32,
    ],
    [
        29, -23, 16, 39, 37, -18, 1, 5, -36, -26, -13, 33, -7, -15, 13, 1, -19, 12, -1, -35, -26,
        -35, -1, 27, 35, -18, 32, 31, 24, -38, -33, -16, 10, -2, -37, 23, -12, -19, -21, -25, -36,
        -21, 27, 31, -18, -1, 15, -31, -17, -31, -31, -15,
    ],
);

// One symbol of 64-QAM at rate 2/3, small-mcs05.
static QAM64: Symbol = (
    [
        5, 1, 3, 8, 3, 5, 0, 2, 0, 0, 5, 3, 0, 2, 1, 0, 1, 5, 5, 1, 3, 0, 3, 0, 3, 2, 8, 2, 0, 2,
        2, 5, 8, 1, 2, 3, 0, 0, 1, 1, 3, 5, 2, 2, 0, 5, 1, 0, 5, 0, 8, 5,
    ],
    [
        -23, 29, -6, -17, 31, -26, -32, -26, -35, 11, 3, -14, -27, -9, -22, 6, -2, -22, -21, 23,
        -13, 16, 34, 24, 37, 1, -34, 28, -20, -4, -9, -27, 11, -13, 8, -20, 23, -26, -28, -4, -17,
        -5, -1, -25, 12, 25, -24, -37, -36, -24, -13, -13,
    ],
    [
        -25, 0, -31, -26, -9, 6, -7, 28, -5, -20, -38, 13, 8, 2, 0, 16, -30, -18, 40, 28, -18, 26,
        19, -35, 9, 39, -30, 5, -9, -15, 4, -1, 22, -3, -21, -35, 8, -30, -24, 0, -26, 35, -38,
        -26, 37, 27, -17, 26, 14, -8, 17, 31,
    ],
);

// The labels of BPSK of the octet a5 with seed 127 at MCS 0 of 20 MHz.
static ONE_OCTET: [&str; 2] = [
    "0110000001000110010101000110000010111110111001010000",
    "0101110011111111011101100100001010001000001111101000",
];

// The least distances of the halves for 0 and for 1 of a bit of the first stream's label, by trying all vectors of both.
fn least(modulation: Modulation, job: &Job, bit: u8) -> (u128, u128)
    requires full { job.now.grid ≡ replicate (length job.now.grid) (axes_of modulation) }
    requires bit { bit < bits_of modulation }
{
    let _streams = job.grid().streams(); // at least one, which only the proof asks for
    let zero = plain_nearest(&half(modulation, job, 0, 1, bit, false));
    let one = plain_nearest(&half(modulation, job, 1, 1, bit, true));
    (zero.distance(), one.distance())
}

// Appends the least distances of both halves of each bit of a data subcarrier of one stream.
fn push_least(
    distances: &mut Vec<(u128, u128)>,
    rate: &Rate,
    received: Received,
) -> Result<(), AllocError> {
    let (diagonal, re, im) = received;
    let grid = grid(rate);
    if grid.streams() != 1 {
        return Ok(());
    }
    let triangle = Triangle::new(1, [diagonal, 0, 0, 0], [Tap { re: 0, im: 0 }; 6]);
    let none = Sample { re: 0, im: 0 };
    let system = System::new(triangle, [Sample { re, im }, none, none, none]);
    let place = Place {
        frame: 0,
        symbol: 0,
        carrier: 0,
    };
    let job = Job::new(0, place, grid, system);
    let modulation = rate.modulation();
    for bit in 0..modulation.label_bits() {
        distances.push(least(modulation, &job, bit))?;
    }
    Ok(())
}

// The weights of halves with these least distances.
fn weigh(alloc: Global, distances: &[(u128, u128)]) -> Result<Vec<i32>, AllocError> {
    let mut weights = Vec::new(alloc);
    for (zero, one) in distances {
        weights.push(weight(*zero, *one))?;
    }
    Ok(weights)
}

// The weights of a symbol.
fn weights_of(alloc: Global, rate: &Rate, symbol: &Symbol) -> Result<Vec<i32>, AllocError> {
    let (diagonals, re, im) = symbol;
    let mut distances = Vec::new(alloc);
    for k in 0..52 {
        push_least(&mut distances, rate, (diagonals[k], re[k], im[k]))?;
    }
    weigh(alloc, &distances)
}

// The number of label bits of a frame.
fn count_of(rate: &Rate, octets: u16) -> usize
    requires { 1 ≤ octets }
    ensures { result ≡ labels_in_frame rate.now octets * label_bits_of rate.now }
{
    let per_symbol = usize::from(rate.data_carriers()) * usize::from(rate.streams());
    rate.symbols(octets) as usize * per_symbol * usize::from(rate.label_bits())
}

// Whether the weights of a frame of one octet are decoded to these octets, where none stands for no seed, at this cost.
fn meets(
    rt: &HostRuntime,
    rate: &Rate,
    weights: &[i32],
    cost: u128,
    octets: &[u8],
) -> Result<bool, Fail> {
    if weights.len() != count_of(rate, 1) {
        return Ok(false);
    }
    let frame = soft_frame(rt.alloc(), rate, 1, 0, weights)?;
    let same = match &frame.outcome {
        Outcome::Octets(got) => got.as_slice() == octets,
        Outcome::SeedZero => octets.is_empty(),
    };
    Ok(same && frame.cost == cost)
}

#[test]
fn bits(rt: HostRuntime) -> Result<(), Fail> {
    let rate = Rate::of(0, 0)?;
    let mut distances = Vec::new(rt.alloc());
    for received in [(10, 3, -4), (10, 0, 0), (40000, 40000, 0), (40000, -1, 7)] {
        push_least(&mut distances, &rate, received)?;
    }
    equal(&rt, distances.first().copied(), Some((185, 65)));
    let weights = weigh(rt.alloc(), &distances)?;
    equal(&rt, weights.as_slice(), [120, 0, 65535, -65535].as_slice());
    Ok(())
}

#[test]
fn codeword(rt: HostRuntime) -> Result<(), Fail> {
    let weights = [9, 9, -1, 9, 9, 9, -1, -1, -1, -1, -1, -1, -1, -1];
    let cheapest = soft_decode(rt.alloc(), 7, Pattern::Half, &weights)?;
    let input = [true, false, false, false, false, false, false];
    let answer = (cheapest.input.as_slice(), cheapest.cost);
    equal(&rt, answer, (input.as_slice(), 5));
    Ok(())
}

#[test]
fn captures(rt: HostRuntime) -> Result<(), Fail> {
    for (mcs, symbol, cost, octets) in [(3, &QAM16, 1840, 0x83), (5, &QAM64, 12, 0xbf)] {
        let rate = Rate::of(0, mcs)?;
        let weights = weights_of(rt.alloc(), &rate, symbol)?;
        let met = meets(&rt, &rate, &weights, cost, &[octets])?;
        equal(&rt, (mcs, met), (mcs, true));
    }
    Ok(())
}

#[test]
fn noiseless(rt: HostRuntime) -> Result<(), Fail> {
    let rate = Rate::of(0, 0)?;
    let mut weights = Vec::new(rt.alloc());
    for line in ONE_OCTET {
        for digit in line.as_bytes() {
            weights.push(if *digit == b'1' { 400 } else { -400 })?;
        }
    }
    let zeros = Vec::from_elem(rt.alloc(), 0i32, weights.len())?;
    let met = [
        meets(&rt, &rate, &weights, 0, &[0xa5])?,
        meets(&rt, &rate, &zeros, 0, &[])?,
    ];
    equal(&rt, met, [true, true]);
    Ok(())
}

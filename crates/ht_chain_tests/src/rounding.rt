//! Hostile jobs, answered by lanes or the search, against the detector that tries all vectors.
ghost use Rattle.std.specs.Prelude.{◌≡◌, ◌<◌, length};

use ht_metric::{Found, Job, Place, Sample, System, Tap, Triangle, Vector, plain_nearest};
use ht_pam::{Grid, Ladder, Point, Steps};
use ht_rate::Modulation;
use ht_rounding::{find_eight, find_only, label_eight};
use std::marker::Brand;
use std::process::Abort;
use std::sync::ledger::{Blank, Ledger};

const NO_TAP: Tap = Tap { re: 0, im: 0 };

const NO_SAMPLE: Sample = Sample { re: 0, im: 0 };

// Diagonals and samples of eight jobs of one stream: ties, a zero row, diagonals beside 2^14 and at the end of their type,
// samples at the ends of theirs, and two that no noise moved far.
const HOSTILE: [(u16, i32, i32); 8] = [
    (10, 0, 20),
    (0, 3, -4),
    (16383, 16383, -16383),
    (16384, -32768, 49152),
    (65535, 2147483647, -2147483648),
    (1, -2147483648, 2147483647),
    (100, 315, -701),
    (16383, -114681, 114682),
];

fn answered<L: Ledger>(jobs: &[Job], blank: Blank) -> [Found; 8]
    requires jobs { length jobs.now ≡ 8 }
    requires name { blank.name ≡ L.name }
    requires parts { blank.parts ≡ L.parts }
    requires some { 0 < blank.parts }
{
    let mut steps = Steps::<L>::new(blank);
    let nothing = Found {
        vector: Vector::new(),
        distance: 0,
    };
    let mut founds = [nothing; 8];
    find_eight(jobs, &mut founds, &mut steps);
    founds
}

fn founds_of(jobs: &[Job]) -> [Found; 8]
    requires { length jobs.now ≡ 8 }
{
    answered::<Brand>(jobs, Blank::new(1))
}

// Each job is answered as the plain detector answers it.
fn expect(rt: &impl Abort, jobs: &[Job])
    requires { length jobs.now ≡ 8 }
{
    let founds = founds_of(jobs);
    for k in 0..8 {
        assert_eq!(rt; (k, founds[k]), (k, plain_nearest(&jobs[k]).found()));
    }
}

// A job of one stream.
fn single(row: (u16, i32, i32), grid: Grid) -> Job
    requires { length grid ≡ 1 }
{
    let (d, re, im) = row;
    let triangle = Triangle::new(1, [d, 0, 0, 0], [NO_TAP; 6]);
    let y = [Sample { re, im }, NO_SAMPLE, NO_SAMPLE, NO_SAMPLE];
    Job::new(0, Place::default(), grid, System::new(triangle, y))
}

// A job of two streams: the second has the diagonal and the sample of another.
fn pair(first: (u16, i32, i32), second: (u16, i32, i32), tap: Tap, grid: Grid) -> Job
    requires { length grid ≡ 2 }
{
    let above = [tap, NO_TAP, NO_TAP, NO_TAP, NO_TAP, NO_TAP];
    let triangle = Triangle::new(2, [first.0, second.0, 0, 0], above);
    let y_1 = Sample {
        re: first.1,
        im: first.2,
    };
    let y_2 = Sample {
        re: second.1,
        im: second.2,
    };
    let y = [y_1, y_2, NO_SAMPLE, NO_SAMPLE];
    Job::new(0, Place::default(), grid, System::new(triangle, y))
}

// One stream of each constellation, with all its points and with some.
#[test]
fn hostile_jobs_of_one_stream(rt: HostRuntime) {
    let [one, two, four, eight] = [
        Ladder::of(1, 1),
        Ladder::of(2, 3),
        Ladder::of(4, 15),
        Ladder::of(8, 255),
    ];
    let some = Ladder::of(8, 0b1001_0110);
    for (i, q) in [
        (two, one),
        (two, two),
        (four, four),
        (eight, eight),
        (some, eight),
    ] {
        let grid = Grid::one(i, q);
        let jobs = [
            single(HOSTILE[0], grid),
            single(HOSTILE[1], grid),
            single(HOSTILE[2], grid),
            single(HOSTILE[3], grid),
            single(HOSTILE[4], grid),
            single(HOSTILE[5], grid),
            single(HOSTILE[6], grid),
            single(HOSTILE[7], grid),
        ];
        expect(&rt, &jobs);
    }
}

// Two streams of 16-QAM, with entries at the ends of their type, and a job of another grid among them.
#[test]
fn hostile_jobs_of_two_streams(rt: HostRuntime) {
    let (two, four) = (Ladder::of(2, 3), Ladder::of(4, 15));
    let grid = Grid::one(four, four).and(four, four);
    let other = Grid::one(two, two).and(two, two);
    let low = Tap {
        re: -32768,
        im: 32767,
    };
    let small = Tap { re: 10, im: -3 };
    let clean = (200, 630, -210);
    let jobs = [
        pair(HOSTILE[0], clean, small, grid),
        pair(HOSTILE[1], clean, low, grid),
        pair(HOSTILE[2], HOSTILE[6], low, grid),
        pair(HOSTILE[3], clean, small, grid),
        pair(HOSTILE[4], HOSTILE[5], low, grid),
        pair(HOSTILE[5], HOSTILE[7], NO_TAP, grid),
        pair(HOSTILE[6], clean, small, other),
        pair(clean, clean, small, grid),
    ];
    expect(&rt, &jobs);
}

// Eight times the same job of one stream is labelled so, without noise and in each lane.
fn expect_label(
    rt: &impl Abort,
    modulation: Modulation,
    row: (u16, i32, i32),
    grid: Grid,
    label: u32,
)
    requires { length grid ≡ 1 }
{
    let jobs = [
        single(row, grid),
        single(row, grid),
        single(row, grid),
        single(row, grid),
        single(row, grid),
        single(row, grid),
        single(row, grid),
        single(row, grid),
    ];
    let lanes = label_eight(modulation, &jobs);
    for k in 0..8 {
        let is_sure = lanes.sure[k] > 0;
        assert_eq!(rt;
            (is_sure, lanes.first[k] % 256, lanes.distance[k]),
            (true, label, 0)
        );
    }
}

// Labels of IEEE Std 802.11-2012, tables 18-8 to 18-11.
#[test]
fn clean_jobs_are_labelled(rt: HostRuntime) {
    let [one, two, four, eight] = [
        Ladder::of(1, 1),
        Ladder::of(2, 3),
        Ladder::of(4, 15),
        Ladder::of(8, 255),
    ];
    let (bpsk, qpsk) = (Grid::one(two, one), Grid::one(two, two));
    let (qam16, qam64) = (Grid::one(four, four), Grid::one(eight, eight));
    expect_label(&rt, Modulation::Bpsk, (100, 100, 0), bpsk, 0b1);
    expect_label(&rt, Modulation::Qpsk, (100, -100, 100), qpsk, 0b01);
    expect_label(&rt, Modulation::Qam16, (100, -100, 100), qam16, 0b0111);
    expect_label(&rt, Modulation::Qam64, (100, 700, -700), qam64, 0b10_0000);
}

// A pilot's vector is told with its distance, 215^2 + 20^2, and a job that has others isn't answered.
#[test]
fn pilots_have_their_distance(rt: HostRuntime) {
    let (zero, one, both) = (Ladder::of(1, 1), Ladder::of(2, 0b10), Ladder::of(2, 0b11));
    let pilot = find_only(&single((100, 315, -20), Grid::one(one, zero)));
    let mut vector = Vector::new();
    vector.push(Point { i: 1, q: 0 });
    let distance = 46625;
    assert_eq!(rt; pilot, Some(Found { vector, distance }));
    let other = find_only(&single((100, 315, -20), Grid::one(both, zero)));
    assert_eq!(rt; other, None);
}

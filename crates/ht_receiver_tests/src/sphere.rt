//! The detectors on jobs with known answers, and the sphere detector against the one that tries all vectors.
ghost use Rattle.std.specs.Prelude.{◌≡◌, ◌<◌, ◌≤◌, length};

use crate::common::NO_SAMPLE;
use crate::equal::equal;
use ht_metric::{Found, Hit, Job, Place, Sample, System, Tap, Triangle, Vector, plain_nearest};
use ht_pam::{Grid, Ladder, Point, Steps};
use ht_sphere::nearest;
use std::marker::Brand;
use std::process::Abort;
use std::sync::ledger::{Blank, Ledger};

const NO_TAP: Tap = Tap { re: 0, im: 0 };

const PLACE: Place = Place {
    frame: 0,
    symbol: 1,
    carrier: 7,
};

// A sample at the ends of its type.
const FAR: Sample = Sample {
    re: -2147483648,
    im: 2147483647,
};

// The hit of a job, with steps of a counter of its own.
fn counted<L: Ledger>(job: &Job, blank: Blank) -> Hit
    requires name { blank.name ≡ L.name }
    requires parts { blank.parts ≡ L.parts }
    requires some { 0 < blank.parts }
    ensures { result.job ≡ job.now }
{
    let mut steps = Steps::<L>::new(blank);
    nearest(job, &mut steps)
}

fn hit_of(job: &Job) -> Hit
    ensures { result.job ≡ job.now }
{
    counted::<Brand>(job, Blank::new(1))
}

// Jobs and hits go from thread to thread.
fn crosses<T: Send + Sync>(_value: &T) {}

// What is found: these points, at this distance.
fn found(points: &[Point], distance: u128) -> Found {
    let mut vector = Vector::new();
    for point in points {
        if vector.len() < 4 {
            vector.push(*point);
        }
    }
    Found { vector, distance }
}

// The sphere detector finds this for the job.
fn expect(rt: &impl Abort, job: &Job, wanted: Found) {
    let hit = hit_of(job);
    equal(rt, (hit.job().same(job), hit.found()), (true, wanted));
}

// Both detectors find these points for the job, at this distance.
fn expect_both(rt: &impl Abort, job: &Job, points: &[Point], distance: u128) {
    let hit = plain_nearest(job);
    crosses(job);
    crosses(&hit);
    let copy = job.copy();
    let answer = (hit.job().same(&copy), hit.found());
    equal(rt, answer, (true, found(points, distance)));
    expect(rt, &copy, found(points, distance));
}

// A BPSK job of one stream.
fn bpsk(d: u16, re: i32, im: i32) -> Job {
    let grid = Grid::one(Ladder::of(2, 3), Ladder::of(1, 1));
    single(d, Sample { re, im }, grid)
}

// A job of one stream.
fn single(d: u16, y: Sample, grid: Grid) -> Job
    requires { length grid ≡ 1 }
{
    let triangle = Triangle::new(1, [d, 0, 0, 0], [NO_TAP; 6]);
    let y = [y, NO_SAMPLE, NO_SAMPLE, NO_SAMPLE];
    Job::new(3, PLACE, grid, System::new(triangle, y))
}

// A job of two streams.
fn pair(d: [u16; 2], tap: Tap, y: [Sample; 2], grid: Grid) -> Job
    requires { length grid ≡ 2 }
{
    let above = [tap, NO_TAP, NO_TAP, NO_TAP, NO_TAP, NO_TAP];
    let triangle = Triangle::new(2, [d[0], d[1], 0, 0], above);
    let y = [y[0], y[1], NO_SAMPLE, NO_SAMPLE];
    Job::new(0, PLACE, grid, System::new(triangle, y))
}

// A job of four streams.
fn quad(triangle: Triangle, y: [Sample; 4], i: Ladder, q: Ladder) -> Job
    requires { length triangle ≡ 4 }
{
    let grid = Grid::one(i, q).and(i, q).and(i, q).and(i, q);
    Job::new(0, PLACE, grid, System::new(triangle, y))
}

fn at((re, im): (i32, i32)) -> Sample {
    Sample { re, im }
}

#[test]
fn one_stream(rt: HostRuntime) {
    for (d, re, im, i, distance) in [(10, 3, -4, 1, 65), (10, 0, 0, -1, 100), (0, 3, -4, -1, 25)] {
        expect_both(&rt, &bpsk(d, re, im), &[Point { i, q: 0 }], distance);
    }
}

// Two streams of QPSK.
#[test]
fn two_streams(rt: HostRuntime) {
    let two = Ladder::of(2, 3);
    let grid = Grid::one(two, two).and(two, two);
    let tap = Tap { re: 10, im: 0 };
    for (d, y, (i, q), distance) in [
        ([10, 1], [(-20, 0), (1, 0)], (-1, 1), 5),
        ([0, 0], [(10, -10), (0, 0)], (1, -1), 0),
    ] {
        let y = [at(y[0]), at(y[1])];
        let points = [Point { i: -1, q: -1 }, Point { i, q }];
        expect_both(&rt, &pair(d, tap, y, grid), &points, distance);
    }
}

// The longest distances: of BPSK over a channel of zeros, and of 64-QAM, with the corners alone and with all points.
#[test]
fn four_streams(rt: HostRuntime) {
    let (two, one) = (Ladder::of(2, 3), Ladder::of(1, 1));
    let triangle = Triangle::new(4, [0; 4], [NO_TAP; 6]);
    let zeros = quad(triangle, [FAR; 4], two, one);
    let minus = Point { i: -1, q: 0 };
    expect_both(&rt, &zeros, &[minus; 4], 36893488130239234052);
    let (corner, distance) = (Point { i: -7, q: 7 }, 36877727455641076052);
    let triangle = Triangle::new(4, [65535; 4], [NO_TAP; 6]);
    let ends = Ladder::of(8, 129);
    let corners = quad(triangle, [FAR; 4], ends, ends);
    expect_both(&rt, &corners, &[corner; 4], distance);
    let all = Ladder::of(8, 255);
    let whole = quad(triangle, [FAR; 4], all, all);
    expect(&rt, &whole, found(&[corner; 4], distance));
}

// Numbers that are the same in each run.
#[derive(Drop)]
struct Numbers {
    state: u64,
}

impl Numbers {
    // The next number below a bound.
    fn next(&mut self, bound: u64) -> u64
        requires { 0 < bound }
        ensures { result < bound }
    {
        self.state = self
            .state
            .wrapping_mul(6364136223846793005)
            .wrapping_add(1442695040888963407);
        (self.state >> 33) % bound
    }

    // A number from -most to most.
    fn part(&mut self, most: u16) -> i16
        requires { most ≤ 1000 }
    {
        self.next(2 * u64::from(most) + 1) as i16 - most as i16
    }

    fn taps(&mut self, most: u16) -> [Tap; 6]
        requires { most ≤ 1000 }
    {
        let mut taps = [NO_TAP; 6];
        for tap in taps.iter_mut() {
            tap.re = self.part(most);
            tap.im = self.part(most);
        }
        taps
    }

    fn samples(&mut self, most: u16) -> [Sample; 4]
        requires { most ≤ 1000 }
    {
        let mut samples = [NO_SAMPLE; 4];
        for sample in samples.iter_mut() {
            sample.re = i32::from(self.part(most));
            sample.im = i32::from(self.part(most));
        }
        samples
    }

    // Four diagonals, each drawn from `least` to `least + count - 1`.
    fn diagonals(&mut self, least: u16, count: u16) -> [u16; 4]
        requires some { 0 < count }
        requires few { count ≤ 1000 }
        requires least { least ≤ 1000 }
    {
        let mut diagonals = [0; 4];
        for diagonal in diagonals.iter_mut() {
            *diagonal = least + self.next(u64::from(count)) as u16;
        }
        diagonals
    }

    // Points of 64-QAM.
    fn points(&mut self) -> [Point; 4] {
        let mut points = [Point { i: 0, q: 0 }; 4];
        for point in points.iter_mut() {
            point.i = 2 * self.next(8) as i8 - 7;
            point.q = 2 * self.next(8) as i8 - 7;
        }
        points
    }

    fn ladder(&mut self) -> Ladder {
        match self.next(5) {
            0 => Ladder::of(1, 1),
            1 => Ladder::of(2, 3),
            2 => Ladder::of(4, 15),
            3 => Ladder::of(4, 9),
            _ => Ladder::of(8, 165),
        }
    }

    // A small job of one stream or two.
    fn job(&mut self) -> Job {
        let d = self.diagonals(0, 4);
        let taps = self.taps(2);
        let y = self.samples(6);
        let one = Grid::one(self.ladder(), self.ladder());
        if self.next(3) == 0 {
            return single(d[0], y[0], one);
        }
        let two = one.and(self.ladder(), self.ladder());
        pair([d[0], d[1]], taps[0], [y[0], y[1]], two)
    }

    // A job of four streams in 64-QAM, with noise of at most so large parts.
    fn noisy(&mut self, most: u16) -> Noisy
        requires { most ≤ 1000 }
    {
        let d = self.diagonals(1000, 1000);
        let above = self.taps(400);
        let sent = self.points();
        let noise = self.samples(most);
        let y = with_noise(received(d, above, sent), noise);
        let all = Ladder::of(8, 255);
        Noisy {
            job: quad(Triangle::new(4, d, above), y, all, all),
            sent,
            power: power(noise),
        }
    }
}

// A job, the points that were sent, and the power of the noise.
#[derive(Drop)]
struct Noisy {
    job: Job,
    sent: [Point; 4],
    power: u128,
}

fn plus(a: Sample, b: Sample) -> Sample {
    Sample {
        re: a.re.wrapping_add(b.re),
        im: a.im.wrapping_add(b.im),
    }
}

fn times(re: i32, im: i32, x: Point) -> Sample {
    let (i, q) = (i32::from(x.i), i32::from(x.q));
    Sample {
        re: re.wrapping_mul(i).wrapping_sub(im.wrapping_mul(q)),
        im: re.wrapping_mul(q).wrapping_add(im.wrapping_mul(i)),
    }
}

fn over(tap: Tap, x: Point) -> Sample {
    times(i32::from(tap.re), i32::from(tap.im), x)
}

// What is received without noise: on each row its own point times the diagonal, and the points behind it times their
// entries.
fn received(d: [u16; 4], r: [Tap; 6], x: [Point; 4]) -> [Sample; 4] {
    let own = [
        times(i32::from(d[0]), 0, x[0]),
        times(i32::from(d[1]), 0, x[1]),
        times(i32::from(d[2]), 0, x[2]),
        times(i32::from(d[3]), 0, x[3]),
    ];
    [
        plus(
            plus(own[0], over(r[0], x[1])),
            plus(over(r[1], x[2]), over(r[2], x[3])),
        ),
        plus(own[1], plus(over(r[3], x[2]), over(r[4], x[3]))),
        plus(own[2], over(r[5], x[3])),
        own[3],
    ]
}

fn with_noise(y: [Sample; 4], noise: [Sample; 4]) -> [Sample; 4] {
    let mut sum = y;
    for k in 0..4usize {
        sum[k] = plus(y[k], noise[k]);
    }
    sum
}

// The sum of the squares of all parts.
fn power(noise: [Sample; 4]) -> u128 {
    let mut sum = 0u64;
    for sample in noise {
        let re = u64::from(sample.re.unsigned_abs());
        let im = u64::from(sample.im.unsigned_abs());
        let square = re.wrapping_mul(re).wrapping_add(im.wrapping_mul(im));
        sum = sum.wrapping_add(square);
    }
    u128::from(sum)
}

#[test]
fn as_the_plain_one(rt: HostRuntime) {
    let mut numbers = Numbers { state: 11 };
    for _ in 0..300 {
        let job = numbers.job();
        expect(&rt, &job, plain_nearest(&job).found());
    }
}

// Trying all vectors of such a grid would take minutes. Two vectors are at least 2000 apart here, so noise whose
// length is below 1000 changes nothing.
#[test]
fn in_seconds(rt: HostRuntime) {
    let mut numbers = Numbers { state: 3 };
    for _ in 0..300 {
        let noisy = numbers.noisy(350);
        expect(&rt, &noisy.job, found(&noisy.sent, noisy.power));
    }
    for _ in 0..300 {
        let noisy = numbers.noisy(1000);
        equal(&rt, hit_of(&noisy.job).distance() <= noisy.power, true);
    }
}

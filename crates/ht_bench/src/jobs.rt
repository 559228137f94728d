//! Random jobs: a random channel, random points sent, and noise.
ghost use Rattle.std.specs.Prelude.{◌≡◌, ◌≤◌, IfOk, length};

use crate::random::Random;
use ht_metric::{Job, Place, Sample, System, Tap, Triangle};
use ht_pam::{Grid, Ladder, Point};
use std::alloc::{AllocError, Global};

/// How many jobs are made; a line goes over all of them each time.
pub const JOBS: u64 = 256;

const NO_TAP: Tap = Tap { re: 0, im: 0 };

const NO_SAMPLE: Sample = Sample { re: 0, im: 0 };

/// How many streams, which constellation, how much noise, and how large the channel is.
#[derive(Clone, Copy)]
pub struct JobKind {
    streams: u8,
    i_levels: u8,
    q_levels: u8,
    noise: u64,
    diagonals: Diagonals,
}

/// How large the diagonals of a channel are.
#[derive(Clone, Copy)]
enum Diagonals {
    /// From 64 to 255, as those of the simulator.
    Large,
    /// From 1 to 8, so that many vectors are nearly as near.
    Small,
}

/// What a job is made of: of all four streams, whether they are there or not.
#[derive(Clone, Copy)]
struct Parts {
    diagonal: [u16; 4],
    above: [Tap; 6],
    y: [Sample; 4],
}

impl JobKind {
    /// The kind of jobs that the words choose.
    pub fn from_words(
        streams: &str,
        modulation: &str,
        noise: &str,
        diagonals: &str,
    ) -> Option<JobKind> {
        let (i_levels, q_levels) = match modulation {
            "bpsk" => (2, 1),
            "qpsk" => (2, 2),
            "qam16" => (4, 4),
            "qam64" => (8, 8),
            _ => return None,
        };
        let diagonals = match diagonals {
            "large" => Diagonals::Large,
            "small" => Diagonals::Small,
            _ => return None,
        };
        Some(JobKind {
            streams: streams.parse().ok()?,
            i_levels,
            q_levels,
            noise: noise.parse::<u16>().ok()?.into(),
            diagonals,
        })
    }

    /// The jobs, each of number 0.
    pub fn jobs(&self, alloc: Global) -> Result<Vec<Job>, AllocError>
        ensures count { IfOk result (λ jobs. length jobs.items ≡ 256) }
    {
        let mut random = Random::new(1);
        let mut jobs = Vec::new(alloc);
        for _ in 0..JOBS {
            jobs.push(self.job(&mut random))?;
        }
        Ok(jobs)
    }

    fn job(&self, random: &mut Random) -> Job {
        let sent = self.points(random);
        let parts = self.parts(random, sent);
        let d = parts.diagonal;
        let r = parts.above;
        let y = parts.y;
        let i = ladder(self.i_levels);
        let q = ladder(self.q_levels);
        let one = Grid::one(i, q);
        let place = Place {
            frame: 0,
            symbol: 0,
            carrier: 0,
        };
        match self.streams {
            1 => {
                let triangle = Triangle::new(1, [d[0], 0, 0, 0], [NO_TAP; 6]);
                let system = System::new(triangle, [y[0], NO_SAMPLE, NO_SAMPLE, NO_SAMPLE]);
                Job::new(0, place, one, system)
            }
            2 => {
                let above = [r[0], NO_TAP, NO_TAP, NO_TAP, NO_TAP, NO_TAP];
                let triangle = Triangle::new(2, [d[0], d[1], 0, 0], above);
                let system = System::new(triangle, [y[0], y[1], NO_SAMPLE, NO_SAMPLE]);
                Job::new(0, place, one.and(i, q), system)
            }
            3 => {
                let above = [r[0], r[1], r[3], NO_TAP, NO_TAP, NO_TAP];
                let triangle = Triangle::new(3, [d[0], d[1], d[2], 0], above);
                let system = System::new(triangle, [y[0], y[1], y[2], NO_SAMPLE]);
                Job::new(0, place, one.and(i, q).and(i, q), system)
            }
            _ => {
                let triangle = Triangle::new(4, d, r);
                let system = System::new(triangle, y);
                Job::new(0, place, one.and(i, q).and(i, q).and(i, q), system)
            }
        }
    }

    // A point for each stream, and 0 where there is none.
    fn points(&self, random: &mut Random) -> [Point; 4] {
        let mut points = [Point { i: 0, q: 0 }; 4];
        for k in 0..4usize {
            let i = level(self.i_levels, random.draw());
            let q = level(self.q_levels, random.draw());
            if k < usize::from(self.streams) {
                points[k] = Point { i, q };
            }
        }
        points
    }

    // A channel, and what comes of the points on it.
    fn parts(&self, random: &mut Random, x: [Point; 4]) -> Parts {
        let mut diagonal = [0u16; 4];
        for k in 0..4usize {
            diagonal[k] = match self.diagonals {
                Diagonals::Large => 64 + (random.draw() % 192) as u16,
                Diagonals::Small => 1 + (random.draw() % 8) as u16,
            };
        }
        let mut above = [NO_TAP; 6];
        for k in 0..6usize {
            let re = entry(random);
            let im = entry(random);
            above[k] = Tap { re, im };
        }
        let r = above;
        let d = diagonal;
        let mut y = [NO_SAMPLE; 4];
        y[0] = plus(
            plus(scaled(d[0], x[0]), times(r[0], x[1])),
            plus(times(r[1], x[2]), times(r[2], x[3])),
        );
        y[1] = plus(
            scaled(d[1], x[1]),
            plus(times(r[3], x[2]), times(r[4], x[3])),
        );
        y[2] = plus(scaled(d[2], x[2]), times(r[5], x[3]));
        y[3] = scaled(d[3], x[3]);
        let bound = self.noise.min(1000);
        for k in 0..4usize {
            let re = part(random, bound);
            let im = part(random, bound);
            y[k] = plus(y[k], Sample { re, im });
        }
        Parts { diagonal, above, y }
    }
}

// A part of a channel entry, from -64 to 64.
fn entry(random: &mut Random) -> i16 {
    (random.draw() % 129) as i16 - 64
}

// A number from -bound to bound.
fn part(random: &mut Random, bound: u64) -> i32
    requires { bound ≤ 1000 }
{
    (random.draw() % (2 * bound + 1)) as i32 - bound as i32
}

// One of this number of levels.
fn level(levels: u8, number: u64) -> i8 {
    let count = levels.clamp(1, 8);
    let at = (number % u64::from(count)) as i8;
    2 * at - (count as i8 - 1)
}

// All of this number of levels.
fn ladder(levels: u8) -> Ladder {
    match levels {
        1 => Ladder::of(1, 1),
        2 => Ladder::of(2, 3),
        4 => Ladder::of(4, 15),
        _ => Ladder::of(8, 255),
    }
}

fn plus(a: Sample, b: Sample) -> Sample {
    Sample {
        re: a.re.wrapping_add(b.re),
        im: a.im.wrapping_add(b.im),
    }
}

fn scaled(d: u16, x: Point) -> Sample {
    let d = i32::from(d);
    Sample {
        re: d.wrapping_mul(i32::from(x.i)),
        im: d.wrapping_mul(i32::from(x.q)),
    }
}

fn times(r: Tap, x: Point) -> Sample {
    let (re, im) = (i32::from(r.re), i32::from(r.im));
    let (i, q) = (i32::from(x.i), i32::from(x.q));
    Sample {
        re: re.wrapping_mul(i).wrapping_sub(im.wrapping_mul(q)),
        im: re.wrapping_mul(q).wrapping_add(im.wrapping_mul(i)),
    }
}

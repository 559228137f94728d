//! Certificates whose answers are known, each call with ample memory. A level is written `o` where it is open and `x`
//! where it is cut.
ghost use Rattle.std.specs.Prelude.{◌≡◌, length, IfOk};

use crate::equal::equal;
use ht_metric::{Job, Place, Sample, System, Tap, Triangle, Vector};
use ht_pam::{Grid, Ladder, Point};
use ht_witness::{Certificate, CheckFault, Marks, certify, check};
use std::alloc::{AllocError, Global};
use std::process::Abort;
use std::test::Fail;

const PLACE: Place = Place {
    frame: 0,
    symbol: 1,
    carrier: 7,
};

// A BPSK job of one stream.
fn bpsk(d: u16, re: i32, im: i32) -> Job
    ensures { length result.system ≡ 1 }
{
    let triangle = Triangle::new(1, [d, 0, 0, 0], [Tap { re: 0, im: 0 }; 6]);
    let none = Sample { re: 0, im: 0 };
    let system = System::new(triangle, [Sample { re, im }, none, none, none]);
    let grid = Grid::one(Ladder::of(2, 3), Ladder::of(1, 1));
    Job::new(3, PLACE, grid, system)
}

// A QPSK job of two streams.
fn qpsk(d: [u16; 2], re: i16, y: [Sample; 2]) -> Job {
    let mut above = [Tap { re: 0, im: 0 }; 6];
    above[0] = Tap { re, im: 0 };
    let triangle = Triangle::new(2, [d[0], d[1], 0, 0], above);
    let none = Sample { re: 0, im: 0 };
    let system = System::new(triangle, [y[0], y[1], none, none]);
    let two = Ladder::of(2, 3);
    Job::new(0, PLACE, Grid::one(two, two).and(two, two), system)
}

// The marks that are written.
fn marks_of(alloc: Global, text: &str) -> Result<Marks, AllocError> {
    let marks: Vec<bool> = text.chars().map(|c| c == 'o').collect(alloc)?;
    Ok(Marks::from(marks))
}

// A claim about one stream of BPSK.
fn claim(alloc: Global, i: i8, distance: u128, marks: &str) -> Result<Certificate, AllocError>
    ensures { IfOk result (λ certificate. length certificate.vector ≡ 1) }
{
    let mut vector = Vector::new();
    vector.push(Point { i, q: 0 });
    Ok(Certificate {
        vector,
        distance,
        marks: marks_of(alloc, marks)?,
    })
}

#[test]
fn claims(rt: HostRuntime) -> Result<(), Fail> {
    let job = bpsk(10, 3, -4);
    for (i, distance, marks, answer) in [
        (1, 65, "oxo", Ok(())),
        (1, 65, "ooo", Ok(())),
        (-1, 185, "ooo", Err(CheckFault::Better(2))),
        (1, 64, "ooo", Err(CheckFault::WrongDistance(65))),
        (1, 65, "x", Err(CheckFault::Early(0))),
        (1, 65, "ox", Err(CheckFault::Short(2))),
        (1, 65, "oxoo", Err(CheckFault::Long(3))),
        (0, 65, "", Err(CheckFault::OffGrid(1))),
    ] {
        let certificate = claim(rt.alloc(), i, distance, marks)?;
        let found = check(&job, &certificate);
        equal(
            &rt,
            (i, distance, marks, found),
            (i, distance, marks, answer),
        );
    }
    Ok(())
}

// Asserts that a job is certified with this distance and these marks.
fn certifies(
    rt: &impl Abort,
    alloc: Global,
    job: &Job,
    distance: u128,
    marks: &str,
) -> Result<(), Fail> {
    let made = certify(job, alloc)?;
    let marks = marks_of(alloc, marks)?;
    let found = (made.distance, made.marks.as_slice());
    equal(rt, found, (distance, marks.as_slice()));
    Ok(())
}

#[test]
fn made(rt: HostRuntime) -> Result<(), Fail> {
    certifies(&rt, rt.alloc(), &bpsk(10, 3, -4), 65, "oxo")?;
    let slanted = [Sample { re: -20, im: 0 }, Sample { re: 1, im: 0 }];
    certifies(
        &rt,
        rt.alloc(),
        &qpsk([10, 1], 10, slanted),
        5,
        "ooxooxoxoxxooooxxooxxx",
    )?;
    let flat = [Sample { re: 10, im: -10 }, Sample { re: 0, im: 0 }];
    certifies(
        &rt,
        rt.alloc(),
        &qpsk([0, 0], 10, flat),
        0,
        "oooxxoxxoooooooooxxoxx",
    )
}

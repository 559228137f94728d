//! Windows of two and three slots, as answers come in other orders than their jobs, with strangers between.
use crate::common::job;
use crate::equal::equal;
use ht_metric::plain_nearest;
use ht_window::{Accepted, Window};
use std::process::Abort;
use std::test::Fail;

// An answer: the number of its job and the sample; and what the window says to it, and the first job it still waits for.
type Answer = ((u64, i32), (Accepted, Option<u64>));

// The first jobs are 5, 6 and 7.
static OF_THREE: [Answer; 7] = [
    ((8, 3), (Accepted::Stranger, Some(5))),
    ((6, 4), (Accepted::Stranger, Some(5))),
    ((4, 3), (Accepted::Stranger, Some(5))),
    ((6, 3), (Accepted::Booked, Some(5))),
    ((6, 3), (Accepted::Twice, Some(5))),
    ((5, 3), (Accepted::Booked, Some(7))),
    ((7, 3), (Accepted::Booked, None)),
];

// The jobs are 0 and 1, and no hit may be emitted behind these.
static OF_TWO: [Answer; 3] = [
    ((1, 3), (Accepted::Booked, Some(0))),
    ((1, 3), (Accepted::Twice, Some(0))),
    ((0, 4), (Accepted::Stranger, Some(0))),
];

// Asserts what the window says to answers.
fn accepts(rt: &impl Abort, window: &mut Window, answers: &[Answer]) {
    for &((number, re), wanted) in answers {
        let accepted = window.accept(plain_nearest(&job(number, re)));
        let first = window.first_unbooked().map(|job| job.number());
        equal(rt, (number, re, (accepted, first)), (number, re, wanted));
    }
}

// Asserts which hits the window emits, by their numbers.
fn emits(rt: &impl Abort, window: &mut Window, numbers: &[Option<u64>]) {
    for number in numbers {
        let emitted = window.emit().map(|hit| hit.job().number());
        equal(rt, emitted, *number);
    }
}

#[test]
fn in_order(rt: HostRuntime) -> Result<(), Fail> {
    let mut window = Window::new(rt.alloc(), 3, 5)?;
    window.issue(job(5, 3));
    window.issue(job(6, 3));
    let had_room = window.has_room();
    window.issue(job(7, 3));
    equal(&rt, (had_room, window.has_room()), (true, false));
    accepts(&rt, &mut window, &OF_THREE);
    emits(&rt, &mut window, &[Some(5), Some(6), Some(7), None]);
    equal(&rt, window.has_room(), true);
    Ok(())
}

#[test]
fn two_slots(rt: HostRuntime) -> Result<(), Fail> {
    let mut window = Window::new(rt.alloc(), 2, 0)?;
    window.issue(job(0, 3));
    window.issue(job(1, 3));
    equal(&rt, window.has_room(), false);
    for answer in &OF_TWO {
        accepts(&rt, &mut window, &[*answer]);
        emits(&rt, &mut window, &[None]);
    }
    accepts(&rt, &mut window, &[((0, 3), (Accepted::Booked, None))]);
    emits(&rt, &mut window, &[Some(0), Some(1), None]);
    Ok(())
}

#[test]
fn without_slots(rt: HostRuntime) -> Result<(), Fail> {
    emits(&rt, &mut Window::new(rt.alloc(), 2, 0)?, &[None]);
    let mut window = Window::new(rt.alloc(), 1, 7)?;
    window.skip(2);
    window.issue(job(9, 3));
    accepts(&rt, &mut window, &[((9, 3), (Accepted::Booked, None))]);
    emits(&rt, &mut window, &[Some(9)]);
    Ok(())
}

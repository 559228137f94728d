//! Runs of a few jobs and actors, and events that must not come.
use crate::common::job;
use crate::equal::equal;
use ht_machine::{Event, Machine, Spot, StepFault, enabled, place_of, step};
use ht_metric::plain_nearest;
use std::process::Abort;
use std::test::Fail;

// An event whose job is named by its number and its sample.
#[derive(Clone, Copy, Debug, PartialEq, Eq)]
enum Move {
    Issue(u64, i32),
    Push(u8),
    Pop(u8),
    // By the first from the second.
    Steal(u8, u8),
    Finish(u8, u64, i32),
    Accept(u64),
    Emit,
}

impl Move {
    fn event(self) -> Event {
        match self {
            Move::Issue(number, re) => Event::Issue(job(number, re)),
            Move::Push(actor) => Event::Push(actor),
            Move::Pop(actor) => Event::Pop(actor),
            Move::Steal(thief, from) => Event::Steal { thief, from },
            Move::Finish(actor, number, re) => Event::Finish {
                actor,
                hit: plain_nearest(&job(number, re)),
            },
            Move::Accept(number) => Event::Accept(number),
            Move::Emit => Event::Emit,
        }
    }
}

// Asserts that a move comes, or that it is refused.
fn plays(rt: &impl Abort, machine: &mut Machine, next: Move, comes: bool) {
    let event = next.event();
    let is_enabled = enabled(machine, &event);
    let made = step(machine, event);
    let wanted = if comes {
        Ok(())
    } else {
        Err(StepFault::NotEnabled)
    };
    equal(rt, (next, is_enabled, made), (next, comes, wanted));
}

// Moves of two actors with a window of two jobs: those that are refused first, one that comes, and where the jobs 0 and 1
// are then.
type Turn = (&'static [Move], Move, [Option<Spot>; 2]);

static TURNS: [Turn; 12] = [
    (
        &[Move::Emit, Move::Push(0), Move::Issue(1, 3)],
        Move::Issue(0, 3),
        [Some(Spot::Hand(0)), None],
    ),
    (
        &[Move::Issue(1, 3), Move::Steal(1, 0)],
        Move::Push(0),
        [Some(Spot::Deque(0)), None],
    ),
    (
        &[Move::Steal(0, 0), Move::Steal(2, 0)],
        Move::Steal(1, 0),
        [Some(Spot::Hand(1)), None],
    ),
    (
        &[],
        Move::Issue(1, -3),
        [Some(Spot::Hand(1)), Some(Spot::Hand(0))],
    ),
    (
        &[],
        Move::Push(0),
        [Some(Spot::Hand(1)), Some(Spot::Deque(0))],
    ),
    // The window is full.
    (
        &[Move::Issue(2, 3)],
        Move::Pop(0),
        [Some(Spot::Hand(1)), Some(Spot::Hand(0))],
    ),
    // Another job of the same number is not the one in the hand.
    (
        &[Move::Finish(0, 1, 3), Move::Accept(1)],
        Move::Finish(0, 1, -3),
        [Some(Spot::Hand(1)), Some(Spot::Results)],
    ),
    (
        &[],
        Move::Accept(1),
        [Some(Spot::Hand(1)), Some(Spot::Booked)],
    ),
    // Job 1 waits for job 0.
    (
        &[Move::Emit],
        Move::Finish(1, 0, 3),
        [Some(Spot::Results), Some(Spot::Booked)],
    ),
    (
        &[],
        Move::Accept(0),
        [Some(Spot::Booked), Some(Spot::Booked)],
    ),
    (&[], Move::Emit, [Some(Spot::Emitted), Some(Spot::Booked)]),
    (&[], Move::Emit, [Some(Spot::Emitted), Some(Spot::Emitted)]),
];

#[test]
fn two_jobs(rt: HostRuntime) -> Result<(), Fail> {
    let mut machine = Machine::new(rt.alloc(), 2, 2)?;
    for &(refused, next, places) in &TURNS {
        for other in refused {
            plays(&rt, &mut machine, *other, false);
        }
        plays(&rt, &mut machine, next, true);
        let found = [place_of(&machine, 0), place_of(&machine, 1)];
        equal(&rt, (next, found), (next, places));
    }
    Ok(())
}

// Issues jobs and pushes each on the caller's deque.
fn push_jobs(rt: &impl Abort, machine: &mut Machine, count: u64) {
    for number in 0..count {
        plays(rt, machine, Move::Issue(number, 3), true);
        plays(rt, machine, Move::Push(0), true);
    }
}

#[test]
fn window_of_two(rt: HostRuntime) -> Result<(), Fail> {
    let mut machine = Machine::new(rt.alloc(), 2, 2)?;
    push_jobs(&rt, &mut machine, 2);
    plays(&rt, &mut machine, Move::Issue(2, 3), false);
    for next in [
        Move::Steal(1, 0),
        Move::Finish(1, 0, 3),
        Move::Accept(0),
        Move::Emit,
    ] {
        plays(&rt, &mut machine, next, true);
    }
    let found = [place_of(&machine, 0), place_of(&machine, 1)];
    equal(&rt, found, [Some(Spot::Emitted), Some(Spot::Deque(0))]);
    Ok(())
}

// A worker moves a number of jobs from another's deque to its own, one steal and one push each, and pops its own front.
fn take_over(rt: &impl Abort, machine: &mut Machine, thief: u8, from: u8, count: u8) {
    for _ in 0..count {
        plays(rt, machine, Move::Steal(thief, from), true);
        plays(rt, machine, Move::Push(thief), true);
    }
    plays(rt, machine, Move::Pop(thief), true);
}

// Worker 1 moves eight of ten jobs and takes the first in hand; worker 2 moves the seven others on.
#[test]
fn jobs_moved_on(rt: HostRuntime) -> Result<(), Fail> {
    let mut machine = Machine::new(rt.alloc(), 3, 16)?;
    push_jobs(&rt, &mut machine, 10);
    take_over(&rt, &mut machine, 1, 0, 8);
    take_over(&rt, &mut machine, 2, 1, 7);
    plays(&rt, &mut machine, Move::Steal(0, 1), false);
    for number in 0..10u64 {
        let spot = match number {
            0 => Spot::Hand(1),
            1 => Spot::Hand(2),
            2..=7 => Spot::Deque(2),
            _ => Spot::Deque(0),
        };
        let found = place_of(&machine, number);
        equal(&rt, (number, found), (number, Some(spot)));
    }
    Ok(())
}

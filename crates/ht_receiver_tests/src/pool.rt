//! Squares of the first numbers by one, two and four threads, which all run a task at the same time at first.
ghost use Rattle.std.specs.Prelude.{◌≡◌, ◌+◌, ◌*◌, ◌≤◌, [], length, map, IfOk, IfSome, vec_len, vec_capacity};
ghost use Rattle.std.specs.List.{All};
ghost use Rattle.ht_pool.specs.Callers.{unused, IsSettled, IsSameCaller};
ghost use Rattle.ht_pool.specs.Members.{workplace_of, workplaces, HasYetToServe};
ghost use Rattle.ht_pool.specs.Pools.{IsVacant};

use crate::equal::equal;
use ht_pool::caller::Caller;
use ht_pool::caller_end::CallerEnd;
use ht_pool::close::close;
use ht_pool::common::Common;
use ht_pool::crew::beside;
use ht_pool::member::Member;
use ht_pool::pool::Pool;
use ht_pool::space::Space;
use ht_pool::work::PoolWork;
use std::alloc::{AllocError, Global};
use std::sync::Wait;
use std::sync::atomic::{AtomicU64, Ordering};
use std::test::Fail;
use std::thread;
use std::thread::Threads;

// A number and its square.
#[derive(Drop)]
struct Squared {
    number: u32,
    square: u64,
    ghost squared: { square ≡ number * number },
}

// Squares of numbers. The first `together` tasks are held until all of them are being run.
#[derive(Drop)]
struct Squares {
    together: u64,
    entered: AtomicU64,
    strays: AtomicU64,
}

impl Squares {
    fn together(threads: u64) -> Squares {
        Squares {
            together: threads,
            entered: AtomicU64::new(0),
            strays: AtomicU64::new(0),
        }
    }

    // Gives up after a million turns.
    fn enter(&self) {
        self.entered.fetch_add(1, Ordering::SeqCst);
        for _ in 0..1_000_000u64 {
            if self.entered.load(Ordering::SeqCst) >= self.together {
                return;
            }
            thread::yield_now();
        }
        self.strays.fetch_add(1, Ordering::SeqCst);
    }
}

impl PoolWork for Squares {
    type Task = u32;

    type Answer = Squared;

    ghost asked = { λ squared. squared.number };

    ghost weight = { λ number. 1 };

    fn weigh(&self, _task: &u32) -> u32 {
        1
    }

    fn answer_to(&self, task: u32) -> Squared {
        self.enter();
        let wide = u64::from(task);
        Squared {
            number: task,
            square: wide * wide,
        }
    }
}

// An answer that has come, or that of a task that no worker took.
fn next(caller: &mut Caller<'_, Squares>) -> Option<Squared>
    ensures same { IsSameCaller caller.old caller.new }
    ensures given { caller.new.given ≡ caller.old.given }
    ensures some { IfSome result (λ _. length caller.new.taken + length caller.new.answers ≡ length caller.old.taken + length caller.old.answers + 1) }
    ensures more { length caller.old.taken + length caller.old.answers ≤ length caller.new.taken + length caller.new.answers }
{
    let received = caller.receive();
    if received.is_some() {
        return received;
    }
    caller.run_one()
}

// Gives the numbers below 1000 to the pool, and adds up their squares.
fn lead<R: Wait>(rt: &R, work: &Squares, caller: &mut Caller<'_, Squares>) -> u64
    requires { caller.old.given ≡ [] }
    ensures same { IsSameCaller caller.old caller.new }
    ensures settled { IsSettled caller.new }
{
    let mut sum = 0u64;
    let mut waiting = 0u32;
    for number in 0..1000 {
        match caller.give(number) {
            Ok(()) => waiting += 1,
            Err(back) => sum = sum.wrapping_add(work.answer_to(back).square),
        }
    }
    for _ in rt.forever() {
        if waiting == 0 {
            return sum;
        }
        match next(caller) {
            Some(answer) => {
                sum = sum.wrapping_add(answer.square);
                waiting -= 1;
            }
            None => thread::yield_now(),
        }
    }
    unreachable!()
}

// The sum of the squares, and the number of tasks that each has run.
fn add_up<R: Threads + Wait + Sync>(
    rt: &R,
    work: &Squares,
    shared: &Common<Squared>,
    caller_end: CallerEnd<u32, Squared>,
    members: Vec<Member<u32, Squared>>,
    space: Space<u32>,
) -> (u64, Vec<u64>)
    requires caller_end { caller_end ≡ unused 1024 caller_end.deques shared.now }
    requires fresh { All (HasYetToServe shared.now) members.items }
    requires workplaces { map workplace_of members.items ≡ workplaces caller_end.deques }
    requires takers { vec_len members ≤ vec_capacity members }
    requires space { IsVacant (length caller_end.deques) space }
    ensures { vec_len result.1 ≡ vec_len members + 1 }
{
    let mut caller = Caller::new(caller_end, shared, work);
    let (members, sum) = beside(
        rt,
        work,
        shared,
        members,
        &mut || lead(rt, work, &mut caller),
    );
    (sum, close(caller, members, space).ran)
}

fn run_squares<R: Threads + Wait + Sync>(
    rt: &R,
    alloc: Global,
    work: &Squares,
    helpers: u8,
) -> Result<(u64, Vec<u64>), AllocError>
    requires { helpers ≤ 63 }
{
    let Pool {
        shared,
        caller_end,
        members,
        space,
    } = Pool::open(alloc, helpers, 1024)?;
    Ok(add_up(rt, work, &shared, caller_end, members, space))
}

#[test]
fn smoke(rt: HostRuntime) -> Result<(), Fail> {
    for helpers in [0, 1, 3] {
        let work = Squares::together(u64::from(helpers) + 1);
        let (sum, ran) = run_squares(&rt, rt.alloc(), &work, helpers)?;
        let ran = ran.as_slice();
        let idle = ran.iter().filter(|n| **n == 0).count();
        let all = ran.iter().fold(0u64, |a, n| a.wrapping_add(*n));
        let strays = work.strays.load(Ordering::SeqCst);
        equal(
            &rt,
            (helpers, strays, sum, ran.len(), idle, all),
            (helpers, 0, 332_833_500, usize::from(helpers) + 1, 0, 1000),
        );
    }
    Ok(())
}

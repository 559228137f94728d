//! What a worker does.
ghost use Rattle.std.specs.Prelude.{◌≡◌, ◌≤◌, [], length, map};
ghost use Rattle.std.specs.List.{sum_by};
ghost use Rattle.crossbeam_queue.specs.Passes.{view as answer_view};
ghost use Rattle.ht_pool.specs.PassLogs.{pass_log};
ghost use Rattle.ht_pool.specs.Takers.{deques_at};
ghost use Rattle.ht_pool.specs.Members.{workplace_of, Balances, IsOnQueue, HasYetToServe, HasServed};

use crate::common::{AnswerPass, Common};
use crate::lookout::next_task;
use crate::member::Member;
use crate::own::OwnDeque;
use crate::taker::Taker;
use crate::work::{FULL, PoolWork};
use crossbeam_utils::Backoff;
use crossbeam_utils::sync::Key;
use std::sync::Wait;

// How many looks without a task a worker takes before it sleeps. That is some hundred microseconds: to wake a worker costs
// the caller a call of the system, so nobody sleeps where tasks come all the time, if not fast enough for all.
const PATIENCE: u32 = 256;

// Announces that the worker is about to sleep, where it has waited by turns for long enough.
//
// No end is slept through, and no task while the caller waits for it. A worker announces its sleep first, and then looks
// at the flag and at all deques; the caller pushes a task or sets the flag first, and then reads who has announced a
// sleep. All threads see these steps in one order, so the worker finds what is new or the caller finds the worker, and
// wakes it or ends its sleep before it begins. The end wakes all. A task whose wake went to a worker that came too late
// for it is with another worker, who runs it, or still on a deque, from which the caller takes it back.
fn prepare_sleep<A: Drop>(shared: &Common<A>, looks: u32) -> Option<Key<'_>> {
    if looks >= PATIENCE {
        Some(shared.prepare_sleep())
    } else {
        None
    }
}

// Waits before the next look: asleep where that was announced, until a task is given or none comes any more, and else by
// turns. Answers how many looks there were without a task since the worker ran one or slept.
fn rest<R: Wait>(rt: &R, backoff: &Backoff, sleep: Option<Key<'_>>, looks: u32) -> u32 {
    match sleep {
        Some(key) => {
            key.wait(rt);
            backoff.reset();
            0
        }
        None => {
            backoff.snooze();
            looks.saturating_add(1)
        }
    }
}

// Runs tasks and puts their answers on the queue, and helps with what else is waiting before each, until no task comes any
// more and none is left. Answers how much was in the tasks.
fn run_tasks<W: PoolWork, R: Wait>(
    rt: &R,
    work: &W,
    shared: &Common<W::Answer>,
    takers: &mut [Taker<W::Task>],
    place: u8,
    own: &mut OwnDeque<W::Task>,
    mut pass: AnswerPass<W::Answer>,
) -> (AnswerPass<W::Answer>, u64)
    requires few { length takers.old ≤ 64 }
    requires queue { IsOnQueue shared.now pass }
    requires part { answer_view pass ≡ pass_log 1 [] [] }
    requires balanced { Balances W.asked takers.old own.old [] }
    ensures at { deques_at takers.new ≡ deques_at takers.old }
    ensures deque { own.new.deque ≡ own.old.deque }
    ensures parts { own.new.parts ≡ own.old.parts }
    ensures queue { IsOnQueue shared.now result.0 }
    ensures part { (answer_view result.0).parts ≡ 1 }
    ensures none_received { (answer_view result.0).taken ≡ [] }
    ensures balanced { Balances W.asked takers.new own.new (answer_view result.0).pushed }
    ensures ran { result.1 ≡ sum_by W.weight (map W.asked (answer_view result.0).pushed) }
{
    let mut ran = 0u64;
    let mut looks = 0u32;
    let backoff = Backoff::new();
    for _ in rt.forever() {
        if ran > FULL {
            return (pass, ran);
        }
        if work.help(rt) {
            looks = 0;
        }
        let sleep = prepare_sleep(shared, looks);
        let last = shared.is_finished();
        match next_task(takers, place, own) {
            Some(task) => {
                drop(sleep);
                let weight = work.weigh(&task);
                pass = shared.deliver(rt, pass, work.answer_to(task));
                ran += u64::from(weight);
                looks = 0;
                backoff.reset();
            }
            None => {
                if last {
                    return (pass, ran);
                }
                looks = rest(rt, &backoff, sleep, looks);
            }
        }
    }
    unreachable!()
}

/// Runs tasks of a worker, until no task comes any more and none is left.
pub(crate) fn serve<W: PoolWork, R: Wait>(
    rt: &R,
    work: &W,
    shared: &Common<W::Answer>,
    member: Member<W::Task, W::Answer>,
) -> Member<W::Task, W::Answer>
    requires fresh { HasYetToServe shared.now member }
    ensures served { HasServed W.asked W.weight shared.now result }
    ensures workplace { workplace_of result ≡ workplace_of member }
{
    let Member {
        mut own,
        mut takers,
        place,
        pass,
        ran: _,
    } = member;
    let (pass, ran) = run_tasks(
        rt,
        work,
        shared,
        takers.as_mut_slice(),
        place,
        &mut own,
        pass,
    );
    Member {
        own,
        takers,
        place,
        pass,
        ran,
    }
}

//! The workers, each in a thread of its own.
ghost use Rattle.std.specs.Prelude.{◌≡◌, ◌≤◌, IfSome, IsSome, vec_len, vec_capacity};
ghost use Rattle.std.specs.List.{All};
ghost use Rattle.std.specs.Thread.{IsSync};
ghost use Rattle.ht_pool.specs.Members.{HasYetToServe, HasServed, HaveServed, workplace_of};

use crate::common::Common;
use crate::member::Member;
use crate::serve::serve;
use crate::work::PoolWork;
use std::sync::Wait;
use std::thread;
use std::thread::{Threads, join_mut};

// Runs the workers, each in a thread of its own.
fn crew<W: PoolWork + Sync, R: Threads + Wait + Sync>(
    rt: &R,
    work: &W,
    shared: &Common<W::Answer>,
    mut members: Vec<Member<W::Task, W::Answer>>,
) -> Vec<Member<W::Task, W::Answer>>
    requires fresh { All (HasYetToServe shared.now) members.items }
    requires room { vec_len members ≤ vec_capacity members }
    ensures served { HaveServed W.asked W.weight shared.now members.items result.items }
    ensures count { vec_len result ≡ vec_len members }
    ensures capacity { vec_capacity members ≤ vec_capacity result }
{
    let Some(mine) = members.pop() else {
        return members;
    };
    let (mine, mut members) = thread::join(
        rt,
        move || -> Member<W::Task, W::Answer>
            requires { IsSync R.row × HasYetToServe shared.now mine }
            ensures served { HasServed W.asked W.weight shared.entry.now result }
            ensures workplace { workplace_of result ≡ workplace_of mine }
        { serve(rt, work, shared, mine) },
        move || -> Vec<Member<W::Task, W::Answer>>
            requires { IsSync R.row × (vec_len members ≤ vec_capacity members) × All (HasYetToServe shared.now) members.items }
            ensures served { HaveServed W.asked W.weight shared.entry.now members.items result.items }
            ensures count { vec_len result ≡ vec_len members }
            ensures capacity { vec_capacity members ≤ vec_capacity result }
        { crew(rt, work, shared, members) },
    );
    members.push_reserved(mine);
    members
}

// The same for workers that are lent.
fn run_crew<W: PoolWork + Sync, R: Threads + Wait + Sync>(
    rt: &R,
    work: &W,
    shared: &Common<W::Answer>,
    members: &mut Option<Vec<Member<W::Task, W::Answer>>>,
)
    requires { IfSome members.old (λ before. All (HasYetToServe shared.now) before.items × (vec_len before ≤ vec_capacity before)) }
    ensures served { IfSome members.new (λ after. IfSome members.old (λ before. HaveServed W.asked W.weight shared.now before.items after.items)) }
    ensures count { IfSome members.new (λ after. IfSome members.old (λ before. vec_len after ≡ vec_len before)) }
    ensures some { IsSome members.old → IsSome members.new }
{
    if let Some(all) = members.take() {
        *members = Some(crew(rt, work, shared, all));
    }
}

/// Calls the caller in this thread, beside the workers, each in a thread of its own. Once the caller has returned, the
/// workers end as soon as they find no more tasks. Where no thread can be made, the workers run after the caller.
pub fn beside<W: PoolWork + Sync, R: Threads + Wait + Sync, C: FnMut() -> B, B>(
    rt: &R,
    work: &W,
    shared: &Common<W::Answer>,
    members: Vec<Member<W::Task, W::Answer>>,
    caller: &mut C,
) -> (Vec<Member<W::Task, W::Answer>>, B)
    requires fresh { All (HasYetToServe shared.now) members.items }
    requires room { vec_len members ≤ vec_capacity members }
    requires caller { C.pre caller.old }
    ensures served { HaveServed W.asked W.weight shared.now members.items result.0.items }
    ensures count { vec_len result.0 ≡ vec_len members }
    ensures called { C.step caller.old result.1 caller.new }
{
    let mut members = Some(members);
    let (_, answer) = join_mut(
        rt,
        &mut ||
            requires { IsSync R.row × IfSome members (λ before. All (HasYetToServe shared.now) before.items × (vec_len before ≤ vec_capacity before)) }
        { run_crew(rt, work, shared, &mut members) },
        &mut || -> B
            requires { C.pre caller.now }
        {
            let answer = caller();
            shared.finish();
            answer
        },
    );
    let Some(members) = members else {
        unreachable!()
    };
    (members, answer)
}

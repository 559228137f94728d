//! A pool once its threads have ended.
ghost use Rattle.std.specs.Prelude.{◌≡◌, ◌+◌, ◌<◌, ◌≤◌, ◌++◌, [], List, length, map, vec_capacity};
ghost use Rattle.std.specs.List.{All};
ghost use Rattle.crossbeam_queue.specs.Passes.{view};
ghost use Rattle.ht_pool.specs.Takers.{TakerView, OwnView, deques_at};
ghost use Rattle.ht_pool.specs.Through.{through};
ghost use Rattle.ht_pool.specs.Members.{IsOnQueue, HasServed, workplace_of, workplaces};
ghost use Rattle.ht_pool.specs.Callers.{IsSettled};
ghost use Rattle.ht_pool.specs.Gathering.{Collects, IsAccounted, ended, joined_row, joined_rows, rows_of};
ghost use Rattle.ht_pool.specs.Pools.{HasRun, IsVacant};
ghost use Rattle.ht_pool.specs.declared.member.Member.{Member as MemberValue};
ghost use Rattle.ht_pool.specs.declared.ends.Ends.{Ends as EndsValue};

use crate::caller::Caller;
use crate::caller_end::CallerEnd;
use crate::closed::Closed;
use crate::common::{AnswerPass, Common};
use crate::ends::Ends;
use crate::first::take_first;
use crate::member::Member;
use crate::own::OwnDeque;
use crate::space::Space;
use crate::taker::Taker;
use crate::work::PoolWork;

// Takes the workers apart: their numbers, their deques and their takers, and joins their passes on the queue.
fn take_apart<W: PoolWork>(
    shared: &Common<W::Answer>,
    pass: &mut AnswerPass<W::Answer>,
    mut members: Vec<Member<W::Task, W::Answer>>,
    ran: &mut Vec<u64>,
    owners: &mut Vec<OwnDeque<W::Task>>,
    rows: &mut Vec<Vec<Taker<W::Task>>>,
)
    requires served { All (HasServed W.asked W.weight shared.now) members.items }
    requires queue { IsOnQueue shared.now pass.old }
    requires some { 0 < (view pass.old).parts }
    requires numbers { length ran.old.items + length members.items ≤ vec_capacity ran.old }
    requires places { length owners.old.items + length members.items ≤ vec_capacity owners.old }
    requires room { length rows.old.items + length members.items ≤ vec_capacity rows.old }
    ensures ran { ran.new.items ≡ ran.old.items ++ map (λ (m : MemberValue W.Task W.Answer). m.ran) members.items }
    ensures owners { owners.new.items ≡ owners.old.items ++ map (λ (m : MemberValue W.Task W.Answer). m.own) members.items }
    ensures rows { rows_of rows.new.items ≡ rows_of rows.old.items ++ map (λ (m : MemberValue W.Task W.Answer). m.takers.items) members.items }
    ensures queue { IsOnQueue shared.now pass.new }
    ensures collected { Collects (view pass.old) (view pass.new) members.items }
{
    while let Some(member) = take_first(&mut members) {
        let Member {
            own,
            takers,
            place: _,
            pass: answers,
            ran: number,
        } = member;
        ran.push_reserved(number);
        owners.push_reserved(own);
        rows.push_reserved(takers);
        shared.absorb(pass, answers);
    }
}

// Joins one thread's takers into the owners' ends.
fn join_row<T: Drop>(owners: &mut [OwnDeque<T>], mut takers: Vec<Taker<T>>)
    requires at { deques_at takers.items ≡ map (λ (o : OwnView T). o.deque) owners.old }
    ensures { owners.new ≡ joined_row owners.old takers.items }
{
    while let Some(taker) = takers.pop() {
        owners[takers.len()].absorb(taker);
    }
}

// Joins the takers of all threads into the owners' ends.
fn join_all<T: Drop>(owners: &mut [OwnDeque<T>], mut rows: Vec<Vec<Taker<T>>>)
    requires at { All (λ (takers : List (TakerView T)). deques_at takers ≡ map (λ (o : OwnView T). o.deque) owners.old) (rows_of rows.items) }
    ensures { owners.new ≡ joined_rows owners.old (rows_of rows.items) }
{
    while let Some(takers) = rows.pop() {
        join_row(owners, takers);
    }
}

// The same for owners that are given back.
fn join_owners<T: Drop>(mut owners: Vec<OwnDeque<T>>, rows: Vec<Vec<Taker<T>>>) -> Vec<OwnDeque<T>>
    requires at { All (λ (takers : List (TakerView T)). deques_at takers ≡ map (λ (o : OwnView T). o.deque) owners.items) (rows_of rows.items) }
    ensures { result.items ≡ joined_rows owners.items (rows_of rows.items) }
{
    join_all(owners.as_mut_slice(), rows);
    owners
}

// Closes the deques.
fn close_all<T: Drop>(mut owners: Vec<OwnDeque<T>>, mut deques: Vec<Ends<T>>) -> Vec<Ends<T>>
    requires all { All (λ (o : OwnView T). o.parts ≡ 1024) owners.items }
    requires none { deques.items ≡ [] }
    requires places { length owners.items ≤ vec_capacity deques }
    ensures through { map through result.items ≡ map ended owners.items }
    ensures whole { All (λ (e : EndsValue T). IsAccounted (through e)) result.items }
{
    while let Some(own) = take_first(&mut owners) {
        deques.push_reserved(own.close());
    }
    deques
}

/// Joins the takers and passes of all workers once they have ended, and tells what the pool has done. The caller has
/// taken back or received an answer to as many tasks as it gave.
pub fn close<W: PoolWork>(
    caller: Caller<'_, W>,
    members: Vec<Member<W::Task, W::Answer>>,
    space: Space<W::Task>,
) -> Closed<W::Task, W::Answer>
    requires served { All (HasServed W.asked W.weight caller.queue) members.items }
    requires workplaces { map workplace_of members.items ≡ workplaces caller.deques }
    requires settled { IsSettled caller }
    requires space { IsVacant (length caller.deques) space }
    ensures { HasRun W.asked W.weight caller.entry members.items result }
{
    let Caller {
        caller_end,
        shared,
        ran: callers_share,
        ..
    } = caller;
    let CallerEnd {
        own,
        takers,
        mut pass,
    } = caller_end;
    let Space {
        mut ran,
        mut owners,
        mut rows,
        deques,
    } = space;
    ran.push_reserved(callers_share);
    owners.push_reserved(own);
    rows.push_reserved(takers);
    take_apart::<W>(shared, &mut pass, members, &mut ran, &mut owners, &mut rows);
    let owners = join_owners(owners, rows);
    shared.learn(&mut pass);
    Closed {
        deques: close_all(owners, deques),
        pass,
        ran,
    }
}

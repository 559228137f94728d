//! A pool before its threads begin.
ghost use Rattle.std.specs.Prelude.{◌≡◌, ◌+◌, ◌-◌, ◌<◌, ◌≤◌, [], ℕ, List, length, map, IfOk, vec_capacity};
ghost use Rattle.std.specs.List.{All};
ghost use Rattle.crossbeam_queue.specs.Passes.{view as answer_view};
ghost use Rattle.ht_pool.specs.PassLogs.{pass_log};
ghost use Rattle.ht_pool.specs.Takers.{DequeId, OwnView};
ghost use Rattle.ht_pool.specs.Members.{HasYetToServe, IsOnQueue, workplace, workplace_of};
ghost use Rattle.ht_pool.specs.Opening.{AreReady, own_deques};
ghost use Rattle.ht_pool.specs.Pools.{IsOpened};

use crate::caller_end::CallerEnd;
use crate::common::{AnswerPass, AnswerQueue, Common};
use crate::first::take_first;
use crate::member::Member;
use crate::new_deques::open_with_takers;
use crate::own::OwnDeque;
use crate::space::Space;
use crate::taker::Taker;
use std::alloc::{AllocError, Global};

/// All that a pool needs: what its threads share, the caller's end, and its workers.
#[derive(Drop)]
pub struct Pool<T: Drop, A: Drop> {
    /// What its threads share.
    pub shared: Common<A>,
    /// The caller's end.
    pub caller_end: CallerEnd<T, A>,
    /// The workers beside the caller.
    pub members: Vec<Member<T, A>>,
    /// Room for what is left of the pool.
    pub space: Space<T>,
}

impl<T: Drop + Send, A: Drop + Send> Pool<T, A> {
    /// A pool of the caller and `helpers` workers, at most 63. Each deque can hold `capacity` tasks, and the queue as many
    /// answers at least. It takes all the memory for these now, and that for the end of the pool.
    pub fn open(alloc: Global, helpers: u8, capacity: u16) -> Result<Pool<T, A>, AllocError>
        requires few { helpers ≤ 63 }
        requires some { 1 ≤ capacity }
        ensures opened { IfOk result (IsOpened capacity) }
        ensures workers { IfOk result (λ pool. length pool.caller_end.deques ≡ helpers + 1) }
    {
        let workers = usize::from(helpers) + 1;
        let members = Vec::with_capacity(alloc, usize::from(helpers))?;
        let ran = Vec::with_capacity(alloc, workers)?;
        let deques = Vec::with_capacity(alloc, workers)?;
        let (answers, pass): (AnswerQueue<A>, AnswerPass<A>) = AnswerQueue::ruled(
            alloc,
            usize::from(capacity),
        )?;
        let (owners, rows) = open_with_takers(alloc, workers, capacity)?;
        let space = Space {
            ran,
            owners,
            rows,
            deques,
        };
        Ok(assemble(Common::new(answers), pass, members, space))
    }
}

// The pool with these deques and takers: the caller has the first deque and the last row of takers, and each other deque with
// its row is a worker's. No worker is there yet in `members`, which has room for all. It takes no memory.
fn assemble<T: Drop, A: Drop>(
    shared: Common<A>,
    mut pass: AnswerPass<A>,
    mut members: Vec<Member<T, A>>,
    space: Space<T>,
) -> Pool<T, A>
    requires some { 1 ≤ length space.owners.items }
    requires few { length space.owners.items ≤ 64 }
    requires takers { length space.rows.items ≡ length space.owners.items }
    requires ready { AreReady (own_deques space.owners.items) space.owners.items space.rows.items }
    requires none { members.items ≡ [] }
    requires room { length space.owners.items ≤ vec_capacity members + 1 }
    requires ran { (space.ran.items ≡ []) × (length space.owners.items ≤ vec_capacity space.ran) }
    requires owners { length space.owners.items ≤ vec_capacity space.owners }
    requires rows { length space.owners.items ≤ vec_capacity space.rows }
    requires deques { (space.deques.items ≡ []) × (length space.owners.items ≤ vec_capacity space.deques) }
    requires queue { IsOnQueue shared pass }
    requires pass { answer_view pass ≡ pass_log 1024 [] [] }
    ensures opened { (capacity : ℕ) → All (λ (o : OwnView T). o.capacity ≡ capacity) space.owners.items → IsOpened capacity result }
    ensures workers { length result.caller_end.deques ≡ length space.owners.items }
{
    let Space {
        ran,
        mut owners,
        mut rows,
        deques,
    } = space;
    let Some(own) = take_first(&mut owners) else {
        unreachable!()
    };
    let Some(takers) = rows.pop() else {
        unreachable!()
    };
    make_members(&shared, &mut pass, &mut owners, &mut rows, &mut members);
    let caller_end = CallerEnd::new(own, takers, pass);
    Pool {
        shared,
        caller_end,
        members,
        space: Space {
            ran,
            owners,
            rows,
            deques,
        },
    }
}

// Makes the workers of their deques and takers, and cuts their passes on the queue off.
fn make_members<T: Drop, A: Drop>(
    shared: &Common<A>,
    pass: &mut AnswerPass<A>,
    owners: &mut Vec<OwnDeque<T>>,
    rows: &mut Vec<Vec<Taker<T>>>,
    members: &mut Vec<Member<T, A>>,
)
    requires few { length owners.old.items ≤ 63 }
    requires rows { length rows.old.items ≡ length owners.old.items }
    requires none { members.old.items ≡ [] }
    requires room { length owners.old.items ≤ vec_capacity members.old }
    requires queue { IsOnQueue shared.now pass.old }
    requires pass { answer_view pass.old ≡ pass_log 1024 [] [] }
    ensures fresh { (deques : List DequeId) → AreReady deques owners.old.items rows.old.items → All (HasYetToServe shared.now) members.new.items }
    ensures workplaces { (deques : List DequeId) → AreReady deques owners.old.items rows.old.items
        → map workplace_of members.new.items ≡ map (workplace deques) (own_deques owners.old.items) }
    ensures count { length members.new.items ≡ length owners.old.items }
    ensures capacity { vec_capacity members.new ≡ vec_capacity members.old }
    ensures owners { (owners.new.items ≡ []) × (vec_capacity owners.new ≡ vec_capacity owners.old) }
    ensures rows { (rows.new.items ≡ []) × (vec_capacity rows.new ≡ vec_capacity rows.old) }
    ensures queue { IsOnQueue shared.now pass.new }
    ensures pass { answer_view pass.new ≡ pass_log (1024 - length owners.old.items) [] [] }
{
    let mut place = 0u8;
    while let Some(own) = take_first(owners) {
        let Some(takers) = rows.pop() else {
            unreachable!()
        };
        place += 1;
        members.push_reserved(Member {
            own,
            takers,
            place,
            pass: shared.another(pass),
            ran: 0,
        });
    }
}

//! How a thread comes by a task.
ghost use Rattle.std.specs.Prelude.{◌≡◌, ◌≤◌, ◌∷◌, [], length, None, IfNone};
ghost use Rattle.ht_pool.specs.Takers.{Steals, Gets};
ghost use Rattle.ht_pool.specs.Moving.{refused_by};

use crate::moving::Move;
use crate::own::OwnDeque;
use crate::taker::Taker;
use crossbeam_deque::Steal;

/// The most tasks that a worker moves at once.
const MOST: u8 = 8;

// Moves one task from another's deque to the own one.
fn move_one<T: Drop>(taker: &mut Taker<T>, own: &mut OwnDeque<T>) -> Move<T>
    ensures { Gets (taker.old ∷ []) own.old (taker.new ∷ []) own.new (refused_by result) }
{
    match taker.steal() {
        Steal::Success(task) => match own.push(task) {
            Ok(()) => Move::Moved,
            Err(back) => Move::Refused(back),
        },
        Steal::Empty => Move::Empty,
        Steal::Retry => Move::Retry,
    }
}

// Moves up to eight tasks from another's deque to the own one, until one is refused.
fn move_from<T: Drop>(taker: &mut Taker<T>, own: &mut OwnDeque<T>) -> Move<T>
    ensures { Gets (taker.old ∷ []) own.old (taker.new ∷ []) own.new (refused_by result) }
{
    let mut moved = false;
    for _ in 0..MOST {
        match move_one(taker, own) {
            Move::Moved => moved = true,
            Move::Refused(task) => return Move::Refused(task),
            Move::Empty => break,
            Move::Retry => {}
        }
    }
    if moved { Move::Moved } else { Move::Empty }
}

// Moves tasks from the first of the other deques that gives one, beginning with the one after that of number `place`.
// Answers the task that the own deque refused, if it refused one.
fn move_some<T: Drop>(takers: &mut [Taker<T>], place: u8, own: &mut OwnDeque<T>) -> Option<T>
    requires few { length takers.old ≤ 64 }
    ensures { Gets takers.old own.old takers.new own.new result }
{
    let count = takers.len();
    for turn in 1..count {
        let at = (usize::from(place) + turn) % count;
        match move_from(&mut takers[at], own) {
            Move::Moved => return None,
            Move::Refused(task) => return Some(task),
            Move::Empty | Move::Retry => {}
        }
    }
    None
}

/// The next task of a worker whose deque has the number `place`: the first of its own deque, or, where that is empty,
/// of what it moves there from another. A task that its own deque refuses is the next one at once.
pub(crate) fn next_task<T: Drop>(
    takers: &mut [Taker<T>],
    place: u8,
    own: &mut OwnDeque<T>,
) -> Option<T>
    requires few { length takers.old ≤ 64 }
    ensures { Gets takers.old own.old takers.new own.new result }
{
    let mine = own.pop();
    if mine.is_some() {
        return mine;
    }
    let refused = move_some(takers, place, own);
    if refused.is_some() {
        return refused;
    }
    own.pop()
}

/// Takes one task from the first of the other deques that gives one, beginning with the one after that of number
/// `place`.
pub(crate) fn steal_one<T: Drop>(takers: &mut [Taker<T>], place: u8) -> Option<T>
    requires few { length takers.old ≤ 64 }
    ensures steals { Steals takers.old takers.new result }
    ensures none { IfNone result (takers.new ≡ takers.old) }
{
    let count = takers.len();
    for turn in 1..count {
        let at = (usize::from(place) + turn) % count;
        if let Steal::Success(task) = takers[at].steal() {
            return Some(task);
        }
    }
    None
}

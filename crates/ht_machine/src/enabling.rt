//! Which events may come.
ghost use Rattle.std.specs.Prelude.{◌≡◌, ◌↔◌, ◌<◌, ◌≤◌, length, Some, None, IfSome, IfNone, IsSome, IsTrue};
ghost use Rattle.std.specs.List.{position_or_len};
ghost use Rattle.ht_machine.specs.Machine.{IsEnabled, hand, deque, has_number, hit_of};
ghost use Rattle.ht_machine.specs.Facts.{IsMachine};

use crate::event::Event;
use crate::machine::Machine;
use ht_metric::{Hit, Job};

/// Whether an event may come now.
///
/// - `Issue`: the caller's hand is empty, fewer jobs than the window are issued and not emitted, and the job's number
///   is the count of issued jobs.
/// - `Push`: the actor has a job in hand.
/// - `Pop`: the actor's hand is empty, and its deque isn't.
/// - `Steal`: the two are not the same, the thief's hand is empty, and the other one's deque isn't.
/// - `Finish`: the actor has the hit's job in hand.
/// - `Accept`: a result has this number.
/// - `Emit`: the lowest number that is not emitted is booked.
///
/// An event of an actor that the pool does not have is not enabled.
#[must_use]
pub fn enabled(machine: &Machine, event: &Event) -> bool
    ensures enabled { IsTrue result ↔ IsEnabled machine.now event.now }
    ensures machine { IsMachine machine.now }
{
    match event {
        Event::Issue(job) => machine.can_issue(job),
        Event::Push(actor) => machine.can_push(*actor),
        Event::Pop(actor) => machine.can_take(*actor, *actor),
        Event::Steal { thief, from } => machine.can_take(*thief, *from) && *thief != *from,
        Event::Finish { actor, hit } => machine.can_finish(*actor, hit.job()),
        Event::Accept(number) => machine.can_accept(*number),
        Event::Emit => machine.can_emit(),
    }
}

impl Machine {
    fn can_issue(&self, job: &Job) -> bool
        ensures enabled { IsTrue result ↔ IsEnabled self.now (Event.Issue job.now) }
        ensures machine { IsMachine self.now }
    {
        let under_way = self.issued.len() - self.emitted.len();
        self.hands[0].is_none()
            && under_way < usize::from(self.window)
            && job.number() == self.issued.len() as u64
    }

    fn can_push(&self, actor: u8) -> bool
        ensures enabled { IsTrue result ↔ IsEnabled self.now (Event.Push actor) }
        ensures machine { IsMachine self.now }
    {
        actor < self.workers && self.hands[usize::from(actor)].is_some()
    }

    fn can_take(&self, actor: u8, owner: u8) -> bool
        ensures enabled { IsTrue result ↔ ((actor < self.now.workers) × (owner < self.now.workers)
            × (hand self.now actor ≡ None) × (0 < length (deque self.now owner))) }
        ensures machine { IsMachine self.now }
    {
        let there = actor < self.workers && owner < self.workers;
        there
            && self.hands[usize::from(actor)].is_none()
            && self.deques[usize::from(owner)].has_some()
    }

    fn can_finish(&self, actor: u8, job: &Job) -> bool
        ensures enabled { IsTrue result ↔ ((actor < self.now.workers) × (hand self.now actor ≡ Some job.now)) }
        ensures machine { IsMachine self.now }
    {
        actor < self.workers && holds(&self.hands[usize::from(actor)], job)
    }

    fn can_accept(&self, number: u64) -> bool
        ensures enabled { IsTrue result ↔ IsEnabled self.now (Event.Accept number) }
        ensures machine { IsMachine self.now }
    {
        has(&self.results, number)
    }

    fn can_emit(&self) -> bool
        ensures enabled { IsTrue result ↔ IsEnabled self.now Event.Emit }
        ensures machine { IsMachine self.now }
    {
        has(&self.booked, self.emitted.len() as u64)
    }
}

// Whether this job is in a hand.
fn holds(hand: &Option<Job>, job: &Job) -> bool
    ensures { IsTrue result ↔ (hand.now ≡ Some job.now) }
{
    match hand {
        Some(held) => held.same(job),
        None => false,
    }
}

// Whether the hit of a job of this number is among these.
pub(crate) fn has(hits: &[Hit], number: u64) -> bool
    ensures { IsTrue result ↔ IsSome (hit_of number hits.now) }
{
    index_of(hits, number).is_some()
}

// The index of the hit of a job of this number.
pub(crate) fn index_of(hits: &[Hit], number: u64) -> Option<usize>
    ensures some { IfSome result (λ at. (at < length hits.now) × (at ≡ position_or_len (has_number number) hits.now)) }
    ensures none { IfNone result (length hits.now ≤ position_or_len (has_number number) hits.now) }
{
    for (at, hit) in hits.iter().enumerate() {
        if hit.job().number() == number {
            return Some(at);
        }
    }
    None
}

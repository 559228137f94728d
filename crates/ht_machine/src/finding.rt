//! Where a job is.
ghost use Rattle.std.specs.Prelude.{◌≡◌, ◌≢◌, ◌↔◌, ◌<◌, ◌≤◌, length, Some, IfSome, IfNone, IsNone, IsTrue};
ghost use Rattle.std.specs.List.{flat_map};
ghost use Rattle.std.specs.Option.{option_to_list};
ghost use Rattle.ht_machine.specs.declared.event.Spot.{Spot as SpotValue};
ghost use Rattle.ht_machine.specs.Machine.{hand, deque};
ghost use Rattle.ht_machine.specs.Facts.{IsMachine, jobs_at, numbered, places};

use crate::enabling::has;
use crate::event::Spot;
use crate::machine::Machine;
use ht_metric::Job;

/// The place of the issued job of this number, which is its only one. `None` where no job of this number is issued.
#[must_use]
pub fn place_of(machine: &Machine, number: u64) -> Option<Spot>
    ensures issued { IsNone result ↔ (length machine.now.issued ≤ number) }
    ensures place { IfSome result (λ spot. numbered number (jobs_at machine.now spot) ≡ 1) }
    ensures only { (spot other : SpotValue) → result ≡ Some spot → other ≢ spot → numbered number (jobs_at machine.now other) ≡ 0 }
{
    machine.find(number)
}

impl Machine {
    // A place that has a job of this number, if there is one.
    fn find(&self, number: u64) -> Option<Spot>
        ensures some { IfSome result (λ spot. 0 < numbered number (jobs_at self.now spot)) }
        ensures none { IfNone result (numbered number (places self.now) ≡ 0) }
        ensures machine { IsMachine self.now }
    {
        if let Some(actor) = self.hand_with(number) {
            return Some(Spot::Hand(actor));
        }
        if let Some(actor) = self.deque_with(number) {
            return Some(Spot::Deque(actor));
        }
        if has(&self.results, number) {
            return Some(Spot::Results);
        }
        if has(&self.booked, number) {
            return Some(Spot::Booked);
        }
        if has(&self.emitted, number) {
            return Some(Spot::Emitted);
        }
        None
    }

    // The first actor that has a job of this number in hand.
    fn hand_with(&self, number: u64) -> Option<u8>
        ensures some { IfSome result (λ actor. 0 < numbered number (option_to_list (hand self.now actor))) }
        ensures none { IfNone result (numbered number (flat_map option_to_list self.now.hands) ≡ 0) }
        ensures machine { IsMachine self.now }
    {
        for actor in 0..self.workers {
            if is_numbered(&self.hands[usize::from(actor)], number) {
                return Some(actor);
            }
        }
        None
    }

    // The first actor in whose deque a job of this number waits.
    fn deque_with(&self, number: u64) -> Option<u8>
        ensures some { IfSome result (λ actor. 0 < numbered number (deque self.now actor)) }
        ensures none { IfNone result (numbered number (flat_map (λ jobs. jobs) self.now.deques) ≡ 0) }
        ensures machine { IsMachine self.now }
    {
        for actor in 0..self.workers {
            if self.deques[usize::from(actor)].has(number) {
                return Some(actor);
            }
        }
        None
    }
}

// Whether a hand has a job of this number.
fn is_numbered(hand: &Option<Job>, number: u64) -> bool
    ensures { IsTrue result ↔ (0 < numbered number (option_to_list hand.now)) }
{
    match hand {
        Some(job) => job.number() == number,
        None => false,
    }
}

//! What the events do.
ghost use Rattle.std.specs.Prelude.{◌≡◌, ◌↔◌, ◌<◌, ◌++◌, None, Err, OnOk, OnErr};
ghost use Rattle.std.specs.Option.{option_to_list};
ghost use Rattle.ht_machine.specs.Machine.{IsEnabled, Makes, after, taken, hand, hit_of, without};
ghost use Rattle.ht_machine.specs.Facts.{IsMachine, CanGoOn};

use crate::enabling::{enabled, index_of};
use crate::event::{Event, StepFault};
use crate::machine::Machine;
use ht_metric::{Hit, Job};
use std::alloc::AllocError;

/// Makes one step, if the event is enabled. The machine is unchanged where it isn't, and where memory runs out.
///
/// - `Issue`: the job is in the caller's hand.
/// - `Push`: the job is at the back of the actor's deque.
/// - `Pop`, `Steal`: the front of the deque is in the hand.
/// - `Finish`: the hit is among the results.
/// - `Accept`: the result is booked.
/// - `Emit`: the booked hit is the last one emitted.
pub fn step(machine: &mut Machine, event: Event) -> Result<(), StepFault>
    ensures made { OnOk result (machine.new ≡ after machine.old event) }
    ensures enabled { result ≡ Err StepFault.NotEnabled ↔ ¬ IsEnabled machine.old event }
    ensures unchanged { OnErr result (machine.new ≡ machine.old) }

    // What holds whatever happens.
    ensures machine { IsMachine machine.new }
    ensures going { CanGoOn machine.new }
{
    if !enabled(machine, &event) {
        return Err(StepFault::NotEnabled);
    }
    match machine.make(event) {
        Ok(()) => Ok(()),
        Err(_) => Err(StepFault::NoMemory),
    }
}

impl Machine {
    fn make(&mut self, event: Event) -> Result<(), AllocError>
        requires { IsEnabled self.old event }
        ensures { Makes event self.old self.new result }
    {
        match event {
            Event::Issue(job) => self.issue(job),
            Event::Push(actor) => self.push(actor),
            Event::Pop(actor) => Ok(self.take(actor, actor)),
            Event::Steal { thief, from } => Ok(self.take(thief, from)),
            Event::Finish { actor, hit } => self.finish(actor, hit),
            Event::Accept(number) => self.accept(number),
            Event::Emit => self.emit(),
        }
    }

    fn issue(&mut self, job: Job) -> Result<(), AllocError>
        requires { IsEnabled self.old (Event.Issue job) }
        ensures { Makes (Event.Issue job) self.old self.new result }
    {
        self.issued.push(job.copy())?;
        self.hands[0] = Some(job);
        Ok(())
    }

    fn push(&mut self, actor: u8) -> Result<(), AllocError>
        requires { IsEnabled self.old (Event.Push actor) }
        ensures { Makes (Event.Push actor) self.old self.new result }
    {
        let actor = usize::from(actor);
        self.deques[actor].push(&self.hands[actor])?;
        self.hands[actor] = None;
        Ok(())
    }

    fn take(&mut self, actor: u8, owner: u8)
        requires actor { actor < self.old.workers }
        requires owner { owner < self.old.workers }
        requires none { hand self.old actor ≡ None }
        ensures { self.new ≡ taken self.old actor owner }
    {
        self.hands[usize::from(actor)] = self.deques[usize::from(owner)].pop();
    }

    fn finish(&mut self, actor: u8, hit: Hit) -> Result<(), AllocError>
        requires { IsEnabled self.old (Event.Finish actor hit) }
        ensures { Makes (Event.Finish actor hit) self.old self.new result }
    {
        self.results.push(hit)?;
        self.hands[usize::from(actor)] = None;
        Ok(())
    }

    fn accept(&mut self, number: u64) -> Result<(), AllocError>
        ensures { Makes (Event.Accept number) self.old self.new result }
    {
        hand_over(number, &mut self.results, &mut self.booked)?;
        Ok(())
    }

    fn emit(&mut self) -> Result<(), AllocError>
        requires { IsEnabled self.old Event.Emit }
        ensures { Makes Event.Emit self.old self.new result }
    {
        let number = self.emitted.len() as u64;
        hand_over(number, &mut self.booked, &mut self.emitted)?;
        Ok(())
    }
}

// Takes the hit of this number out of the ones and puts it behind the others.
fn hand_over(number: u64, from: &mut Vec<Hit>, into: &mut Vec<Hit>) -> Result<(), AllocError>
    ensures out { OnOk result (from.new.items ≡ without number from.old.items) }
    ensures put { OnOk result (into.new.items ≡ into.old.items ++ option_to_list (hit_of number from.old.items)) }
    ensures err { OnErr result ((from.new.items ≡ from.old.items) × (into.new.items ≡ into.old.items)) }
{
    into.reserve(1)?;
    let Some(at) = index_of(from, number) else {
        return Ok(());
    };
    match into.push(from.remove(at)) {
        Ok(()) => Ok(()),
        Err(_) => unreachable!(),
    }
}

//! The window.
ghost use Rattle.std.specs.Prelude.{◌≡◌, ◌≢◌, ◌↔◌, ◌+◌, ◌-◌, ◌^◌, ◌<◌, ◌≤◌, [], ◌∷◌};
ghost use Rattle.std.specs.Prelude.{◌++◌, length, drop, slice_get, slice_set};
ghost use Rattle.std.specs.Prelude.{Some, None, IfOk, IfSome, IfNone, nat_lt, option_map};
ghost use Rattle.circular_buffer.specs.Buffer.{buffer};
ghost use Rattle.ht_metric.specs.declared.found.Found.{Found as FoundValue};
ghost use Rattle.ht_metric.specs.Hits.{parts_of};
ghost use Rattle.ht_metric.specs.Jobs.{near};
ghost use Rattle.ht_window.specs.declared.slot.Slot.{Slot as SlotValue};
ghost use Rattle.ht_window.specs.Windows.{unbooked, booked, jobs, front_hit, first_unbooked, IsWindow};
ghost use Rattle.ht_window.specs.Accepting.{Accepts, IsUnbooked};

use crate::slot::Slot;
use circular_buffer::HeapCircularBuffer;
use ht_metric::{Found, Hit, Job};
use std::alloc::{AllocError, Global};
use std::marker::Model;

/// What a window did with what was found for a job.
#[derive(Clone, Copy, Debug, PartialEq, Eq)]
pub enum Accepted {
    /// It is now in the slot of its job.
    Booked,
    /// The slot of its job was booked before.
    Twice,
    /// No slot holds its job.
    Stranger,
}

/// The jobs that were issued and whose hits were not yet given out, in order, with what was found for them so far.
///
/// There are at most as many slots as the capacity. The jobs are numbered from the front on, one after another.
#[derive(Drop)]
pub struct Window {
    slots: HeapCircularBuffer<Slot>,
    front: u64,
}

impl Model for Window {
    ghost use Rattle.ht_window.specs.Windows.{WindowView, IsWindow};

    ghost Value = { WindowView };

    ghost view = { λ w. record { capacity = w.slots.capacity; front = w.front; slots = w.slots.items } };

    ghost invariant = { λ w. IsWindow (record { capacity = w.slots.capacity; front = w.front; slots = w.slots.items }) };
}

impl Window {
    /// A window of 1 to 4096 slots in which nothing is issued yet; the number of the first job is `first`.
    pub fn new(alloc: Global, capacity: u16, first: u64) -> Result<Window, AllocError>
        requires some { 1 ≤ capacity }
        requires few { capacity ≤ 4096 }
        ensures empty { IfOk result (λ w. w ≡ record { capacity = capacity; front = first; slots = [] }) }
    {
        let slots = HeapCircularBuffer::with_capacity(alloc, usize::from(capacity))?;
        Ok(Window {
            slots,
            front: first,
        })
    }

    /// Whether there are fewer slots than the capacity, so that another job can be issued.
    #[must_use]
    pub fn has_room(&self) -> bool
        ensures free_slot { result ≡ nat_lt (length self.now.slots) self.now.capacity }
        ensures window { IsWindow self.now }
    {
        !self.slots.is_full()
    }

    /// Issues a job: it gets a new last slot, which waits for its answer. There is a free slot, and the job's number is the next
    /// one, below 2^64 - 1.
    pub fn issue(&mut self, job: Job)
        requires free_slot { length self.old.slots < self.old.capacity }
        requires next { job.number ≡ self.old.front + length self.old.slots }
        requires last { job.number < 2 ^ 64 - 1 }
        ensures issued { self.new ≡ record {
          capacity = self.old.capacity;
          front = self.old.front;
          slots = self.old.slots ++ unbooked job ∷ [];
        } }
    {
        self.slots.push_back(Slot { job, found: None });
    }

    /// Puts what a hit says into the slot of its job, as [`accept_found`](Window::accept_found) does. The hit is dropped
    /// then.
    pub fn accept(&mut self, hit: Hit) -> Accepted
        ensures { Accepts self.old hit.job result self.new }
    {
        self.accept_found(hit.job(), hit.found())
    }

    /// Puts what was found for a job into its slot, if a slot holds that very job and waits. Else nothing changes:
    /// `Twice` where the slot of the job was booked before, `Stranger` where no slot holds the job, as where a slot
    /// holds another job of the same number.
    pub fn accept_found(&mut self, job: &Job, found: Found) -> Accepted
        requires found { found ≡ near job.now }
        ensures { Accepts self.old job.now result self.new }
    {
        let number = job.number();
        if number < self.front {
            return Accepted::Stranger;
        }
        book(&mut self.slots, number - self.front, job, found)
    }

    /// Takes out the first slot and gives the hit of its job, so that the front's number rises by one. `None` where
    /// there is no slot or the first one waits; nothing changes then.
    #[must_use]
    pub fn emit(&mut self) -> Option<Hit>
        ensures hit { option_map parts_of result ≡ front_hit self.old.slots }
        ensures emitted { IfSome result (λ _. self.new ≡ record {
          capacity = self.old.capacity;
          front = self.old.front + 1;
          slots = drop 1 self.old.slots;
        }) }
        ensures none { IfNone result (self.new ≡ self.old) }
        ensures job { IfSome result (λ hit. jobs self.old.slots ≡ hit.job ∷ jobs self.new.slots) }
        ensures window { IsWindow self.new }
    {
        let found = self.slots.front()?.found?;
        let slot = self.slots.pop_front()?;
        self.front += 1;
        Some(Hit::join(slot.job, found))
    }

    /// Counts jobs that were run elsewhere, with no slot of theirs: the number of the front rises by `count`, to less than
    /// 2^64. The window is empty before and after.
    pub fn skip(&mut self, count: u64)
        requires empty { self.old.slots ≡ [] }
        requires last { self.old.front + count < 2 ^ 64 }
        ensures skipped { self.new ≡ record {
          capacity = self.old.capacity;
          front = self.old.front + count;
          slots = [];
        } }
    {
        self.front += count;
    }

    /// A copy of the first job that waits for its answer. `None` where no slot waits.
    #[must_use]
    pub fn first_unbooked(&self) -> Option<Job>
        ensures first { result ≡ first_unbooked self.now.slots }
        ensures unbooked { IfSome result (IsUnbooked self.now) }
        ensures window { IsWindow self.now }
    {
        for slot in self.slots.iter() {
            if slot.found.is_none() {
                return Some(slot.job.copy());
            }
        }
        None
    }
}

/// Puts what was found for a job into slot `at`, if that is there, holds the job and waits.
fn book(slots: &mut HeapCircularBuffer<Slot>, at: u64, job: &Job, found: Found) -> Accepted
    requires found { found ≡ near job.now }
    ensures booked { result ≡ Accepted.Booked ↔ (slice_get slots.old.items at ≡ Some (unbooked job.now)) }
    ensures twice { result ≡ Accepted.Twice
        ↔ ((other : FoundValue) × (slice_get slots.old.items at ≡ Some (record { job = job.now; found = Some other }))) }
    ensures stranger { result ≡ Accepted.Stranger ↔ ((s : SlotValue) → slice_get slots.old.items at ≡ Some s → s.job ≢ job.now) }
    ensures books { result ≡ Accepted.Booked → slots.new ≡ buffer (slice_set slots.old.items at (booked job.now)) slots.old.capacity }
    ensures refused { result ≢ Accepted.Booked → slots.new ≡ slots.old }
{
    let Some(slot) = slots.get_mut(at as usize) else {
        return Accepted::Stranger;
    };
    if !slot.job.same(job) {
        return Accepted::Stranger;
    }
    if slot.found.is_some() {
        return Accepted::Twice;
    }
    slot.found = Some(found);
    Accepted::Booked
}

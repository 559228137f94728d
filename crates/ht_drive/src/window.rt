//! The window of a drive.
ghost use Rattle.std.specs.Prelude.{◌≡◌, ◌+◌, ◌%◌, ◌^◌, ◌<◌, ◌≤◌, ◌++◌, ◌∷◌, [], length, Some, None, false, IfOk, IfNone, IfSome, IsTrue, OnErr};
ghost use Rattle.circular_buffer.specs.Buffer.{buffer};
ghost use Rattle.ht_feed.specs.Dues.{count_in};
ghost use Rattle.ht_drive.specs.Blocks.{BooksAt, IsBlock, behind, block_window, due_in, first_answered, seen, slot_of, window_of};

use crate::slot::Slot;
use circular_buffer::HeapCircularBuffer;
use ht_feed::{Answer, Shared, Work};
use std::alloc::{AllocError, Global};
use std::marker::Model;

/// The blocks that are due, in order, each with its answer once that has come. It has room for a number of jobs.
/// Contracts see these, and the place of the first block in the order of all.
#[derive(Drop)]
pub(crate) struct Window<B: Shared, A: Answer> {
    slots: HeapCircularBuffer<Slot<B, A>>,
    // The place of the first block in the order of all.
    front: u64,
    // How many jobs the blocks have.
    held: u16,
    capacity: u16,
}

impl<B: Shared, A: Answer> Model for Window<B, A> {
    ghost use Rattle.ht_drive.specs.Blocks.{IsBlockWindow, WindowOf, seen, window_of};

    ghost Value = { WindowOf B A };

    ghost view = { λ w. window_of w.capacity w.front w.slots.items };

    ghost invariant = { λ w. IsBlockWindow w.slots.capacity w.held (seen B.jobs (window_of w.capacity w.front w.slots.items)) };
}

impl<B: Shared + Drop, A: Answer + Drop> Window<B, A> {
    /// A window in which no block is due, with room for 1 to 4096 jobs.
    #[tactic(auto, using(crate::proofs::Windows::empty_window))]
    pub(crate) fn new(alloc: Global, capacity: u16) -> Result<Window<B, A>, AllocError>
        requires some { 1 ≤ capacity }
        requires few { capacity ≤ 4096 }
        ensures { IfOk result (λ window. window ≡ window_of capacity 0 []) }
    {
        Ok(Window {
            slots: HeapCircularBuffer::with_capacity(alloc, usize::from(capacity))?,
            front: 0,
            held: 0,
            capacity,
        })
    }

    /// The number of jobs for which there is still room.
    pub(crate) fn room(&self) -> u16
        ensures { result + count_in (due_in B.jobs self.now.slots) ≡ self.now.capacity }
    {
        self.capacity - self.held
    }

    /// Whether no block is due.
    #[tactic(auto, using(crate::proofs::Windows::due_none))]
    pub(crate) fn is_empty(&self) -> bool
        ensures { IsTrue result → due_in B.jobs self.now.slots ≡ [] }
    {
        self.slots.is_empty()
    }

    /// Puts a block behind the others, where it waits for its answer. Gives its place in the order.
    #[tactic(auto, using(crate::proofs::Windows::due_more, crate::proofs::Windows::behind_is))]
    pub(crate) fn push(&mut self, block: B) -> u64
        requires block { IsBlock (B.jobs block) }
        requires room { count_in (due_in B.jobs self.old.slots) + length (B.jobs block) ≤ self.old.capacity }
        ensures window { self.new ≡ window_of self.old.capacity self.old.front (self.old.slots ++ slot_of block None ∷ []) }
        ensures seen { seen B.jobs self.new ≡ block_window self.old.capacity (due_in B.jobs self.old.slots ++ B.jobs block ∷ []) }
        ensures place { behind self.old.front result ≡ length self.old.slots }
    {
        let place = self.front.wrapping_add(self.slots.len() as u64);
        let slot = Slot::new(block);
        self.held += slot.size();
        keep(&mut self.slots, slot);
        place
    }

    /// Keeps the answer to a block that was run and has this place in the order, where that block is due, is known to be the
    /// one that was run, and waits.
    #[tactic(auto, using(crate::proofs::Windows::books_behind))]
    pub(crate) fn accept(&mut self, place: u64, block: &B, answer: A)
        requires right { A.answers answer (B.jobs block.now) }
        ensures same { seen B.jobs self.new ≡ seen B.jobs self.old }
        ensures front { self.new.front ≡ self.old.front }
        ensures books { BooksAt B.alike (behind self.old.front place) block.now answer self.old.slots self.new.slots }
    {
        let at = place.wrapping_sub(self.front);
        if at < self.slots.len() as u64 {
            book(&mut self.slots, at as usize, block, answer);
        }
    }

    /// Runs the first block, where one is due that waits for its answer. The only error is lack of memory.
    pub(crate) fn answer_first<W: Work<B, Answer = A>>(
        &mut self,
        work: &W,
    ) -> Result<(), AllocError>
        ensures same { seen B.jobs self.new ≡ seen B.jobs self.old }
        ensures lacks { OnErr result A.may_lack }
    {
        answer_first(&mut self.slots, work)
    }

    /// Takes the first block out, with its answer. None where no block is due or the first one waits.
    pub(crate) fn emit(&mut self) -> Option<(B, A)>
        ensures first { IfSome result (λ parts. self.old.slots ≡ slot_of parts.0 (Some parts.1) ∷ self.new.slots) }
        ensures front { IfSome result (λ _. self.new.front ≡ (self.old.front + 1) % 2 ^ 64) }
        ensures block { IfSome result (λ parts. seen B.jobs self.old ≡ block_window self.new.capacity (B.jobs parts.0 ∷ due_in B.jobs self.new.slots)) }
        ensures right { IfSome result (λ parts. A.answers parts.1 (B.jobs parts.0)) }
        ensures waits { IfNone result (first_answered self.old.slots ≡ false) }
        ensures none { IfNone result (self.new ≡ self.old) }
    {
        if !is_first_answered(&self.slots) {
            return None;
        }
        let Some(slot) = self.slots.pop_front() else {
            unreachable!();
        };
        self.front = self.front.wrapping_add(1);
        self.held -= slot.size();
        Some(slot.into_parts())
    }
}

// Puts a slot behind the others.
fn keep<B: Shared + Drop, A: Answer + Drop>(
    slots: &mut HeapCircularBuffer<Slot<B, A>>,
    slot: Slot<B, A>,
)
    requires { length slots.old.items < slots.old.capacity }
    ensures { slots.new ≡ buffer (slots.old.items ++ slot ∷ []) slots.old.capacity }
{
    let Ok(()) = slots.try_push_back(slot) else {
        unreachable!();
    };
}

// Keeps the answer to a block in a slot.
#[tactic(auto, using(crate::proofs::Windows::due_put, crate::proofs::Windows::books_put, crate::proofs::Windows::books_none))]
fn book<B: Shared + Drop, A: Answer + Drop>(
    slots: &mut HeapCircularBuffer<Slot<B, A>>,
    at: usize,
    block: &B,
    answer: A,
)
    requires right { A.answers answer (B.jobs block.now) }
    ensures capacity { slots.new.capacity ≡ slots.old.capacity }
    ensures same { due_in B.jobs slots.new.items ≡ due_in B.jobs slots.old.items }
    ensures books { BooksAt B.alike at block.now answer slots.old.items slots.new.items }
{
    if let Some(slot) = slots.get_mut(at) {
        slot.book(block, answer);
    }
}

// Runs the block of the first slot, where that waits.
#[tactic(auto, using(crate::proofs::Windows::due_put))]
fn answer_first<B: Shared + Drop, A: Answer + Drop, W: Work<B, Answer = A>>(
    slots: &mut HeapCircularBuffer<Slot<B, A>>,
    work: &W,
) -> Result<(), AllocError>
    ensures capacity { slots.new.capacity ≡ slots.old.capacity }
    ensures same { due_in B.jobs slots.new.items ≡ due_in B.jobs slots.old.items }
    ensures lacks { OnErr result A.may_lack }
{
    match slots.get_mut(0) {
        Some(slot) if !slot.is_answered() => slot.find_answer(work),
        _ => Ok(()),
    }
}

// Whether there is a first slot, with its answer.
#[tactic(auto, using(crate::proofs::Windows::first_some, crate::proofs::Windows::first_none))]
fn is_first_answered<B: Shared + Drop, A: Answer + Drop>(
    slots: &HeapCircularBuffer<Slot<B, A>>,
) -> bool
    ensures { result ≡ first_answered slots.now.items }
{
    match slots.front() {
        Some(slot) => slot.is_answered(),
        None => false,
    }
}

//! What a window keeps of a block.
ghost use Rattle.std.specs.Prelude.{◌≡◌, None, Some, OnErr, IsSome, IsTrue};
ghost use Rattle.std.specs.Option.{is_some};
ghost use Rattle.ht_drive.specs.Blocks.{Books, IsBlock, jobs_in, slot_of};

use ht_feed::{Answer, Shared, Work};
use std::alloc::AllocError;
use std::marker::Model;

/// A block that is due, and the answer to it once that has come. Contracts see both, and know that the answer is one to
/// the block's jobs.
#[derive(Drop)]
pub(crate) struct Slot<B: Shared, A: Answer> {
    block: B,
    answer: Option<A>,
}

impl<B: Shared, A: Answer> Model for Slot<B, A> {
    ghost use Rattle.std.specs.Prelude.{IfSome};
    ghost use Rattle.ht_drive.specs.Blocks.{IsBlock, SlotOf, slot_of};

    ghost Value = { SlotOf B A };

    ghost view = { λ s. slot_of s.block s.answer };

    ghost invariant = { λ s. IsBlock (B.jobs s.block) × IfSome s.answer (λ answer. A.answers answer (B.jobs s.block)) };
}

impl<B: Shared + Drop, A: Answer + Drop> Slot<B, A> {
    /// A block that waits for its answer.
    pub(crate) fn new(block: B) -> Slot<B, A>
        requires { IsBlock (B.jobs block) }
        ensures { result ≡ slot_of block None }
    {
        Slot {
            block,
            answer: None,
        }
    }

    /// How many jobs the block has.
    pub(crate) fn size(&self) -> u16
        ensures { result ≡ jobs_in (B.jobs self.now.block) }
    {
        self.block.size()
    }

    /// Whether the answer has come.
    pub(crate) fn is_answered(&self) -> bool
        ensures { result ≡ is_some self.now.answer }
    {
        self.answer.is_some()
    }

    /// Keeps the answer to a block that was run, where that is known to be the block of this slot and none has come.
    pub(crate) fn book(&mut self, block: &B, answer: A)
        requires right { A.answers answer (B.jobs block.now) }
        ensures { Books B.alike block.now answer self.old self.new }
    {
        if self.answer.is_none() && self.block.same(block) {
            self.answer = Some(answer);
        }
    }

    /// Runs the block where it is. The only error is lack of memory, and leaves the slot as it was.
    pub(crate) fn find_answer<W: Work<B, Answer = A>>(&mut self, work: &W) -> Result<(), AllocError>
        ensures same { self.new.block ≡ self.old.block }
        ensures lacks { OnErr result A.may_lack }
    {
        let answer = work.answer_to(&self.block)?;
        self.answer = Some(answer);
        Ok(())
    }

    /// The block, with the answer to it, which has come.
    pub(crate) fn into_parts(self) -> (B, A)
        requires { IsSome self.answer }
        ensures parts { self ≡ slot_of result.0 (Some result.1) }
        ensures right { A.answers result.1 (B.jobs result.0) }
    {
        let Slot { block, answer } = self;
        let Some(answer) = answer else {
            unreachable!();
        };
        (block, answer)
    }
}

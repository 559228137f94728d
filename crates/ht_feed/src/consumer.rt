//! What becomes of hits.
ghost use Rattle.std.specs.Prelude.{◌≡◌, ℕ, List, [], ◌∷◌, ◌++◌, drop, slice_get, Some, OnOk};
ghost use Rattle.ht_io.specs.Devices.{Device};
ghost use Rattle.ht_feed.specs.Items.{Headed};
ghost use Rattle.ht_feed.specs.Dues.{all_due, due_of, headed_due};
ghost use Rattle.ht_feed.specs.Consumers.{BooksJobs};

use crate::answer::Answer;
use crate::book_fault::BookFault;
use crate::due_block::DueBlock;
use crate::reader::BlockReader;
use circular_buffer::HeapCircularBuffer;

/// What becomes of the hits of blocks: pieces, such as lines of text, which a consumer puts into its device.
///
/// An in-flight reader hands a consumer the answers to the blocks of its reader, in their order. In each state the consumer shows
/// which pieces it puts in all if the hits of exactly these jobs still come, those included that it keeps back until
/// then. So taking the hits of a block puts the first of them, and what is left is what the consumer shows from then on.
pub trait Consumer<R: BlockReader> {
    /// What is put, as contracts see it.
    type Piece;

    /// What it takes for a block.
    type Answer: Answer + Drop;

    /// The device that the pieces are put into.
    ghost shown: { Self → Device Self.Piece };

    /// Which borrows lead to that device; none where the consumer owns it.
    ghost lent: { Self → List ℕ };

    /// What is put in all if the hits of exactly these jobs still come.
    ghost pieces: { Self → List (Headed R.Head) → List Self.Piece };

    /// What is kept back belongs to jobs before these jobs, which are due; if none is due, nothing is kept back.
    ghost waits: { Self → List (Headed R.Head) → Type 0 };

    /// Takes the answer to the first block due, whose frame has this head. In `due` are all blocks that are due, in
    /// order, this one first. After a refusal nothing is promised about the pieces still to come or kept back.
    fn take(
        &mut self,
        head: &R::Head,
        block: &R::Block,
        answer: &Self::Answer,
        due: &HeapCircularBuffer<DueBlock<R>>,
    ) -> Result<(), BookFault>
        requires first { slice_get due.now.items 0 ≡ Some (due_of head.now (R.Block.jobs block.now)) }
        requires right { Self.Answer.answers answer.now (R.Block.jobs block.now) }

        // What was put, and what is left to put.
        ensures books { BooksJobs result (shown self.old) (shown self.new) (pieces self.old) (pieces self.new)
            (headed_due (due_of head.now (R.Block.jobs block.now))) (lent self.old) (lent self.new) }
        ensures waits { OnOk result (waits self.old (all_due due.now.items) → waits self.new (all_due (drop 1 due.now.items))) };

    /// What is kept back may wait while more jobs are due.
    ghost more_due: { (a : Self) (due : List (Headed R.Head)) (h : Headed R.Head) → waits a due → waits a (due ++ h ∷ []) };

    /// Where no job is due, nothing is kept back.
    ghost none_due: { (a : Self) → waits a [] → pieces a [] ≡ [] };
}

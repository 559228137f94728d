//! A consumer that keeps whole frames back also where no other block is due yet.
ghost use Rattle.std.specs.Prelude.{◌≡◌, ◌∷◌};
ghost use Rattle.ht_feed.specs.Limits.{IsCrewSize};
ghost use Rattle.ht_frames.specs.Frames.{results_by};
ghost use Rattle.ht_frames.specs.Gathering.{booked_behind};
ghost use Rattle.ht_results.specs.Folding.{label_plan, result_of, with_octets};

use circular_buffer::HeapCircularBuffer;
use ht_capture::FrameHead;
use ht_capture_blocks::{CaptureBlock, CaptureReader};
use ht_feed::{BookFault, Consumer, DueBlock};
use ht_frames::{Book, Decoding, Frame, Frames, Tally, Whole, gather_block};
use ht_results::FrameResult;
use ht_rx::HardLabels;
use std::alloc::Global;
use std::collections::VecDeque;
use std::sync::Wait;
use std::thread::Threads;

/// Books the result of each frame in a book, and has workers decode whole frames, as a `ReceiverTogether` of crate `ht_frames`
/// does. But it keeps them back whether or not another block is due, as long as its capture is read: blocks of other captures
/// come in between. So it may end with whole frames in the queue, and its owner books them. With the last block due of a
/// capture whose end was read, the caller decodes the frame that is whole then and books all, so that they don't count against
/// other captures.
#[derive(Drop)]
pub(crate) struct KeepingLines<'a, R, B> {
    rt: &'a R,
    alloc: Global,
    // Where workers find whole frames.
    frames: &'a Frames<Whole<HardLabels>>,
    // How many frames are decoded while tallies are taken.
    beside: u8,
    // Whether its capture is read no more.
    stopped: bool,
    under_way: &'a mut Frame<HardLabels>,
    // The whole frames whose results aren't booked, in order.
    queue: &'a mut VecDeque<Decoding<Whole<HardLabels>>>,
    book: &'a mut B,
}

impl<'a, R, B> KeepingLines<'a, R, B> {
    /// A consumer for this number of workers, of which the caller is one; `stopped` says that its capture is read no more. It
    /// books results in this book, and goes on from the frame that is under way and those that are whole. It takes no memory.
    pub(crate) fn new(
        rt: &'a R,
        alloc: Global,
        workers: u8,
        stopped: bool,
        frames: &'a Frames<Whole<HardLabels>>,
        under_way: &'a mut Frame<HardLabels>,
        queue: &'a mut VecDeque<Decoding<Whole<HardLabels>>>,
        book: &'a mut B,
    ) -> KeepingLines<'a, R, B>
        requires crew { IsCrewSize workers }
        ensures under_way { result.under_way ≡ under_way.entry }
        ensures queue { result.queue ≡ queue.entry }
        ensures book { result.book ≡ book.entry }
    {
        KeepingLines {
            rt,
            alloc,
            frames,
            beside: 2 * (workers - 1),
            stopped,
            under_way,
            queue,
            book,
        }
    }
}

impl<'a, R: Threads + Wait, B: Book<FrameResult>> Consumer<CaptureReader>
    for KeepingLines<'a, R, B> {
    type Piece = B::Piece;

    type Answer = Tally<HardLabels>;

    ghost shown = { λ r. B.shown r.book.now };

    ghost lent = { λ r. r.under_way.ghost_name ∷ r.queue.ghost_name ∷ r.book.ghost_name ∷ B.lent r.book.now };

    ghost pieces = { λ r. booked_behind result_of B.booked r.queue.now.items (results_by label_plan with_octets result_of r.under_way.now) };

    ghost waits = { λ r due. ⊥ };

    fn take(
        &mut self,
        head: &FrameHead,
        block: &CaptureBlock,
        tally: &Tally<HardLabels>,
        due: &HeapCircularBuffer<DueBlock<CaptureReader>>,
    ) -> Result<(), BookFault> {
        let is_last = self.stopped && due.len() == 1;
        let keep = if is_last { 0 } else { usize::from(self.beside) };
        gather_block(
            self.rt,
            self.alloc,
            keep,
            self.frames,
            self.under_way,
            self.queue,
            self.book,
            head,
            block,
            tally,
        )
    }

    ghost more_due = { λ r due h w. w };

    ghost none_due = { λ r w. absurd w };
}

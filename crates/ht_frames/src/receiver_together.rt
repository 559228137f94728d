//! A consumer that has whole frames decoded while more jobs come.
ghost use Rattle.std.specs.Prelude.{◌≡◌, ◌-◌, ◌∷◌, [], true, drop};
ghost use Rattle.ht_feed.specs.Dues.{all_due, due_of, headed_due};
ghost use Rattle.ht_feed.specs.Limits.{IsCrewSize};
ghost use Rattle.ht_frames.specs.Gathering.{GathersJobs, WaitForJobs, booked_behind, none_behind, wait_on};

use crate::book::Book;
use crate::decodes::{Decodes, take_block};
use crate::decoding::Decoding;
use crate::frames::Frames;
use crate::gathering::{book_frames, decode};
use crate::under_way::{UnderWay, UnderWayTogether};
use crate::whole_frame::WholeFrame;
use circular_buffer::HeapCircularBuffer;
use ht_feed::{BlockReader, BookFault, Consumer, DueBlock, Jobs};
use std::alloc::Global;
use std::collections::VecDeque;
use std::sync::Wait;
use std::thread::Threads;

/// Books the result of each frame in a book, as a [`Receiver`](crate::Receiver) does, and has workers decode whole
/// frames while it takes more answers.
///
/// A frame of 100 octets or more is given to the workers once its last job came ([`Frames`]); a shorter one is decoded by
/// the caller, at once. Results are booked in order, and that of a frame that the caller decoded as soon as it is the
/// oldest.
///
/// Behind each block at most two frames for each worker beside the caller have no booked result, not counting the frame
/// under way, and those with the workers have at most 131,072 octets together. Where one more is whole, it is given to the
/// workers, and then the caller waits for the oldest ones, and decodes what no worker has begun. As two of the longest
/// frames have 131,070 octets, there are never more than three of the longest frames, the one under way among them. Where
/// no other block is due, the caller decodes the frame that is whole then, and books all results. Of these numbers no
/// clause says anything, nor of threads.
#[derive(Drop)]
pub struct ReceiverTogether<'a, R, U: UnderWay, B> {
    rt: &'a R,
    alloc: Global,
    // Where workers find whole frames.
    frames: &'a Frames<U::Whole>,
    // How many frames are decoded while answers are taken.
    beside: u8,
    under_way: &'a mut U,
    // The whole frames whose results aren't booked, in order.
    queue: &'a mut VecDeque<Decoding<U::Whole>>,
    book: &'a mut B,
}

impl<'a, R, U: UnderWay, B> ReceiverTogether<'a, R, U, B> {
    /// A receiver beside this number of workers, of which the caller is one. It books results in this book, and goes on
    /// from the frame that is under way and those that are whole. It takes no memory.
    pub fn new(
        rt: &'a R,
        alloc: Global,
        workers: u8,
        frames: &'a Frames<U::Whole>,
        under_way: &'a mut U,
        queue: &'a mut VecDeque<Decoding<U::Whole>>,
        book: &'a mut B,
    ) -> ReceiverTogether<'a, R, U, B>
        requires crew { IsCrewSize workers }
        ensures under_way { result.under_way.now ≡ under_way.old }
        ensures queue { result.queue.now ≡ queue.old }
        ensures frame_name { result.under_way.ghost_name ≡ under_way.entry.ghost_name }
        ensures queue_name { result.queue.ghost_name ≡ queue.entry.ghost_name }
        ensures book { result.book.now ≡ book.old }
        ensures name { result.book.ghost_name ≡ book.entry.ghost_name }
    {
        ReceiverTogether {
            rt,
            alloc,
            frames,
            beside: 2 * (workers - 1),
            under_way,
            queue,
            book,
        }
    }
}

// Whether another block is due behind the first one.
fn another_is_due<R: BlockReader>(due: &HeapCircularBuffer<DueBlock<R>>) -> bool
    ensures { result ≡ true → all_due (drop 1 due.now.items) ≡ [] → ⊥ }
{
    match due.get(1) {
        Some(next) => next.is_some(),
        None => false,
    }
}

// Who decodes whole frames: the caller at once where `keep` is 0, or else workers.
#[derive(Drop)]
struct Decoders<'a, R, W: WholeFrame> {
    rt: &'a R,
    // Where workers find whole frames.
    frames: &'a Frames<W>,
    // How many whole frames are left at most behind each that becomes whole.
    keep: usize,
}

impl<'a, R: Threads + Wait, U: UnderWayTogether> Decodes<U> for Decoders<'a, R, U::Whole> {
    type Queue = VecDeque<Decoding<U::Whole>>;

    ghost whole = { λ queue. queue.items };

    fn finish<B: Book<<U::Whole as WholeFrame>::Result>>(
        &self,
        alloc: Global,
        under_way: &mut U,
        queue: &mut VecDeque<Decoding<U::Whole>>,
        book: &mut B,
    ) -> Result<(), BookFault> {
        let frame = under_way.leave(alloc);
        decode::<R, U>(self.rt, alloc, self.frames, queue, frame, self.keep > 0)?;
        book_frames(self.rt, self.frames, self.keep, queue, book)
    }
}

/// Takes what the jobs of a block come to, whose frame has this head, as a [`ReceiverTogether`] does that keeps whole frames
/// back: of those whose results aren't booked at most `keep` are left behind each frame that becomes whole, as [`book_frames`]
/// leaves them; no clause says so here. Where `keep` is 0 the caller decodes the frame, and all are booked.
pub fn gather_block<
    J: Jobs,
    R: Threads + Wait,
    U: UnderWayTogether,
    B: Book<<U::Whole as WholeFrame>::Result>,
>(
    rt: &R,
    alloc: Global,
    keep: usize,
    frames: &Frames<U::Whole>,
    under_way: &mut U,
    queue: &mut VecDeque<Decoding<U::Whole>>,
    book: &mut B,
    head: &U::Head,
    block: &J,
    answer: &U::Answer,
) -> Result<(), BookFault>
    requires right { U.Answer.answers answer.now (J.jobs block.now) }
    ensures { GathersJobs U.Whole.result_of B.booked B.shown B.lent result book.old book.new queue.old.items queue.new.items
        (U.results under_way.old) (U.results under_way.new)
        (headed_due (due_of head.now (J.jobs block.now))) }
{
    let by = Decoders { rt, frames, keep };
    take_block(&by, alloc, under_way, queue, book, head, block, answer)
}

impl<
    'a,
    T: BlockReader<Head = U::Head>,
    R: Threads + Wait,
    U: UnderWayTogether,
    B: Book<<U::Whole as WholeFrame>::Result>,
> Consumer<T> for ReceiverTogether<'a, R, U, B> {
    type Piece = B::Piece;

    type Answer = U::Answer;

    ghost shown = { λ r. B.shown r.book.now };

    ghost lent = { λ r. r.under_way.ghost_name ∷ r.queue.ghost_name ∷ r.book.ghost_name ∷ B.lent r.book.now };

    ghost pieces = { λ r. booked_behind U.Whole.result_of B.booked r.queue.now.items (U.results r.under_way.now) };

    ghost waits = { λ r due. WaitForJobs r.queue.now.items due };

    fn take(
        &mut self,
        head: &U::Head,
        block: &T::Block,
        answer: &U::Answer,
        due: &HeapCircularBuffer<DueBlock<T>>,
    ) -> Result<(), BookFault> {
        let more = another_is_due(due);
        let keep = if more { usize::from(self.beside) } else { 0 };
        gather_block(
            self.rt,
            self.alloc,
            keep,
            self.frames,
            self.under_way,
            self.queue,
            self.book,
            head,
            block,
            answer,
        )?;
        if more {
            return Ok(());
        }
        book_frames(self.rt, self.frames, 0, self.queue, self.book)
    }

    ghost more_due = { λ r. wait_on r.queue.now.items };

    ghost none_due = { λ r. none_behind U.Whole.result_of B.booked r.queue.now.items (U.results r.under_way.now) (U.none r.under_way.now) };
}

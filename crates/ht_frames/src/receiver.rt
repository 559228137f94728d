//! A consumer that books the result of each frame.
ghost use Rattle.std.specs.Prelude.{◌≡◌, ◌∷◌, []};
ghost use Rattle.ht_frames.specs.Gathering.{booked_in, none_booked};

use crate::book::Book;
use crate::decodes::{Decodes, take_block};
use crate::under_way::UnderWay;
use crate::whole_frame::WholeFrame;
use circular_buffer::HeapCircularBuffer;
use ht_feed::{BlockReader, BookFault, Consumer, DueBlock};
use std::alloc::Global;

/// Books the result of each frame in a book, once the tally with its last job was taken.
///
/// Until then what its jobs come to is under way, in the memory that its maker lends it.
#[derive(Drop)]
pub struct Receiver<'a, U, B> {
    alloc: Global,
    under_way: &'a mut U,
    book: &'a mut B,
}

impl<'a, U, B> Receiver<'a, U, B> {
    /// A receiver that books results in this book, and goes on from the frame that is under way. It takes no memory.
    pub fn new(alloc: Global, under_way: &'a mut U, book: &'a mut B) -> Receiver<'a, U, B>
        ensures under_way { result.under_way.now ≡ under_way.old }
        ensures book { result.book.now ≡ book.old }
        ensures frame_name { result.under_way.ghost_name ≡ under_way.entry.ghost_name }
        ensures name { result.book.ghost_name ≡ book.entry.ghost_name }
    {
        Receiver {
            alloc,
            under_way,
            book,
        }
    }
}

// The frame is decoded where it stands, and its result is booked at once.
#[derive(Drop)]
struct InPlace;

impl<U: UnderWay> Decodes<U> for InPlace {
    type Queue = ();

    ghost whole = { λ none. [] };

    fn finish<B: Book<<U::Whole as WholeFrame>::Result>>(
        &self,
        alloc: Global,
        under_way: &mut U,
        _: &mut (),
        book: &mut B,
    ) -> Result<(), BookFault> {
        let result = under_way.decode(alloc)?;
        book.frame(result)?;
        Ok(())
    }
}

impl<
    'a,
    R: BlockReader<Head = U::Head>,
    U: UnderWay,
    B: Book<<U::Whole as WholeFrame>::Result>,
> Consumer<R> for Receiver<'a, U, B> {
    type Piece = B::Piece;

    type Answer = U::Answer;

    ghost shown = { λ r. B.shown r.book.now };

    ghost lent = { λ r. r.under_way.ghost_name ∷ r.book.ghost_name ∷ B.lent r.book.now };

    ghost pieces = { λ r. booked_in B.booked (U.results r.under_way.now) };

    ghost waits = { λ r due. Unit {0} };

    fn take(
        &mut self,
        head: &U::Head,
        block: &R::Block,
        answer: &U::Answer,
        _: &HeapCircularBuffer<DueBlock<R>>,
    ) -> Result<(), BookFault> {
        take_block(
            &InPlace,
            self.alloc,
            self.under_way,
            &mut (),
            self.book,
            head,
            block,
            answer,
        )
    }

    ghost more_due = { λ r due h w. tt };

    ghost none_due = { λ r w. none_booked B.booked (U.results r.under_way.now) (U.none r.under_way.now) };
}

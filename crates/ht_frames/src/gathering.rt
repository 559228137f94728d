//! Whole frames are decoded while more jobs come, and their results are booked in order.
ghost use Rattle.std.specs.Prelude.{◌≡◌, ◌≤◌, ◌∷◌, [], ◌++◌, false, None, length, option_to_list, IfOk, OnErr, OnOk};
ghost use Rattle.ht_io.specs.Devices.{GrowsByPart};
ghost use Rattle.ht_feed.specs.Consumers.{CountsFaults};
ghost use Rattle.ht_frames.specs.Gathering.{BooksFirst, BooksPieces, booked_whole};

use crate::book::Book;
use crate::decoding::Decoding;
use crate::frames::Frames;
use crate::under_way::UnderWayTogether;
use crate::whole_frame::WholeFrame;
use ht_feed::BookFault;
use std::alloc::{AllocError, Global};
use std::collections::VecDeque;
use std::sync::Wait;
use std::thread::Threads;

/// The fewest octets of a frame that is worth the way to another thread.
const LEAST: u16 = 100;

/// The most octets of frames that are decoded while more jobs come. Two of the longest frames have fewer.
const MOST: u64 = 131072;

// Has a frame decoded by a worker, if it may be and is worth it, or else in this thread.
fn decoding<R: Threads + Wait, U: UnderWayTogether>(
    rt: &R,
    alloc: Global,
    frames: &Frames<U::Whole>,
    frame: U::Whole,
    apart: bool,
) -> Result<Decoding<U::Whole>, AllocError>
    ensures { IfOk result (λ d. d ≡ frame) }
{
    if apart && frame.octets() >= LEAST {
        Decoding::apart(rt, alloc, frames, frame)
    } else {
        let outcome = U::decode_together(&frame, rt, alloc);
        Ok(Decoding::done(frame, outcome))
    }
}

/// Decodes a whole frame behind the others: by a worker, if it may be and is worth it, or else in this thread. The only
/// error is lack of memory.
pub(crate) fn decode<R: Threads + Wait, U: UnderWayTogether>(
    rt: &R,
    alloc: Global,
    frames: &Frames<U::Whole>,
    queue: &mut VecDeque<Decoding<U::Whole>>,
    frame: U::Whole,
    apart: bool,
) -> Result<(), AllocError>
    ensures { OnOk result (queue.new.items ≡ queue.old.items ++ frame ∷ []) }
{
    queue.reserve(1)?;
    let decoding = decoding::<R, U>(rt, alloc, frames, frame, apart)?;
    queue.push_back_reserved(decoding);
    Ok(())
}

// Whether the oldest frame is to be finished: there are more frames than may be decoded while more jobs come, or those that
// the workers have, of whichever queue, have too many octets, or its result is there.
fn is_time<W: WholeFrame + Drop>(
    frames: &Frames<W>,
    queue: &VecDeque<Decoding<W>>,
    keep: usize,
) -> bool
    ensures { result ≡ false → length queue.now.items ≤ keep }
{
    match queue.front() {
        Some(oldest) => queue.len() > keep || oldest.is_done() || frames.octets() > MOST,
        None => false,
    }
}

// Takes the oldest frame out of the queue, if it is to be finished.
fn take_oldest<W: WholeFrame + Drop>(
    frames: &Frames<W>,
    queue: &mut VecDeque<Decoding<W>>,
    keep: usize,
) -> Option<Decoding<W>>
    ensures items { queue.old.items ≡ option_to_list result ++ queue.new.items }
    ensures few { result ≡ None → length queue.new.items ≤ keep }
{
    if is_time(frames, queue, keep) {
        queue.pop_front()
    } else {
        None
    }
}

// Waits for the result of a frame, and books it.
fn book_one<R: Wait, W: WholeFrame + Drop, B: Book<W::Result>>(
    rt: &R,
    frames: &Frames<W>,
    frame: Decoding<W>,
    book: &mut B,
) -> Result<(), BookFault>
    ensures { BooksPieces result (B.shown book.old) (B.shown book.new) (B.booked (W.result_of frame)) (B.lent book.old) (B.lent book.new) }
{
    let result = frame.finish(rt, frames)?;
    book.frame(result)?;
    Ok(())
}

// Gives up the frames of a queue whose results nobody books any more: what the workers have of them comes back and is
// dropped, so that it doesn't count against other queues.
fn abandon<R: Wait, W: WholeFrame + Drop>(
    rt: &R,
    frames: &Frames<W>,
    queue: &mut VecDeque<Decoding<W>>,
) {
    for _ in 0..queue.len() {
        let Some(frame) = queue.pop_front() else {
            return;
        };
        let _ = frame.finish(rt, frames);
    }
}

/// Books the results of the oldest frames, until at most `keep` frames are left and the oldest of them is with the
/// workers, who have at most 131,072 octets of frames, those of other queues among them, or until none is left. Where a
/// result can't be booked, the frames behind it are given up.
pub fn book_frames<R: Wait, W: WholeFrame + Drop, B: Book<W::Result>>(
    rt: &R,
    frames: &Frames<W>,
    keep: usize,
    queue: &mut VecDeque<Decoding<W>>,
    book: &mut B,
) -> Result<(), BookFault>
    ensures put { OnOk result (BooksFirst W.result_of B.booked (B.shown book.old) (B.shown book.new) queue.old.items queue.new.items) }
    ensures few { OnOk result (length queue.new.items ≤ keep) }
    ensures part { OnErr result (GrowsByPart (B.shown book.old) (B.shown book.new) (booked_whole W.result_of B.booked queue.old.items)) }
    ensures faults { CountsFaults result (B.shown book.old) (B.shown book.new) (B.lent book.old) (B.lent book.new) }
{
    while let Some(oldest) = take_oldest(frames, queue, keep) {
        if let Err(fault) = book_one(rt, frames, oldest, book) {
            abandon(rt, frames, queue);
            return Err(fault);
        }
    }
    Ok(())
}

//! Receiving the frames of a capture.
ghost use Rattle.std.specs.Prelude.{◌≡◌};
ghost use Rattle.ht_feed.specs.Limits.{IsCrewSize, IsWindowSize};
ghost use Rattle.ht_rx.specs.Frames.{booked_of};
ghost use Rattle.ht_rx.specs.Telling.{TellsCapture};

use crate::hard_labels::HardLabels;
use ht_capture_blocks::CaptureReader;
use ht_eights::LaneWork;
use ht_feed::{Ended, Gate};
use ht_frames::{BesideFrames, Book, Frame, Frames};
use ht_io::Source;
use ht_results::{FrameResult, no_head};
use ht_runs::RunFault;
use std::alloc::Global;
use std::sync::Wait;
use std::thread::Threads;

/// Reads a capture, and books the [`FrameResult`] of each whole frame before the first fault: its sums of squared distances,
/// what its labels are decoded to, and at how many places the codewords differ from the detected bits.
///
/// Every job runs in this thread, between the two calls of the gate; at most `window` jobs, 1 to 4096, are due. Only these, a
/// frame's triangles and labels and a symbol's samples are kept. No clause says what is due or kept.
///
/// It answers the numbers of frames and of jobs of a capture. It refuses with the first fault of an input that is no capture,
/// and with `Read` where the source failed, both behind all frames read whole; with `Write` where the book failed, even if the
/// source did, and with `NoMemory`, both behind a part of the frames.
pub fn receive_alone<S: Source, B: Book<FrameResult>, G: Gate>(
    alloc: Global,
    window: u16,
    source: &mut S,
    book: &mut B,
    gate: &G,
) -> Result<Ended, RunFault>
    requires window { IsWindowSize window }
    ensures receives { TellsCapture (booked_of B.booked) (S.shown source.old) (S.shown source.new)
        (B.shown book.old) (B.shown book.new) result }
    ensures same { B.lent book.new ≡ B.lent book.old }
{
    let reader = CaptureReader::new(alloc)?;
    let head = no_head();
    let under_way = Frame::<HardLabels>::new(alloc);
    let work = LaneWork::<HardLabels, G>::new(alloc, gate);
    ht_receive::receive_alone(alloc, reader, head, window, &work, source, under_way, book)
}

/// Does as [`receive_alone`], with 1 to 64 workers, of which the caller is one, and books the same results in the same order.
///
/// Whole frames are decoded as a `ReceiverTogether` of crate `ht_frames` has it done: those of 100 octets or more by the workers,
/// before they look for jobs, shorter ones by the caller. While jobs are due, at most two frames for each worker beside the
/// caller have no booked result, not counting the frame under way, and at most three of the longest frames are kept. Once no
/// job is due the caller decodes the frame that is whole then, the codewords of two encoders in two threads. No clause says
/// so. No thread is left behind.
pub fn receive<R: Threads + Wait + Sync, S: Source, B: Book<FrameResult>, G: Gate + Sync>(
    rt: &R,
    alloc: Global,
    workers: u8,
    window: u16,
    source: &mut S,
    book: &mut B,
    gate: &G,
) -> Result<Ended, RunFault>
    requires crew { IsCrewSize workers }
    requires window { IsWindowSize window }
    ensures receives { TellsCapture (booked_of B.booked) (S.shown source.old) (S.shown source.new)
        (B.shown book.old) (B.shown book.new) result }
    ensures same { B.lent book.new ≡ B.lent book.old }
{
    if workers == 1 {
        return receive_alone(alloc, window, source, book, gate);
    }
    let reader = CaptureReader::new(alloc)?;
    let head = no_head();
    let under_way = Frame::<HardLabels>::new(alloc);
    let frames = Frames::new(alloc);
    let work = BesideFrames {
        work: LaneWork::<HardLabels, G>::new(alloc, gate),
        frames: &frames,
    };
    ht_receive::receive(
        rt, alloc, workers, reader, head, window, &work, &frames, source, under_way, book,
    )
}

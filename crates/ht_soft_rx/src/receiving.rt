//! Receiving the frames of a capture by soft decisions.
ghost use Rattle.ht_feed.specs.Limits.{IsCrewSize, IsWindowSize};
ghost use Rattle.ht_capture.specs.Fields.{captures};
ghost use Rattle.ht_receive.specs.Ends.{StreamsText};
ghost use Rattle.ht_results.specs.Texts.{HasFrames};
ghost use Rattle.ht_runs.specs.Formats.{filter};
ghost use Rattle.ht_soft_rx.specs.Texts.{soft_lines_of, soft_rx_text};

use crate::kind::Weights;
use crate::near_work::NearWork;
use ht_capture_blocks::CaptureReader;
use ht_feed::Gate;
use ht_frames::{BesideFrames, Frame, Frames, TextBook};
use ht_io::{Sink, Source};
use ht_receive::{put_end, receive, receive_alone};
use ht_results::no_head;
use ht_runs::RunFault;
use std::alloc::Global;
use std::sync::Wait;
use std::thread::Threads;

/// Reads a capture, and puts `soft N cost C octets HEX`, or `soft N cost C seed zero`, for each whole frame before the first
/// fault, and `end F frames` behind a whole capture; it answers F.
///
/// A frame is decoded by its weights (IEEE Std 802.11-2012, clause 20.3.11 backwards), four octets each. Every job runs in this
/// thread, between the gate's two calls; at most `window`, 1 to 4096, are due.
///
/// It refuses with an input's first fault, without its line; with `Read` where the source failed, behind all frames read
/// whole; with `Write` where the sink failed, even if the source did, and with `NoMemory`, both behind a part of the text.
/// No clause says how many jobs are due.
#[tactic(auto, using(ht_receive::proofs::Streaming::lacks))]
pub fn receive_soft_alone<S: Source, K: Sink, G: Gate>(
    alloc: Global,
    window: u16,
    source: &mut S,
    sink: &mut K,
    gate: &G,
) -> Result<u64, RunFault>
    requires window { IsWindowSize window }
    ensures { StreamsText (filter captures soft_rx_text soft_lines_of) HasFrames (S.shown source.old) (S.shown source.new)
        (K.shown sink.old) (K.shown sink.new) result }
{
    let reader = CaptureReader::new(alloc)?;
    let head = no_head();
    let under_way = Frame::<Weights>::new(alloc);
    let work = NearWork::new(alloc, gate);
    let mut book = TextBook::new(alloc, sink);
    let ended = receive_alone(
        alloc, reader, head, window, &work, source, under_way, &mut book,
    );
    put_end(alloc, ended, sink)
}

/// Does as [`receive_soft_alone`], with 1 to 64 workers, of which the caller is one. The lines are the same, in the same order.
///
/// Whole frames are decoded while the jobs behind them are read and run, as a `ReceiverTogether` of crate `ht_frames` does it:
/// those of 100 octets or more by the workers, before they look for blocks, and shorter ones by the caller. While jobs are due,
/// at most two frames for each worker beside the caller have no booked result, not counting the frame under way, and the weights
/// of at most three of the longest frames are kept, 4.2 MB each. No clause says so. However it ends, no thread is left behind.
#[tactic(auto, using(ht_receive::proofs::Streaming::lacks))]
pub fn receive_soft<R: Threads + Wait + Sync, S: Source, K: Sink, G: Gate + Sync>(
    rt: &R,
    alloc: Global,
    workers: u8,
    window: u16,
    source: &mut S,
    sink: &mut K,
    gate: &G,
) -> Result<u64, RunFault>
    requires crew { IsCrewSize workers }
    requires window { IsWindowSize window }
    ensures { StreamsText (filter captures soft_rx_text soft_lines_of) HasFrames (S.shown source.old) (S.shown source.new)
        (K.shown sink.old) (K.shown sink.new) result }
{
    if workers == 1 {
        return receive_soft_alone(alloc, window, source, sink, gate);
    }
    let reader = CaptureReader::new(alloc)?;
    let head = no_head();
    let under_way = Frame::<Weights>::new(alloc);
    let frames = Frames::new(alloc);
    let work = BesideFrames {
        work: NearWork::new(alloc, gate),
        frames: &frames,
    };
    let mut book = TextBook::new(alloc, sink);
    let ended = receive(
        rt, alloc, workers, reader, head, window, &work, &frames, source, under_way, &mut book,
    );
    put_end(alloc, ended, sink)
}

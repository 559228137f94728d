//! Receiving the frames of a capture as lines of text.
ghost use Rattle.ht_feed.specs.Limits.{IsCrewSize, IsWindowSize};
ghost use Rattle.ht_runs.specs.Formats.{filter};
ghost use Rattle.ht_receive.specs.Endings.{MeansFrames};
ghost use Rattle.ht_legacy_files.specs.CaptureFormats.{captures};
ghost use Rattle.ht_receive.specs.Ends.{StreamsText};
ghost use Rattle.ht_legacy_rx.specs.Texts.{legacy_items, legacy_lines_of, legacy_text};

use crate::labels::LegacyLabels;
use ht_eights::LaneWork;
use ht_feed::Gate;
use ht_frames::{BesideFrames, Frame, Frames, Kind, TextBook};
use ht_io::{Sink, Source};
use ht_legacy_blocks::LegacyReader;
use ht_receive::{put_end, receive, receive_alone};
use ht_runs::RunFault;
use std::alloc::Global;
use std::sync::Wait;
use std::thread::Threads;

/// Reads a capture of clause 18 frames (LGCP) from the source, and puts the line of each frame that is whole before the
/// capture's first fault into the sink, and behind the lines of a whole capture `end N frames`. The answer is N.
///
/// Every job runs in this thread, between the two calls of the gate. At most `window` jobs, 1 to 4096, were read and not
/// yet taken at any moment. Nothing of the capture is kept but the diagonals of a frame, the samples of a symbol, these jobs
/// and the labels of one frame. No clause says what is due or kept.
///
/// `Format` comes at the first fault of an input that is no capture, `Read` where the source failed, `Write` where the sink
/// failed, also if the source did, and `NoMemory`. The lines of the frames in front of a fault of the format or of the
/// source are put; the line of the fault is not. In the last two cases a part of the text was put.
#[tactic(auto, using(ht_receive::proofs::Streaming::lacks))]
pub fn legacy_receive_alone<S: Source, K: Sink, G: Gate>(
    alloc: Global,
    window: u16,
    source: &mut S,
    sink: &mut K,
    gate: &G,
) -> Result<u64, RunFault>
    requires window { IsWindowSize window }
    ensures { StreamsText (filter captures legacy_text legacy_lines_of) (MeansFrames captures legacy_items) (S.shown source.old) (S.shown source.new)
        (K.shown sink.old) (K.shown sink.new) result }
{
    let reader = LegacyReader::new(alloc)?;
    let head = LegacyLabels::no_head();
    let under_way = Frame::<LegacyLabels>::new(alloc);
    let work = LaneWork::<LegacyLabels, G>::new(alloc, gate);
    let mut book = TextBook::new(alloc, sink);
    let ended = receive_alone(
        alloc, reader, head, window, &work, source, under_way, &mut book,
    );
    put_end(alloc, ended, sink)
}

/// Does as [`legacy_receive_alone`], and the jobs are run by 1 to 64 workers, of which the caller is one. The text is the
/// same.
///
/// A frame of 100 octets or more that is whole is given to the workers, who decode it before they look for blocks; a
/// shorter one is decoded by the caller. At most two frames for each worker beside the caller have no booked result
/// while jobs are due, not counting the frame under way, and those with the workers have at most 131,072 octets together.
/// No clause says so of frames, octets and threads. However it ends, no thread is left behind.
#[tactic(auto, using(ht_receive::proofs::Streaming::lacks))]
pub fn legacy_receive<R: Threads + Wait + Sync, S: Source, K: Sink, G: Gate + Sync>(
    rt: &R,
    alloc: Global,
    workers: u8,
    window: u16,
    source: &mut S,
    sink: &mut K,
    gate: &G,
) -> Result<u64, RunFault>
    requires crew { IsCrewSize workers }
    requires window { IsWindowSize window }
    ensures { StreamsText (filter captures legacy_text legacy_lines_of) (MeansFrames captures legacy_items) (S.shown source.old) (S.shown source.new)
        (K.shown sink.old) (K.shown sink.new) result }
{
    if workers == 1 {
        return legacy_receive_alone(alloc, window, source, sink, gate);
    }
    let reader = LegacyReader::new(alloc)?;
    let head = LegacyLabels::no_head();
    let under_way = Frame::<LegacyLabels>::new(alloc);
    let frames = Frames::new(alloc);
    let work = BesideFrames {
        work: LaneWork::<LegacyLabels, G>::new(alloc, gate),
        frames: &frames,
    };
    let mut book = TextBook::new(alloc, sink);
    let ended = receive(
        rt, alloc, workers, reader, head, window, &work, &frames, source, under_way, &mut book,
    );
    put_end(alloc, ended, sink)
}

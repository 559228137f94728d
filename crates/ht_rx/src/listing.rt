//! Listing the jobs of a capture.
ghost use Rattle.ht_feed.specs.Limits.{IsCrewSize, IsWindowSize};
ghost use Rattle.ht_rx.specs.Telling.{TellsCapture};
ghost use Rattle.ht_results.specs.JobTexts.{lines_of};

use crate::block_lines::LineWork;
use crate::lister::Lister;
use ht_capture_blocks::CaptureReader;
use ht_drive::tell;
use ht_feed::{Ended, Gate, tell_alone};
use ht_io::{Sink, Source};
use ht_results::no_head;
use ht_runs::RunFault;
use std::alloc::Global;
use std::sync::Wait;
use std::thread::Threads;

/// Reads a capture, and puts a line for each job of each symbol that is whole before the first fault: its place, the distance
/// of its first nearest vector, and that vector.
///
/// Every job runs in this thread, between the two calls of the gate; at most `window` jobs, 1 to 4096, are due. Only these and
/// their lines, a frame's triangles and a symbol's samples are kept. No clause says what is due or kept.
///
/// It answers the numbers of frames and of jobs of a capture. It refuses with the first fault of an input that is no capture,
/// and with `Read` where the source failed, both behind the lines of all symbols read whole; with `Write` where the sink
/// failed, even if the source did, and with `NoMemory`, both behind a part of the lines.
pub fn list_jobs_alone<S: Source, K: Sink, G: Gate>(
    alloc: Global,
    window: u16,
    source: &mut S,
    sink: &mut K,
    gate: &G,
) -> Result<Ended, RunFault>
    requires window { IsWindowSize window }
    ensures { TellsCapture lines_of (S.shown source.old) (S.shown source.new) (K.shown sink.old) (K.shown sink.new) result }
{
    let reader = CaptureReader::new(alloc)?;
    let work = LineWork::new(alloc, gate)?;
    let mut lister = Lister::new(sink);
    tell_alone(alloc, reader, no_head(), window, &work, source, &mut lister)
}

/// Does as [`list_jobs_alone`], and the jobs are run by 1 to 64 workers, of which the caller is one. The lines are the same,
/// in the same order.
pub fn list_jobs<R: Threads + Wait + Sync, S: Source, K: Sink, G: Gate + Sync>(
    rt: &R,
    alloc: Global,
    workers: u8,
    window: u16,
    source: &mut S,
    sink: &mut K,
    gate: &G,
) -> Result<Ended, RunFault>
    requires crew { IsCrewSize workers }
    requires window { IsWindowSize window }
    ensures { TellsCapture lines_of (S.shown source.old) (S.shown source.new) (K.shown sink.old) (K.shown sink.new) result }
{
    if workers == 1 {
        return list_jobs_alone(alloc, window, source, sink, gate);
    }
    let reader = CaptureReader::new(alloc)?;
    let work = LineWork::new(alloc, gate)?;
    let mut lister = Lister::new(sink);
    tell(
        rt,
        alloc,
        workers,
        window,
        reader,
        no_head(),
        &work,
        source,
        &mut lister,
    )
}

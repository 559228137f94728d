//! Listing the jobs of a capture as its whole text.
ghost use Rattle.ht_capture.specs.Fields.{captures};
ghost use Rattle.ht_feed.specs.Limits.{IsCrewSize, IsWindowSize};
ghost use Rattle.ht_receive.specs.Ends.{StreamsText};
ghost use Rattle.ht_results.specs.JobTexts.{detect_text, lines_of};
ghost use Rattle.ht_results.specs.Texts.{HasFrames};
ghost use Rattle.ht_runs.specs.Formats.{filter};

use crate::listing::{list_jobs, list_jobs_alone};
use ht_feed::Gate;
use ht_io::{Sink, Source};
use ht_receive::put_end;
use ht_runs::RunFault;
use std::alloc::Global;
use std::sync::Wait;
use std::thread::Threads;

/// Does as [`list_jobs_alone`], and puts the line `end N frames` behind the lines of a whole capture. The answer is the number
/// of its frames.
///
/// It refuses with the first fault of an input that is no capture, whose line it leaves to the caller; with `Read` where
/// the source failed, having put the lines of the symbols that were read whole; with `Write` where the sink failed, also
/// if the source did; and with `NoMemory`. In the last two cases a part of the text was put.
pub fn list_text_alone<S: Source, K: Sink, G: Gate>(
    alloc: Global,
    window: u16,
    source: &mut S,
    sink: &mut K,
    gate: &G,
) -> Result<u64, RunFault>
    requires window { IsWindowSize window }
    ensures { StreamsText (filter captures detect_text lines_of) HasFrames (S.shown source.old) (S.shown source.new)
        (K.shown sink.old) (K.shown sink.new) result }
{
    let ended = list_jobs_alone(alloc, window, source, sink, gate);
    put_end(alloc, ended, sink)
}

/// Does as [`list_text_alone`], and the jobs are run by 1 to 64 workers, of which the caller is one. The text is the same.
pub fn list_text<R: Threads + Wait + Sync, S: Source, K: Sink, G: Gate + Sync>(
    rt: &R,
    alloc: Global,
    workers: u8,
    window: u16,
    source: &mut S,
    sink: &mut K,
    gate: &G,
) -> Result<u64, RunFault>
    requires crew { IsCrewSize workers }
    requires window { IsWindowSize window }
    ensures { StreamsText (filter captures detect_text lines_of) HasFrames (S.shown source.old) (S.shown source.new)
        (K.shown sink.old) (K.shown sink.new) result }
{
    let ended = list_jobs(rt, alloc, workers, window, source, sink, gate);
    put_end(alloc, ended, sink)
}

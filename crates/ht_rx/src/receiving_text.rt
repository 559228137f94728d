//! Receiving the frames of a capture as its whole text.
ghost use Rattle.ht_capture.specs.Fields.{captures};
ghost use Rattle.ht_feed.specs.Limits.{IsCrewSize, IsWindowSize};
ghost use Rattle.ht_receive.specs.Ends.{StreamsText};
ghost use Rattle.ht_results.specs.Texts.{HasFrames, frame_lines_of, rx_text};
ghost use Rattle.ht_runs.specs.Formats.{filter};

use crate::receiving::{receive, receive_alone};
use ht_feed::Gate;
use ht_frames::TextBook;
use ht_io::{Sink, Source};
use ht_receive::put_end;
use ht_runs::RunFault;
use std::alloc::Global;
use std::sync::Wait;
use std::thread::Threads;

/// Does as [`receive_alone`] with a [`TextBook`]: puts the line of each frame that is whole before the capture's first
/// fault into the sink, each in one put, and behind them the line `end N frames` of a whole capture. The answer is the
/// number of its frames.
///
/// It refuses with the first fault of an input that is no capture, whose line it leaves to the caller; with `Read` where
/// the source failed, having put the lines of the frames that were read whole; with `Write` where the sink failed, also
/// if the source did; and with `NoMemory`. In the last two cases a part of the text was put. [`receive_alone`] also says
/// how many jobs a capture has.
pub fn receive_text_alone<S: Source, K: Sink, G: Gate>(
    alloc: Global,
    window: u16,
    source: &mut S,
    sink: &mut K,
    gate: &G,
) -> Result<u64, RunFault>
    requires window { IsWindowSize window }
    ensures { StreamsText (filter captures rx_text frame_lines_of) HasFrames (S.shown source.old) (S.shown source.new)
        (K.shown sink.old) (K.shown sink.new) result }
{
    let mut book = TextBook::new(alloc, sink);
    let ended = receive_alone(alloc, window, source, &mut book, gate);
    put_end(alloc, ended, sink)
}

/// Does as [`receive_text_alone`], and the jobs are run by 1 to 64 workers, of which the caller is one, while whole frames
/// are decoded as [`receive`] has it done. The text is the same.
pub fn receive_text<R: Threads + Wait + Sync, S: Source, K: Sink, G: Gate + Sync>(
    rt: &R,
    alloc: Global,
    workers: u8,
    window: u16,
    source: &mut S,
    sink: &mut K,
    gate: &G,
) -> Result<u64, RunFault>
    requires crew { IsCrewSize workers }
    requires window { IsWindowSize window }
    ensures { StreamsText (filter captures rx_text frame_lines_of) HasFrames (S.shown source.old) (S.shown source.new)
        (K.shown sink.old) (K.shown sink.new) result }
{
    let mut book = TextBook::new(alloc, sink);
    let ended = receive(rt, alloc, workers, window, source, &mut book, gate);
    put_end(alloc, ended, sink)
}

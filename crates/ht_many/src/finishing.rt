//! The last lines of several captures.
ghost use Rattle.std.specs.Prelude.{◌≡◌, ◌<◌, length, slice_index_or};
ghost use Rattle.ht_feed.specs.Others.{OthersStay};
ghost use Rattle.ht_many.specs.Alone.{EndsCapture};
ghost use Rattle.ht_many.specs.LastLines.{FinishesEach};

use crate::many_end::ManyEnd;
use ht_feed::Ended;
use ht_io::Sink;
use ht_receive::put_last;
use ht_runs::RunFault;
use std::alloc::{AllocError, Global};

// Puts the last line behind the lines of the capture with this number, whose receiving answered this, and tells how it ended: with
// `Write` where a sink failed, this time or before. The only error is lack of memory, and then nothing was put. The sinks of the
// others stay as they are.
fn finish_at<K: Sink>(
    alloc: Global,
    answer: Result<Ended, RunFault>,
    sinks: &mut [K],
    at: usize,
) -> Result<ManyEnd, AllocError>
    requires sink { at < length sinks.old }
    ensures ends { (t : K) → EndsCapture K.shown answer (slice_index_or sinks.old at t) (slice_index_or sinks.new at t) result }
    ensures others { OthersStay sinks.old sinks.new at }
{
    match put_last(alloc, answer, &mut sinks[at]) {
        Ok(frames) => Ok(ManyEnd::Done(frames)),
        Err(RunFault::Format(fault)) => Ok(ManyEnd::Refused(fault)),
        Err(RunFault::Read) => Ok(ManyEnd::Read),
        Err(RunFault::Write) => Ok(ManyEnd::Write),
        Err(RunFault::NoMemory) => Err(AllocError),
    }
}

/// Puts the last line of each of several captures behind its other lines, where the receiving of each answered this,
/// and tells how each ended, in their order: with `Write` where its sink failed, this time or before.
///
/// The only error is lack of memory, and then the last lines of some captures were put, each whole or, where its sink
/// failed, in part. An answer that is lack of memory is handed on so.
pub(crate) fn finish<K: Sink>(
    alloc: Global,
    answers: &[Result<Ended, RunFault>],
    sinks: &mut [K],
) -> Result<Vec<ManyEnd>, AllocError>
    requires pairs { length sinks.old ≡ length answers.now }
    ensures { FinishesEach K.shown sinks.old sinks.new answers.now result }
{
    let mut ends = Vec::new(alloc);
    for at in 0..answers.len() {
        let end = match finish_at(alloc, answers[at], sinks, at) {
            Ok(end) => end,
            Err(lack) => return Err(lack),
        };
        match ends.push(end) {
            Ok(()) => {}
            Err(_) => return Err(AllocError),
        }
    }
    Ok(ends)
}

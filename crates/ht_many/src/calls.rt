//! Several captures in this thread, with one crew of workers, or each whole by one worker.
ghost use Rattle.std.specs.Prelude.{◌≡◌, ◌≢◌, length, Err};
ghost use Rattle.ht_io.specs.Devices.{IsLater};
ghost use Rattle.ht_feed.specs.Limits.{IsCrewSize, IsWindowSize};
ghost use Rattle.ht_runs.specs.declared.faults.RunFault.TheVariants.{Write};
ghost use Rattle.ht_many.specs.Several.{devices};
ghost use Rattle.ht_many.specs.Receiving.{ReceivesBundle, ReceivesEach};

use crate::alone::AloneReceiver;
use crate::bundle::put_texts;
use crate::crew::Crew;
use crate::many_end::ManyEnd;
use ht_bundles::read_bundle;
use ht_feed::Gate;
use ht_io::{Sink, Source};
use ht_runs::RunFault;
use std::alloc::{AllocError, Global};
use std::sync::Wait;
use std::thread::Threads;

/// Receives several captures, each from its own source, and puts the text of each into its own sink: the lines of the whole
/// frames before the first fault, and the last line. It answers how each ended, in their order.
///
/// Blocks of jobs come from the captures in turn; at most `window` jobs, 1 to 4096, of all together are due. Every job runs in
/// this thread, between the two calls of the gate, by its number among all jobs. The last lines are put once no capture gives
/// a job. No clause says what is due, or when.
///
/// A fault of a capture's octets, source or sink ends only that capture. The only error is lack of memory; then a part of each
/// text was put.
pub fn many_alone<S: Source, K: Sink, G: Gate>(
    alloc: Global,
    window: u16,
    sources: &mut [S],
    sinks: &mut [K],
    gate: &G,
) -> Result<Vec<ManyEnd>, AllocError>
    requires window { IsWindowSize window }
    requires pairs { length sinks.old ≡ length sources.old }
    ensures { ReceivesEach S.shown K.shown result (devices sources.old sinks.old) (devices sources.new sinks.new) }
{
    AloneReceiver::new(alloc, window, gate).receive(sources, sinks)
}

/// Does as [`many_alone`], with one crew of 1 to 64 workers for all captures, of which the caller is one. The caller alone
/// reads the sources and puts the lines.
///
/// The workers decode whole frames of 100 octets or more, before they look for jobs; the caller decodes shorter ones, and
/// others while it waits or where a capture ends. Behind each block taken, at most two whole frames of each capture for each
/// worker beside the caller have no line yet, and those with the workers have at most 131,072 octets together; no clause says
/// so. The lines of a capture are put in order, all of them once no capture gives a job.
pub fn many<R: Threads + Wait + Sync, S: Source, K: Sink, G: Gate + Sync>(
    rt: &R,
    alloc: Global,
    workers: u8,
    window: u16,
    sources: &mut [S],
    sinks: &mut [K],
    gate: &G,
) -> Result<Vec<ManyEnd>, AllocError>
    requires crew { IsCrewSize workers }
    requires window { IsWindowSize window }
    requires pairs { length sinks.old ≡ length sources.old }
    ensures { ReceivesEach S.shown K.shown result (devices sources.old sinks.old) (devices sources.new sinks.new) }
{
    Crew::new(rt, alloc, workers, window, gate).receive(sources, sinks)
}

/// Reads a bundle of captures (HTMB) to its end, receives all of them, and puts for each the line `capture K` and what the
/// command `rx` writes for it, with the line of its fault at the end where it has one.
///
/// Every job runs in this thread, and at most `window` jobs, 1 to 4096, are due; no clause says so. Nothing is put before the last
/// capture was received. `Format` comes at the first fault of the bundle, and `Read` where the source failed before any; what a
/// capture holds is no fault of the bundle. `Write` comes exactly where the sink failed, and `NoMemory` also within the
/// output: with both a part of the text was put.
pub fn many_bundle_alone<S: Source, K: Sink, G: Gate>(
    alloc: Global,
    window: u16,
    source: &mut S,
    sink: &mut K,
    gate: &G,
) -> Result<(), RunFault>
    requires window { IsWindowSize window }
    ensures converts { ReceivesBundle (S.shown source.old) (S.shown source.new) (K.shown sink.old) (K.shown sink.new) result }
    ensures writes { result ≢ Err Write → (K.shown sink.new).faults ≡ (K.shown sink.old).faults }

    // However it ends, the devices are the same, and take back no fault.
    ensures reads_later { IsLater (S.shown source.old) (S.shown source.new) }
    ensures puts_later { IsLater (K.shown sink.old) (K.shown sink.new) }
{
    let alone = AloneReceiver::new(alloc, window, gate);
    let captures = read_bundle(alloc, source)?;
    let texts = alone.texts(captures)?;
    put_texts(alloc, &texts, sink)
}

/// Does as [`many_bundle_alone`], with 1 to 64 workers, of which the caller is one.
///
/// The captures are dealt out in order, as many to each worker as captures by workers, rounded up, until none is left. Where
/// no worker gets more than five quarters of its share of the octets, each receives its captures whole, one after the other,
/// with its share of the window. The gate then knows a job by its number among those of its capture, so several threads may
/// enter it with one number at a time. Elsewhere, and where `window` is below `workers`, one crew runs the jobs of all
/// captures. No clause says which.
pub fn many_bundle<R: Threads + Wait + Sync, S: Source, K: Sink, G: Gate + Sync>(
    rt: &R,
    alloc: Global,
    workers: u8,
    window: u16,
    source: &mut S,
    sink: &mut K,
    gate: &G,
) -> Result<(), RunFault>
    requires crew { IsCrewSize workers }
    requires window { IsWindowSize window }
    ensures converts { ReceivesBundle (S.shown source.old) (S.shown source.new) (K.shown sink.old) (K.shown sink.new) result }
    ensures writes { result ≢ Err Write → (K.shown sink.new).faults ≡ (K.shown sink.old).faults }

    // However it ends, the devices are the same, and take back no fault.
    ensures reads_later { IsLater (S.shown source.old) (S.shown source.new) }
    ensures puts_later { IsLater (K.shown sink.old) (K.shown sink.new) }
{
    let crew = Crew::new(rt, alloc, workers, window, gate);
    let captures = read_bundle(alloc, source)?;
    let texts = crew.texts(captures)?;
    put_texts(alloc, &texts, sink)
}

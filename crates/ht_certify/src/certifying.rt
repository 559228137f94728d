//! Captures that are certified.
ghost use Rattle.std.specs.Prelude.{◌≡◌, ◌≢◌, Err};
ghost use Rattle.ht_io.specs.Devices.{IsLater};
ghost use Rattle.ht_runs.specs.Converted.{Converted};
ghost use Rattle.ht_runs.specs.Filters.{SaysNothing};
ghost use Rattle.ht_certify.specs.Certifying.{certifying};

use crate::putting::put_file;
use ht_capture::read_captures;
use ht_io::{Sink, Source};
use ht_runs::RunFault;
use std::alloc::Global;

/// Reads a capture of either version (HTCP) to its end, and then puts the file of certificates (HTCT) of its data jobs.
///
/// Nothing is put before the whole capture was read. `Format` comes at its first fault, and `Read` where the source
/// failed before any fault. `Write` comes exactly where the sink failed, and `NoMemory` also within the output: in both
/// cases a part of the file from its front was put.
pub fn certify_capture<S: Source, K: Sink>(
    alloc: Global,
    source: &mut S,
    sink: &mut K,
) -> Result<(), RunFault>
    ensures converts { Converted certifying (S.shown source.old) (S.shown source.new) (K.shown sink.old) (K.shown sink.new) SaysNothing result }
    ensures writes { result ≢ Err RunFault.Write → (K.shown sink.new).faults ≡ (K.shown sink.old).faults }

    // However it ends, the devices are the same, and take back no fault.
    ensures reads_later { IsLater (S.shown source.old) (S.shown source.new) }
    ensures puts_later { IsLater (K.shown sink.old) (K.shown sink.new) }
{
    let frames = read_captures(alloc, source)?;
    put_file(alloc, &frames, sink)
}

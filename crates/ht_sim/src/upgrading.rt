//! What the command `upgrade` does.
ghost use Rattle.std.specs.Prelude.{◌≡◌, ◌≢◌, Err};
ghost use Rattle.ht_io.specs.Devices.{IsLater};
ghost use Rattle.ht_runs.specs.Converted.{Converted};
ghost use Rattle.ht_runs.specs.Filters.{SaysNothing};
ghost use Rattle.ht_sim.specs.Converting.{upgrading};

use ht_capture::{read_captures, write_captures_2};
use ht_io::{Sink, Source};
use ht_runs::RunFault;
use std::alloc::Global;

/// Reads a capture (HTCP) of either version to its end, and then puts the capture of version 2 of its frames.
///
/// It refuses with the first fault of what is no capture, with `Read` where the source failed, and with `NoMemory`, and puts
/// nothing then; and with `Write` where the sink failed, when a part of the capture was put.
pub fn upgrade<S: Source, K: Sink>(
    alloc: Global,
    source: &mut S,
    sink: &mut K,
) -> Result<(), RunFault>
    ensures converts { Converted upgrading (S.shown source.old) (S.shown source.new) (K.shown sink.old) (K.shown sink.new) SaysNothing result }
    ensures writes { result ≢ Err RunFault.Write → (K.shown sink.new).faults ≡ (K.shown sink.old).faults }

    // However it ends, the devices are the same, and take back no fault.
    ensures reads_later { IsLater (S.shown source.old) (S.shown source.new) }
    ensures puts_later { IsLater (K.shown sink.old) (K.shown sink.new) }
{
    let frames = read_captures(alloc, source)?;
    write_captures_2(&frames, sink)?;
    Ok(())
}

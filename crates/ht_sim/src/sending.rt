//! What the command `tx` does.
ghost use Rattle.std.specs.Prelude.{◌≡◌, ◌≢◌, Err};
ghost use Rattle.ht_io.specs.Devices.{IsLater};
ghost use Rattle.ht_runs.specs.Converted.{Converted};
ghost use Rattle.ht_runs.specs.Filters.{SaysNothing};
ghost use Rattle.ht_sim.specs.Converting.{sending};

use ht_files::{read_frames, write_symbols};
use ht_io::{Sink, Source};
use ht_runs::RunFault;
use ht_tx::transmit_all;
use std::alloc::Global;

/// Reads a file of frames (HTTX) to its end, and then puts the file of the symbols (HTSY) that are sent for them (IEEE Std
/// 802.11-2012, clause 20.3.11).
///
/// It refuses with the first fault of what is no file of frames, with `Read` where the source failed, and with `NoMemory`, and
/// puts nothing then; and with `Write` where the sink failed, when a part of the file was put.
pub fn send<S: Source, K: Sink>(alloc: Global, source: &mut S, sink: &mut K) -> Result<(), RunFault>
    ensures converts { Converted sending (S.shown source.old) (S.shown source.new) (K.shown sink.old) (K.shown sink.new) SaysNothing result }
    ensures writes { result ≢ Err RunFault.Write → (K.shown sink.new).faults ≡ (K.shown sink.old).faults }

    // However it ends, the devices are the same, and take back no fault.
    ensures reads_later { IsLater (S.shown source.old) (S.shown source.new) }
    ensures puts_later { IsLater (K.shown sink.old) (K.shown sink.new) }
{
    let frames = read_frames(alloc, source)?;
    let sent = transmit_all(alloc, &frames)?;
    write_symbols(&sent, sink)?;
    Ok(())
}

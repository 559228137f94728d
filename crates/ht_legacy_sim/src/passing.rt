//! Files of frames that pass the channel.
ghost use Rattle.std.specs.Prelude.{◌≡◌, ◌≢◌, Err};
ghost use Rattle.ht_io.specs.Devices.{IsLater};
ghost use Rattle.ht_runs.specs.Converted.{Converted};
ghost use Rattle.ht_runs.specs.Filters.{SaysNothing};
ghost use Rattle.ht_runs.specs.declared.faults.RunFault.TheVariants.{Write};
ghost use Rattle.ht_legacy_sim.specs.Passing.{passing};

use crate::putting::put_captures;
use ht_io::{Sink, Source};
use ht_legacy_files::read_legacy_frames;
use ht_runs::RunFault;
use std::alloc::Global;

/// Reads a file of clause 18 frames (LGTX) to its end, passes what is sent of them through the channel that a seed makes,
/// with noise of at most `noise` in each part, and puts the capture (LGCP) that they come to.
///
/// Nothing is put before the whole file was read. `Format` comes at the first fault of the file, and `Read` where the
/// source failed before any fault. `Write` comes exactly where the sink failed, and `NoMemory` also within the output: in
/// both cases a part of the capture from its front was put. Besides the frames that were read no more than what is sent of
/// one frame is held in memory.
pub fn legacy_channel<S: Source, K: Sink>(
    alloc: Global,
    seed: u64,
    noise: u16,
    source: &mut S,
    sink: &mut K,
) -> Result<(), RunFault>
    ensures converts { Converted (passing seed noise) (S.shown source.old) (S.shown source.new) (K.shown sink.old) (K.shown sink.new) SaysNothing result }
    ensures writes { result ≢ Err Write → (K.shown sink.new).faults ≡ (K.shown sink.old).faults }

    // However it ends, the devices are the same, and take back no fault.
    ensures reads_later { IsLater (S.shown source.old) (S.shown source.new) }
    ensures puts_later { IsLater (K.shown sink.old) (K.shown sink.new) }
{
    let frames = read_legacy_frames(alloc, source)?;
    put_captures(alloc, seed, noise, &frames, sink)
}

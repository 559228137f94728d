//! The last line of an input: that it ended, or its first fault.
ghost use Rattle.std.specs.Prelude.{◌≡◌, ◌≢◌, ℕ, List, Err, IfOk};
ghost use Rattle.ht_io.specs.Devices.{IsLater};
ghost use Rattle.ht_runs.specs.declared.faults.RunFault.TheVariants.{NoMemory as LackOfMemory, Write as FailedWrite};
ghost use Rattle.ht_receive.specs.Endings.{EndsLines, PutsLast, PutsText};

use ht_feed::Ended;
use ht_io::Sink;
use ht_runs::RunFault;
use ht_text::{end_line, refused_line};
use std::alloc::{AllocError, Global};

// Puts a line, and answers as the run then ends. Without memory for the line the sink is as before.
fn put_line<K: Sink>(
    line: Result<Vec<u8>, AllocError>,
    then: Result<u64, RunFault>,
    sink: &mut K,
) -> Result<u64, RunFault>
    ensures puts { (text : List ℕ) → IfOk line (λ octets. octets.items ≡ text)
        → PutsText then (Err FailedWrite) (Err LackOfMemory) text (K.shown sink.old) (K.shown sink.new) result }
    ensures nothing { then ≢ Err LackOfMemory → result ≡ Err LackOfMemory → sink.new ≡ sink.old }
    ensures writes { result ≢ Err FailedWrite → (K.shown sink.new).faults ≡ (K.shown sink.old).faults }
    ensures later { IsLater (K.shown sink.old) (K.shown sink.new) }
{
    let line = line?;
    sink.put(&line)?;
    then
}

/// Puts the last line behind the other lines of an input, of which a run ended so: `end N frames` where it is whole, and then
/// answers the number of its frames; or `refused NAME at OFFSET` where it has a fault, and answers that.
///
/// Where a device failed or memory ran out nothing is put, and the answer says so again. It answers `Write` where the sink fails,
/// and a part of the line was put; and `NoMemory` where there is none for the line, and nothing of it was put.
pub fn put_last<K: Sink>(
    alloc: Global,
    ended: Result<Ended, RunFault>,
    sink: &mut K,
) -> Result<u64, RunFault>
    ensures puts { PutsLast ended (K.shown sink.old) (K.shown sink.new) result }

    // Where the answer is `NoMemory` nothing was put.
    ensures nothing { result ≡ Err LackOfMemory → sink.new ≡ sink.old }

    // Where the sink failed the answer is `Write`.
    ensures writes { result ≢ Err FailedWrite → (K.shown sink.new).faults ≡ (K.shown sink.old).faults }

    // However it ends, the sink is the same, and takes back no fault.
    ensures later { IsLater (K.shown sink.old) (K.shown sink.new) }
{
    match ended {
        Ok(whole) => put_line(end_line(alloc, whole.frames), Ok(whole.frames), sink),
        Err(RunFault::Format(fault)) => {
            let line = refused_line(alloc, fault.kind.name(), fault.offset);
            put_line(line, Err(RunFault::Format(fault)), sink)
        }
        Err(fault) => Err(fault),
    }
}

/// Puts the last line of a whole input, as [`put_last`] does. The line of a fault it leaves to the caller: where the input isn't
/// whole nothing is put, and the answer says why.
pub fn put_end<K: Sink>(
    alloc: Global,
    ended: Result<Ended, RunFault>,
    sink: &mut K,
) -> Result<u64, RunFault>
    ensures { EndsLines ended (K.shown sink.old) (K.shown sink.new) result }
{
    let whole = ended?;
    put_last(alloc, Ok(whole), sink)
}

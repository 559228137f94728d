//! Lines that wait, put many at once.
ghost use Rattle.std.specs.Prelude.{◌≡◌, ◌<◌, ◌++◌, ℕ, List, [], OnErr, OnOk, length, string_bytes};
ghost use Rattle.ht_io.specs.Devices.{Grows, GrowsByPart, IsLater, Puts, Rose};

use ht_io::{Failed, Sink};

/// The number of octets in a block of lines. Lines are put once those that wait have at least this many octets.
pub(crate) const BLOCK: usize = 16384;

/// Puts the lines that wait, so that none waits. Where the sink fails, a part of them from their front was put.
pub(crate) fn put<K: Sink>(text: &mut String, sink: &mut K) -> Result<(), Failed>
    ensures puts { Puts (K.shown sink.old) (K.shown sink.new) (string_bytes text.old) result }
    ensures none { OnOk result (string_bytes text.new ≡ []) }
{
    sink.put(text.as_bytes())?;
    text.clear();
    Ok(())
}

/// Puts the lines that wait where they are 16384 octets or more, so that fewer wait then. That fewer are kept back, the code
/// shows and no clause. Where the sink fails, a part of them from their front was put.
pub(crate) fn put_block<K: Sink>(text: &mut String, sink: &mut K) -> Result<(), Failed>
    ensures grown { OnOk result ((lines : List ℕ) × Grows (K.shown sink.old) (K.shown sink.new) lines
        × (string_bytes text.old ≡ lines ++ string_bytes text.new)) }
    ensures few { OnOk result (length (string_bytes text.new) < 16384) }
    ensures steady { OnOk result ((K.shown sink.new).faults ≡ (K.shown sink.old).faults) }
    ensures part { OnErr result (GrowsByPart (K.shown sink.old) (K.shown sink.new) (string_bytes text.old)) }
    ensures cause { OnErr result (Rose (K.shown sink.old) (K.shown sink.new)) }
    ensures later { IsLater (K.shown sink.old) (K.shown sink.new) }
{
    if text.len() < BLOCK {
        return Ok(());
    }
    put(text, sink)
}

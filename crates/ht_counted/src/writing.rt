//! Files of counted entries as they are written.
ghost use Rattle.std.specs.Prelude.{◌≡◌, ◌≤◌, ℕ, List, length, OnOk, OnErr};
ghost use Rattle.ht_io.specs.Devices.{Grows, GrowsByPart, Rose, IsLater};
ghost use Rattle.ht_counted.specs.Counted.{counted_octets};

use ht_heads::start_of;
use ht_io::{Failed, Sink};

/// What puts the entries of a file, one by one.
pub trait Putter {
    /// What the file counts.
    type Entry;

    /// The octets of an entry.
    ghost octets: { Self.Entry → List ℕ };

    /// Puts an entry. Where the sink fails, a part of its octets from their front was put.
    fn put<K: Sink>(&mut self, entry: &Self::Entry, sink: &mut K) -> Result<(), Failed>
        ensures grown { OnOk result (Grows (K.shown sink.old) (K.shown sink.new) (octets entry.now)) }
        ensures steady { OnOk result ((K.shown sink.new).faults ≡ (K.shown sink.old).faults) }
        ensures part { OnErr result (GrowsByPart (K.shown sink.old) (K.shown sink.new) (octets entry.now)) }
        ensures cause { OnErr result (Rose (K.shown sink.old) (K.shown sink.new)) }
        ensures later { IsLater (K.shown sink.old) (K.shown sink.new) };
}

/// Puts the file of these entries, with a count of two octets. Takes no memory of its own.
///
/// Where the sink fails, a part of the file from its front was put.
pub fn write_whole<P: Putter, K: Sink>(
    magic: &[u8; 4],
    entries: &[P::Entry],
    putter: &mut P,
    sink: &mut K,
) -> Result<(), Failed>
    requires few { length entries.now ≤ 65535 }
    ensures grown { OnOk result (Grows (K.shown sink.old) (K.shown sink.new) (counted_octets magic.now 2 P.octets entries.now)) }
    ensures steady { OnOk result ((K.shown sink.new).faults ≡ (K.shown sink.old).faults) }
    ensures part { OnErr result (GrowsByPart (K.shown sink.old) (K.shown sink.new) (counted_octets magic.now 2 P.octets entries.now)) }
    ensures cause { OnErr result (Rose (K.shown sink.old) (K.shown sink.new)) }
    ensures later { IsLater (K.shown sink.old) (K.shown sink.new) }
{
    let start = start_of(magic, 1, entries.len() as u16);
    sink.put(&start)?;
    for entry in entries {
        putter.put(entry, sink)?;
    }
    Ok(())
}

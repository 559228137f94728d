//! The octets of many items, put one after another, as many at once as a chunk holds.
ghost use Rattle.std.specs.Prelude.{◌≡◌, ◌≤◌, ◌+◌, ◌++◌, [], ℕ, List, length, flat_map, OnOk, OnErr};
ghost use Rattle.ht_io.specs.Devices.{Grows, GrowsByPart, Rose, IsLater};
ghost use Rattle.ht_counted.specs.Packing.{Moves};

use ht_fields::Chunk;
use ht_io::{Failed, Sink};

/// The most octets of a chunk.
const ROOM: usize = 4096;

/// What adds items to a chunk, one by one.
pub trait Packer {
    /// What is put.
    type Item;

    /// The octets of an item.
    ghost octets: { Self.Item → List ℕ };

    /// The number of octets of an item, at most as many as a chunk holds.
    fn size(item: &Self::Item) -> usize
        ensures value { result ≡ length (octets item.now) }
        ensures few { result ≤ 4096 };

    /// Adds the octets of an item.
    fn add(item: &Self::Item, chunk: &mut Chunk)
        requires { length chunk.old + length (octets item.now) ≤ 4096 }
        ensures { chunk.new ≡ chunk.old ++ octets item.now };
}

// Puts the octets of the chunk and drops them from it. Where there are none, the sink isn't asked.
fn put_chunk<K: Sink>(chunk: &mut Chunk, sink: &mut K) -> Result<(), Failed>
    ensures grown { OnOk result (Grows (K.shown sink.old) (K.shown sink.new) chunk.old) }
    ensures none { OnOk result (chunk.new ≡ []) }
    ensures steady { OnOk result ((K.shown sink.new).faults ≡ (K.shown sink.old).faults) }
    ensures part { OnErr result (GrowsByPart (K.shown sink.old) (K.shown sink.new) chunk.old) }
    ensures cause { OnErr result (Rose (K.shown sink.old) (K.shown sink.new)) }
    ensures later { IsLater (K.shown sink.old) (K.shown sink.new) }
{
    if !chunk.as_slice().is_empty() {
        sink.put(chunk.as_slice())?;
        chunk.clear();
    }
    Ok(())
}

// Adds an item to the chunk, and before puts what the chunk holds where there is no room for the item behind it.
fn pack<P: Packer, K: Sink>(item: &P::Item, chunk: &mut Chunk, sink: &mut K) -> Result<(), Failed>
    ensures moved { OnOk result (Moves (K.shown sink.old) (K.shown sink.new) chunk.old chunk.new (P.octets item.now)) }
    ensures steady { OnOk result ((K.shown sink.new).faults ≡ (K.shown sink.old).faults) }
    ensures part { OnErr result (GrowsByPart (K.shown sink.old) (K.shown sink.new) chunk.old) }
    ensures cause { OnErr result (Rose (K.shown sink.old) (K.shown sink.new)) }
    ensures later { IsLater (K.shown sink.old) (K.shown sink.new) }
{
    if chunk.as_slice().len() + P::size(item) > ROOM {
        put_chunk(chunk, sink)?;
    }
    P::add(item, chunk);
    Ok(())
}

/// Puts what the chunk holds, and then the octets of these items, as many at once as the chunk has room for. It takes no
/// memory, and leaves no octets in the chunk.
///
/// Where the sink fails, a part of them from their front was put.
pub fn put_packed<P: Packer, K: Sink>(
    items: &[P::Item],
    chunk: &mut Chunk,
    sink: &mut K,
) -> Result<(), Failed>
    ensures grown { OnOk result (Grows (K.shown sink.old) (K.shown sink.new) (chunk.old ++ flat_map P.octets items.now)) }
    ensures none { OnOk result (chunk.new ≡ []) }
    ensures steady { OnOk result ((K.shown sink.new).faults ≡ (K.shown sink.old).faults) }
    ensures part { OnErr result (GrowsByPart (K.shown sink.old) (K.shown sink.new) (chunk.old ++ flat_map P.octets items.now)) }
    ensures cause { OnErr result (Rose (K.shown sink.old) (K.shown sink.new)) }
    ensures later { IsLater (K.shown sink.old) (K.shown sink.new) }
{
    for item in items {
        pack::<P, K>(item, chunk, sink)?;
    }
    put_chunk(chunk, sink)
}

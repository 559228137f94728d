//! A consumer that puts how far hits are.
ghost use Rattle.std.specs.Prelude.{◌≡◌, [], map, refl, IfOk};
ghost use Rattle.ht_feed.specs.Meters.{octet_of, octets_of};

use crate::book_fault::BookFault;
use crate::consumer::Consumer;
use crate::due_block::DueBlock;
use crate::hits::Hits;
use crate::reader::BlockReader;
use circular_buffer::HeapCircularBuffer;
use ht_io::Sink;
use ht_metric::Found;
use std::alloc::{AllocError, Global};

/// Puts an octet for each hit: its distance, or 255 where that is more. It keeps nothing back.
#[derive(Drop)]
pub struct Meter<K> {
    alloc: Global,
    /// What it puts octets into.
    pub sink: K,
}

impl<K: Sink> Meter<K> {
    /// A meter that puts octets into this sink. It takes no memory until a block comes.
    pub fn new(alloc: Global, sink: K) -> Meter<K>
        ensures { result.sink ≡ sink }
    {
        Meter { alloc, sink }
    }
}

// An octet for each distance.
fn octets(alloc: Global, found: &[Found]) -> Result<Vec<u8>, AllocError>
    ensures { IfOk result (λ octets. octets.items ≡ map octet_of found.now) }
{
    let mut octets = Vec::with_capacity(alloc, found.len())?;
    for hit in found {
        octets.push(u8::try_from(hit.distance).unwrap_or(u8::MAX))?;
    }
    Ok(octets)
}

impl<R: BlockReader, K: Sink> Consumer<R> for Meter<K> {
    type Piece = u8;

    type Answer = Hits;

    ghost shown = { λ m. K.shown m.sink };

    ghost lent = { λ m. [] };

    ghost pieces = { λ m jobs. octets_of jobs };

    ghost waits = { λ m due. Unit {0} };

    #[tactic(auto, using(crate::proofs::Measuring::nothing))]
    fn take(
        &mut self,
        _: &R::Head,
        _: &R::Block,
        hits: &Hits,
        _: &HeapCircularBuffer<DueBlock<R>>,
    ) -> Result<(), BookFault> {
        let octets = octets(self.alloc, hits.found.as_slice())?;
        match self.sink.put(octets.as_slice()) {
            Ok(()) => Ok(()),
            Err(_) => Err(BookFault::Failed),
        }
    }

    ghost more_due = { λ m due h w. tt };

    ghost none_due = { λ m w. refl };
}

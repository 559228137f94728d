//! A sink in memory whose room grows.
ghost use Rattle.std.specs.Prelude.{◌≡◌, ◌≤◌, [], ◌++◌, Some, OnOk, OnErr};
ghost use Rattle.ht_io.specs.Causes.{HasRisen, one_more};
ghost use Rattle.ht_io.specs.Pieces.{KnownGrownByPart};
ghost use Rattle.ht_io.specs.Writing.{device_of_growing};

use crate::{Failed, Sink};
use std::alloc::Global;
use std::marker::Model;

/// Octets in memory that grows with them. A put fails only for lack of memory, which its count of
/// faults counts, and a refused piece leaves the octets as they were.
#[derive(Drop)]
pub struct GrowSink {
    octets: Vec<u8>,
    faults: u64,
}

impl Model for GrowSink {
    ghost use Rattle.ht_io.specs.Writing.{Growing};

    ghost Value = { Growing };

    ghost view = { λ s. record { held = s.octets.items; faults = s.faults } };
}

impl GrowSink {
    /// A sink that holds no octet yet. It takes no memory before the first put.
    pub fn new(alloc: Global) -> GrowSink
        ensures { result ≡ record { held = []; faults = 0 } }
    {
        GrowSink {
            octets: Vec::new(alloc),
            faults: 0,
        }
    }

    /// The octets that were put.
    pub fn held(&self) -> &[u8]
        ensures { result.now ≡ self.now.held }
    {
        &self.octets
    }

    /// Gives the octets up. It takes no memory.
    #[must_use]
    pub fn into_held(self) -> Vec<u8>
        ensures { result.items ≡ self.held }
    {
        self.octets
    }
}

impl Sink for GrowSink {
    ghost shown = { device_of_growing };

    fn put(&mut self, piece: &[u8]) -> Result<(), Failed>
        ensures whole { OnOk result (self.new ≡ record self.old { held = self.old.held ++ piece.now }) }
        ensures refused { OnErr result (self.new ≡ record self.old { faults = one_more self.old.faults }) }

        ensures grown { OnOk result (self.new.held ≡ self.old.held ++ piece.now) }
        ensures part { OnErr result (KnownGrownByPart (Some self.old.held) (Some self.new.held) piece.now) }
        ensures cause { OnErr result (HasRisen self.old.faults self.new.faults) }
        ensures later { self.old.faults ≤ self.new.faults }
    {
        if self.octets.extend_from_slice(piece).is_err() {
            self.faults = self.faults.saturating_add(1);
            return Err(Failed);
        }
        Ok(())
    }
}

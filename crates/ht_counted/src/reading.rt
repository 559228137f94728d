//! Files of counted entries that are read whole.
ghost use Rattle.std.specs.Prelude.{◌≡◌, ◌<◌, ◌+◌, ◌^◌, ℕ, List, length, IfOk, IfErr};
ghost use Rattle.ht_io.specs.Devices.{Takes, IsLater};
ghost use Rattle.ht_fields.specs.Readers.{reader_in};
ghost use Rattle.ht_fields.specs.WholeFiles.{EndsEarly, ReadsWhole};
ghost use Rattle.ht_counted.specs.Counted.{AreCounted, CountedFormat, IsCounted, counted, counted_octets, entries_due};

use ht_fields::end;
use ht_heads::{Limits, start};
use ht_io::{InFault, Source};
use std::alloc::Global;

/// What reads the entries of a file, one by one.
pub trait Entries {
    /// What the file counts.
    type Entry: Drop;

    /// Which field of an entry is due.
    ghost State: { Type 0 };

    /// The format of the file.
    ghost format: { CountedFormat State Self.Entry };

    /// The octets of an entry.
    ghost octets: { Self.Entry → List ℕ };

    /// The entry is one that a file can have.
    ghost fits: { Self.Entry → Type 0 };

    /// The number of octets that an entry has at most.
    ghost most: { ℕ };

    /// It can read an entry.
    ghost ready: { Self → Type 0 };

    /// Reads an entry, the first of its octets at offset `at`, while entries are left.
    fn read<S: Source>(&mut self, source: &mut S, at: u64) -> Result<Self::Entry, InFault>
        requires offset { at + most < 2 ^ 64 }
        requires ready { ready self.old }
        ensures ready { ready self.new }
        ensures whole { IfOk result (λ entry. Takes (S.shown source.old) (S.shown source.new) (octets entry)) }
        ensures fits { IfOk result fits }
        ensures failed { (left : ℕ) → 0 < left
            → IfErr result (EndsEarly (reader_in (counted format) (entries_due format.first left) at (S.shown source.old)) (S.shown source.new)) }
        ensures later { IsLater (S.shown source.old) (S.shown source.new) };

    /// The number of octets of an entry.
    fn size(entry: &Self::Entry) -> u64
        requires { fits entry.now }
        ensures { result ≡ length (octets entry.now) };
}

/// Reads a file to its end, and gives its entries.
///
/// `Format` comes at the first fault of the file, `Read` where the source failed before any fault, and `NoMemory` where
/// there was no memory for an entry.
pub fn read_whole<E: Entries, S: Source>(
    alloc: Global,
    magic: &[u8; 4],
    limits: &Limits,
    entries: &mut E,
    source: &mut S,
) -> Result<Vec<E::Entry>, InFault>
    requires magic { E.format.magic ≡ magic.now }
    requires limits { E.format.limits ≡ limits.now }
    requires counted { IsCounted E.format E.octets E.fits E.most }
    requires ready { E.ready entries.old }

    // What was left was the file of these entries, and is taken.
    ensures file { IfOk result (λ read. ReadsWhole (AreCounted E.format.limits E.fits)
        (counted_octets E.format.magic E.format.limits.width E.octets) (S.shown source.old) (S.shown source.new) read.items) }

    // A refusal is the first fault of the file, or its source failed within a file or behind it, or memory ran out.
    ensures refused { IfErr result (EndsEarly (reader_in (counted E.format) (counted E.format).start 0 (S.shown source.old)) (S.shown source.new)) }
    ensures later { IsLater (S.shown source.old) (S.shown source.new) }
{
    let count = match start(source, magic, limits) {
        Ok(count) => count,
        Err(fault) => return Err(fault),
    };
    let mut at = 5 + limits.width as u64;
    let mut held = Vec::new(alloc);
    for _index in 0..count {
        let entry = match entries.read(source, at) {
            Ok(entry) => entry,
            Err(fault) => return Err(fault),
        };
        at += E::size(&entry);
        match held.push(entry) {
            Ok(()) => {}
            Err(_) => return Err(InFault::NoMemory),
        }
    }
    match end(source, at) {
        Ok(()) => Ok(held),
        Err(fault) => Err(fault),
    }
}

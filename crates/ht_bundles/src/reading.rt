//! Bundles that are read whole.
ghost use Rattle.std.specs.Prelude.{◌≡◌, ◌⊎◌, ◌<◌, ◌≤◌, ◌+◌, ◌^◌, ℕ, List, ◌++◌, length, OnOk, IfOk, IfErr};
ghost use Rattle.byteorder.specs.Endian.{big_bytes};
ghost use Rattle.ht_io.specs.Devices.{Takes, IsLater};
ghost use Rattle.ht_io.specs.declared.faults.InFault.TheVariants.{NoMemory};
ghost use Rattle.ht_fields.specs.Lacking.{LacksField};
ghost use Rattle.ht_fields.specs.Readers.{reader_in};
ghost use Rattle.ht_fields.specs.WholeFiles.{EndsEarly, ReadsWhole};
ghost use Rattle.ht_bundles.specs.Formats.{CaptureState, bundled, bundles as bundles_format, captures_due, capture_limits as capture_limits_of};
ghost use Rattle.ht_bundles.specs.Files.{AreCaptures, IsSized, bundle_of, sized_octets};

use crate::bundled::Bundled;
use byteorder::{BigEndian, ByteOrder};
use ht_counted::{Entries, read_whole};
use ht_fields::fill;
use ht_heads::Limits;
use ht_io::{InFault, Kind, Source};
use std::alloc::Global;

// How many octets of a capture are read at once: more than a buffer of std holds, which passes such a read on.
const PIECE: usize = 65536;

// How a bundle counts its captures.
fn capture_limits() -> Limits
    ensures { result ≡ capture_limits_of }
{
    Limits {
        width: 1,
        least: 1,
        most: 16,
        kind: Kind::BadCount,
    }
}

// Reads the number of a capture's octets.
fn size<S: Source>(source: &mut S, at: u64) -> Result<u32, InFault>
    requires offset { at + 4 < 2 ^ 64 }
    ensures whole { IfOk result (λ size. Takes (S.shown source.old) (S.shown source.new) (big_bytes 4 size)) }
    ensures fits { IfOk result (λ size. size < 2 ^ 32) }
    ensures lacking { IfErr result (LacksField 4 at (S.shown source.old) (S.shown source.new)) }
    ensures later { IsLater (S.shown source.old) (S.shown source.new) }
{
    let mut octets = [0u8; 4];
    match fill(source, at, &mut octets) {
        Ok(()) => Ok(BigEndian::read_u32(&octets)),
        Err(fault) => Err(fault),
    }
}

// Reads a piece of a capture into the front of the buffer for one, and appends it.
fn piece<S: Source>(
    source: &mut S,
    at: u64,
    count: usize,
    piece: &mut [u8],
    octets: &mut Vec<u8>,
) -> Result<(), InFault>
    requires few { count ≤ length piece.old }
    requires offset { at + count < 2 ^ 64 }
    ensures piece { length piece.new ≡ length piece.old }
    ensures read { OnOk result ((piece : List ℕ) × (length piece ≡ count) × (octets.new.items ≡ octets.old.items ++ piece)
        × Takes (S.shown source.old) (S.shown source.new) piece) }
    ensures failed { IfErr result (λ fault. (fault ≡ NoMemory) ⊎ LacksField count at (S.shown source.old) (S.shown source.new) fault) }
    ensures later { IsLater (S.shown source.old) (S.shown source.new) }
{
    let piece = &mut piece[..count];
    fill(source, at, piece)?;
    octets.extend_from_slice(piece)?;
    Ok(())
}

// Reads this number of octets, piece by piece. Memory is taken as they come.
fn octets<S: Source>(
    alloc: Global,
    source: &mut S,
    at: u64,
    size: u32,
    buffer: &mut [u8],
) -> Result<Vec<u8>, InFault>
    requires offset { at + size < 2 ^ 64 }
    requires piece { length buffer.old ≡ 65536 }
    ensures piece { length buffer.new ≡ length buffer.old }
    ensures whole { IfOk result (λ octets. Takes (S.shown source.old) (S.shown source.new) octets.items) }
    ensures size { IfOk result (λ octets. length octets.items ≡ size) }
    ensures failed { IfErr result (λ fault. (fault ≡ NoMemory) ⊎ LacksField size at (S.shown source.old) (S.shown source.new) fault) }
    ensures later { IsLater (S.shown source.old) (S.shown source.new) }
{
    let size = size as usize;
    let mut octets = Vec::new(alloc);
    let mut read = 0;
    while read < size {
        let more = (size - read).min(PIECE);
        match piece(source, at + read as u64, more, buffer, &mut octets) {
            Ok(()) => read += more,
            Err(fault) => return Err(fault),
        }
    }
    Ok(octets)
}

// Reads a capture, while captures are left.
fn capture<S: Source>(
    alloc: Global,
    source: &mut S,
    at: u64,
    buffer: &mut [u8],
) -> Result<Bundled, InFault>
    requires offset { at + 4294967300 < 2 ^ 64 }
    requires piece { length buffer.old ≡ 65536 }
    ensures piece { length buffer.new ≡ length buffer.old }
    ensures whole { IfOk result (λ capture. Takes (S.shown source.old) (S.shown source.new) (sized_octets capture)) }
    ensures sized { IfOk result IsSized }
    ensures failed { (left : ℕ) → 0 < left
        → IfErr result (EndsEarly (reader_in bundles_format (captures_due left) at (S.shown source.old)) (S.shown source.new)) }
    ensures later { IsLater (S.shown source.old) (S.shown source.new) }
{
    let size = match size(source, at) {
        Ok(size) => size,
        Err(fault) => return Err(fault),
    };
    match octets(alloc, source, at + 4, size, buffer) {
        Ok(octets) => Ok(Bundled::from(octets)),
        Err(fault) => Err(fault),
    }
}

// The captures of a bundle, one by one, each piece by piece through the buffer for one.
#[derive(Drop)]
struct Captures {
    alloc: Global,
    buffer: Vec<u8>,
}

impl Entries for Captures {
    type Entry = Bundled;

    ghost State = { CaptureState };

    ghost format = { bundled };

    ghost octets = { sized_octets };

    ghost fits = { IsSized };

    ghost most = { 4294967300 };

    ghost ready = { λ captures. length captures.buffer.items ≡ 65536 };

    fn read<S: Source>(&mut self, source: &mut S, at: u64) -> Result<Bundled, InFault> {
        capture(self.alloc, source, at, &mut self.buffer)
    }

    fn size(capture: &Bundled) -> u64 {
        4 + capture.as_slice().len() as u64
    }
}

/// Reads a bundle to its end, and gives the octets of its captures, in order.
///
/// `Format` comes at the first fault of the bundle, `Read` where the source failed before any fault, and `NoMemory` where
/// octets that came found no room, or before any came.
pub fn read_bundle<S: Source>(alloc: Global, source: &mut S) -> Result<Vec<Bundled>, InFault>
    // What was left was the bundle of these captures, and is taken.
    ensures file { IfOk result (λ captures. ReadsWhole AreCaptures bundle_of (S.shown source.old) (S.shown source.new) captures.items) }

    // A refusal is the first fault of the bundle, or its source failed within a bundle or behind it, or memory ran out.
    ensures refused { IfErr result (EndsEarly (reader_in bundles_format bundles_format.start 0 (S.shown source.old)) (S.shown source.new)) }
    ensures later { IsLater (S.shown source.old) (S.shown source.new) }
{
    match vec![in alloc; 0u8; PIECE] {
        Ok(buffer) => {
            let mut captures = Captures { alloc, buffer };
            read_whole(alloc, b"HTMB", &capture_limits(), &mut captures, source)
        }
        Err(_) => Err(InFault::NoMemory),
    }
}

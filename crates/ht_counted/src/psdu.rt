//! What the frames of files have behind their heads: the seed of the scrambler, and the octets of the PSDU.
ghost use Rattle.std.specs.Prelude.{◌≡◌, ◌<◌, ◌+◌, ◌^◌, [], ◌∷◌, length, replicate, IfOk, IfErr};
ghost use Rattle.ht_io.specs.Devices.{Takes, IsLater};
ghost use Rattle.ht_io.specs.declared.faults.InFault.TheVariants.{NoMemory};
ghost use Rattle.ht_io.specs.declared.faults.Kind.TheVariants.{BadSeed};
ghost use Rattle.ht_fields.specs.Lacking.{FailsField};
ghost use Rattle.ht_scramble.specs.Sequence.{IsSeed};
ghost use Rattle.ht_counted.specs.Seeds.{LacksOctets, is_no_seed};

use ht_fields::{bad, fill, octet};
use ht_io::{InFault, Kind, Source};
use ht_scramble::Seed;
use std::alloc::Global;

/// Reads the seed of a frame, 1 to 127, from the octet at `at` (IEEE Std 802.11-2012, clause 18.3.5.5). It refuses another
/// number with `BadSeed` there, and where no octet comes as [`octet`] of `ht_fields` does.
pub fn seed<S: Source>(source: &mut S, at: u64) -> Result<Seed, InFault>
    requires offset { at + 1 < 2 ^ 64 }
    ensures whole { IfOk result (λ seed. Takes (S.shown source.old) (S.shown source.new) (seed ∷ [])) }
    ensures seed { IfOk result (λ seed. IsSeed seed) }
    ensures failed { IfErr result (FailsField 1 BadSeed is_no_seed at (S.shown source.old) (S.shown source.new)) }
    ensures later { IsLater (S.shown source.old) (S.shown source.new) }
{
    Seed::new(octet(source, at)?).ok_or(bad(Kind::BadSeed, at))
}

// Room for the octets of a PSDU: this number of zeros. The only error is lack of memory.
fn zeros(alloc: Global, count: u16) -> Result<Vec<u8>, InFault>
    ensures zeros { IfOk result (λ octets. octets.items ≡ replicate count 0) }
    ensures memory { IfErr result (λ fault. fault ≡ NoMemory) }
{
    match vec![in alloc; 0u8; count as usize] {
        Ok(octets) => Ok(octets),
        Err(_) => Err(InFault::NoMemory),
    }
}

/// Reads the octets of a PSDU, this number of them, the first at offset `at`. They can't be at fault: it is refused only
/// where they don't come whole, or where there is no memory for them.
pub fn octets<S: Source>(
    alloc: Global,
    source: &mut S,
    at: u64,
    count: u16,
) -> Result<Vec<u8>, InFault>
    requires offset { at + count < 2 ^ 64 }
    ensures whole { IfOk result (λ octets. Takes (S.shown source.old) (S.shown source.new) octets.items) }
    ensures size { IfOk result (λ octets. length octets.items ≡ count) }
    ensures failed { IfErr result (LacksOctets count at (S.shown source.old) (S.shown source.new)) }
    ensures later { IsLater (S.shown source.old) (S.shown source.new) }
{
    let mut octets = match zeros(alloc, count) {
        Ok(octets) => octets,
        Err(fault) => return Err(fault),
    };
    match fill(source, at, &mut octets) {
        Ok(()) => Ok(octets),
        Err(fault) => Err(fault),
    }
}

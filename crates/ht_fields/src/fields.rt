//! Numbers and single octets, each read whole and judged, and the end of the input.
ghost use Rattle.std.specs.Prelude.{◌≡◌, ◌<◌, ◌+◌, ◌^◌, [], ◌∷◌, length, IfOk, IfErr, OnOk};
ghost use Rattle.byteorder.specs.Endian.{big_bytes};
ghost use Rattle.ht_io.specs.Devices.{Takes, TakesAll, IsLater};
ghost use Rattle.ht_fields.specs.Lacking.{FailsField, GoesFurther, LacksField};
ghost use Rattle.ht_fields.specs.Tests.{AreBytes, differs};

use crate::read::{Field, read_field};
use byteorder::{BigEndian, ByteOrder};
use ht_io::{FormatFault, InFault, Kind, Source};

/// A fault of this kind, of the field whose first octet is at this offset.
pub fn bad(kind: Kind, offset: u64) -> InFault
    ensures { result ≡ InFault.Format (record { kind = kind; offset = offset }) }
{
    InFault::Format(FormatFault { kind, offset })
}

/// Fills the slice with the octets of the field that is due, the first of them at offset `at`.
///
/// It refuses with `Truncated`, at the offset where the input ends, where fewer are left, and with `Read` where the source
/// fails. The octets that came are taken in either case.
pub fn fill<S: Source>(source: &mut S, at: u64, into: &mut [u8]) -> Result<(), InFault>
    requires offset { at + length into.old < 2 ^ 64 }
    ensures whole { OnOk result (Takes (S.shown source.old) (S.shown source.new) into.new) }
    ensures bytes { AreBytes into.new }
    ensures lacking { IfErr result (LacksField (length into.new) at (S.shown source.old) (S.shown source.new)) }
    ensures later { IsLater (S.shown source.old) (S.shown source.new) }
{
    match read_field(source, into) {
        Field::Whole => Ok(()),
        Field::Ended(count) => Err(bad(Kind::Truncated, at + count as u64)),
        Field::Broken => Err(InFault::Read),
    }
}

/// Reads a field of one octet, at offset `at`. It refuses as [`fill`] does.
pub fn octet<S: Source>(source: &mut S, at: u64) -> Result<u8, InFault>
    requires offset { at + 1 < 2 ^ 64 }
    ensures whole { IfOk result (λ x. Takes (S.shown source.old) (S.shown source.new) (x ∷ [])) }
    ensures lacking { IfErr result (LacksField 1 at (S.shown source.old) (S.shown source.new)) }
    ensures later { IsLater (S.shown source.old) (S.shown source.new) }
{
    if let Some(octet) = source.at_hand().first().copied() {
        source.consume(1);
        return Ok(octet);
    }
    let mut octets = [0u8; 1];
    fill(source, at, &mut octets)?;
    Ok(octets[0])
}

/// Reads a field of two octets, the first at offset `at`. It refuses as [`fill`] does.
pub fn pair<S: Source>(source: &mut S, at: u64) -> Result<[u8; 2], InFault>
    requires offset { at + 2 < 2 ^ 64 }
    ensures whole { IfOk result (λ octets. Takes (S.shown source.old) (S.shown source.new) octets) }
    ensures lacking { IfErr result (LacksField 2 at (S.shown source.old) (S.shown source.new)) }
    ensures later { IsLater (S.shown source.old) (S.shown source.new) }
{
    let mut octets = [0u8; 2];
    fill(source, at, &mut octets)?;
    Ok(octets)
}

/// Reads a field that is a number of two octets, big-endian, the first at offset `at`. It refuses as [`fill`] does.
pub fn number<S: Source>(source: &mut S, at: u64) -> Result<u16, InFault>
    requires offset { at + 2 < 2 ^ 64 }
    ensures whole { IfOk result (λ n. Takes (S.shown source.old) (S.shown source.new) (big_bytes 2 n)) }
    ensures lacking { IfErr result (LacksField 2 at (S.shown source.old) (S.shown source.new)) }
    ensures later { IsLater (S.shown source.old) (S.shown source.new) }
{
    let octets = pair(source, at)?;
    Ok(BigEndian::read_u16(&octets))
}

/// Reads an octet at offset `at` that must be `wanted`; another one is taken, and is this kind of fault there. Where none comes
/// it refuses as [`fill`] does.
pub fn one_octet<S: Source>(source: &mut S, at: u64, wanted: u8, kind: Kind) -> Result<(), InFault>
    requires offset { at + 1 < 2 ^ 64 }
    ensures whole { OnOk result (Takes (S.shown source.old) (S.shown source.new) (wanted ∷ [])) }
    ensures failed { IfErr result (FailsField 1 kind (differs wanted) at (S.shown source.old) (S.shown source.new)) }
    ensures later { IsLater (S.shown source.old) (S.shown source.new) }
{
    if octet(source, at)? == wanted {
        Ok(())
    } else {
        Err(bad(kind, at))
    }
}

/// Sees that the input ends at this offset. It refuses with `Trailing` there where an octet follows, which is taken, and with
/// `Read` where the source fails.
pub fn end<S: Source>(source: &mut S, at: u64) -> Result<(), InFault>
    ensures ended { OnOk result (TakesAll (S.shown source.old) (S.shown source.new) []) }
    ensures further { IfErr result (GoesFurther at (S.shown source.old) (S.shown source.new)) }
    ensures later { IsLater (S.shown source.old) (S.shown source.new) }
{
    let mut octet = [0u8; 1];
    match read_field(source, &mut octet) {
        Field::Whole => Err(bad(Kind::Trailing, at)),
        Field::Ended(_) => Ok(()),
        Field::Broken => Err(InFault::Read),
    }
}

//! The magic of a file and the head of a frame, read field by field.
ghost use Rattle.std.specs.Prelude.{◌≡◌, ◌<◌, ◌≤◌, ◌+◌, ◌^◌, [], ◌∷◌, IfOk, IfErr, OnOk};
ghost use Rattle.byteorder.specs.Endian.{big_bytes};
ghost use Rattle.ht_io.specs.Devices.{Takes, IsLater};
ghost use Rattle.ht_io.specs.declared.faults.Kind.TheVariants.{BadBandwidth, BadMcs, BadLength};
ghost use Rattle.ht_fields.specs.Lacking.{FailsField};
ghost use Rattle.ht_fields.specs.Tests.{is_above, is_zero};
ghost use Rattle.ht_rate.specs.Schemes.{bandwidth_code};
ghost use Rattle.ht_rate.specs.Rates.{bandwidth_of, mcs_of};
ghost use Rattle.ht_heads.specs.Heads.{HeadFails, MagicFails, head_octets};

use ht_fields::{bad, number, octet, one_octet};
use ht_io::{InFault, Kind, Source};
use ht_rate::Rate;

/// Reads the magic in front of a file, octet by octet. It refuses with `BadMagic` at the first octet, 0 to 3, that is another
/// one than is wanted, and as [`octet`] does where none comes.
pub fn magic<S: Source>(source: &mut S, wanted: &[u8; 4]) -> Result<(), InFault>
    ensures whole { OnOk result (Takes (S.shown source.old) (S.shown source.new) wanted.now) }
    ensures failed { IfErr result (MagicFails wanted.now 0 (S.shown source.old) (S.shown source.new)) }
    ensures later { IsLater (S.shown source.old) (S.shown source.new) }
{
    for at in 0..4usize {
        match one_octet(source, at as u64, wanted[at], Kind::BadMagic) {
            Ok(()) => {}
            Err(fault) => return Err(fault),
        }
    }
    Ok(())
}

// Reads the code of a frame's bandwidth, 0 or 1.
fn bandwidth<S: Source>(source: &mut S, at: u64) -> Result<u8, InFault>
    requires offset { at + 1 < 2 ^ 64 }
    ensures whole { IfOk result (λ code. Takes (S.shown source.old) (S.shown source.new) (code ∷ [])) }
    ensures few { IfOk result (λ code. code ≤ 1) }
    ensures failed { IfErr result (FailsField 1 BadBandwidth (is_above 1) at (S.shown source.old) (S.shown source.new)) }
    ensures later { IsLater (S.shown source.old) (S.shown source.new) }
{
    let code = octet(source, at)?;
    if code > 1 {
        Err(bad(Kind::BadBandwidth, at))
    } else {
        Ok(code)
    }
}

// Reads a frame's MCS index, 0 to 31, and gives its rate.
fn mcs<S: Source>(source: &mut S, at: u64, code: u8) -> Result<Rate, InFault>
    requires offset { at + 1 < 2 ^ 64 }
    requires few { code ≤ 1 }
    ensures whole { IfOk result (λ rate. Takes (S.shown source.old) (S.shown source.new) (mcs_of rate ∷ [])) }
    ensures code { IfOk result (λ rate. bandwidth_code (bandwidth_of rate) ≡ code) }
    ensures failed { IfErr result (FailsField 1 BadMcs (is_above 31) at (S.shown source.old) (S.shown source.new)) }
    ensures later { IsLater (S.shown source.old) (S.shown source.new) }
{
    let index = octet(source, at)?;
    match Rate::of(code, index) {
        Ok(rate) => Ok(rate),
        Err(_) => Err(bad(Kind::BadMcs, at)),
    }
}

// Reads the number of octets of a frame's PSDU, which is at least 1.
fn length<S: Source>(source: &mut S, at: u64) -> Result<u16, InFault>
    requires offset { at + 2 < 2 ^ 64 }
    ensures whole { IfOk result (λ len. Takes (S.shown source.old) (S.shown source.new) (big_bytes 2 len)) }
    ensures some { IfOk result (λ len. 1 ≤ len) }
    ensures failed { IfErr result (FailsField 2 BadLength is_zero at (S.shown source.old) (S.shown source.new)) }
    ensures later { IsLater (S.shown source.old) (S.shown source.new) }
{
    let length = number(source, at)?;
    if length == 0 {
        Err(bad(Kind::BadLength, at))
    } else {
        Ok(length)
    }
}

/// Reads the head of a frame, four octets from this offset on: its rate and the number of octets of its PSDU, 1 to 65535.
///
/// It refuses with `BadBandwidth` at the first octet where that is neither 0 (20 MHz) nor 1 (40 MHz), with `BadMcs` at the
/// second where that is above 31, and with `BadLength` at the third where the length is 0; and as [`octet`] does where a field
/// doesn't come whole. The field at fault is the last one taken.
pub fn head<S: Source>(source: &mut S, at: u64) -> Result<(Rate, u16), InFault>
    requires offset { at + 4 < 2 ^ 64 }
    ensures whole { IfOk result (λ head. Takes (S.shown source.old) (S.shown source.new) (head_octets head.0 head.1)) }
    ensures some { IfOk result (λ head. 1 ≤ head.1) }
    ensures small { IfOk result (λ head. head.1 < 2 ^ 16) }
    ensures failed { IfErr result (HeadFails at (S.shown source.old) (S.shown source.new)) }
    ensures later { IsLater (S.shown source.old) (S.shown source.new) }
{
    let code = match bandwidth(source, at) {
        Ok(code) => code,
        Err(fault) => return Err(fault),
    };
    let rate = match mcs(source, at + 1, code) {
        Ok(rate) => rate,
        Err(fault) => return Err(fault),
    };
    match length(source, at + 2) {
        Ok(length) => Ok((rate, length)),
        Err(fault) => Err(fault),
    }
}

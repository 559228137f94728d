//! The fields of a frame's head, read.
ghost use Rattle.std.specs.Prelude.{◌≡◌, ◌<◌, ◌≤◌, ◌+◌, ◌^◌, [], ◌∷◌, IfOk, IfErr};
ghost use Rattle.byteorder.specs.Endian.{big_bytes};
ghost use Rattle.ht_io.specs.Devices.{Takes, IsLater};
ghost use Rattle.ht_io.specs.declared.faults.Kind.TheVariants.{BadLength, BadMcs};
ghost use Rattle.ht_fields.specs.Lacking.{FailsField};
ghost use Rattle.ht_fields.specs.Tests.{is_above};
ghost use Rattle.ht_heads.specs.Starts.{is_outside};
ghost use Rattle.ht_clause18.specs.Rates.{index_of};
ghost use Rattle.ht_legacy_files.specs.HeadedFormats.{length_limits as length_limits_of};

use ht_clause18::LegacyRate;
use ht_fields::{bad, octet};
use ht_heads::{Limits, count};
use ht_io::{InFault, Kind, Source};

// How a frame counts its octets.
fn length_limits() -> Limits
    ensures { result ≡ length_limits_of }
{
    Limits {
        width: 2,
        least: 1,
        most: 4095,
        kind: Kind::BadLength,
    }
}

/// Reads the index of a frame's rate, 0 to 7.
pub fn rate<S: Source>(source: &mut S, at: u64) -> Result<LegacyRate, InFault>
    requires offset { at + 1 < 2 ^ 64 }
    ensures whole { IfOk result (λ rate. Takes (S.shown source.old) (S.shown source.new) (index_of rate ∷ [])) }
    ensures failed { IfErr result (FailsField 1 BadMcs (is_above 7) at (S.shown source.old) (S.shown source.new)) }
    ensures later { IsLater (S.shown source.old) (S.shown source.new) }
{
    LegacyRate::of(octet(source, at)?).ok_or(bad(Kind::BadMcs, at))
}

/// Reads the number of a frame's octets, 1 to 4095.
pub fn length<S: Source>(source: &mut S, at: u64) -> Result<u16, InFault>
    requires offset { at + 8 < 2 ^ 64 }
    ensures whole { IfOk result (λ len. Takes (S.shown source.old) (S.shown source.new) (big_bytes 2 len)) }
    ensures least { IfOk result (λ len. 1 ≤ len) }
    ensures most { IfOk result (λ len. len ≤ 4095) }
    ensures failed { IfErr result (FailsField 2 BadLength (is_outside length_limits_of) at (S.shown source.old) (S.shown source.new)) }
    ensures later { IsLater (S.shown source.old) (S.shown source.new) }
{
    match count(source, at, &length_limits()) {
        Ok(length) => Ok(length as u16),
        Err(fault) => Err(fault),
    }
}

//! What stands in front of files that begin with a magic, the version 1 and a count.
ghost use Rattle.std.specs.Prelude.{◌≡◌, ◌<◌, ◌≤◌, ◌+◌, ◌^◌, nat_lt, ◌||◌, IfOk, IfErr};
ghost use Rattle.byteorder.specs.Endian.{big_bytes};
ghost use Rattle.ht_io.specs.Devices.{Takes, IsLater};
ghost use Rattle.ht_fields.specs.Lacking.{FailsField};
ghost use Rattle.ht_heads.specs.Starts.{StartedFails, is_outside, started_octets};

use crate::reading::magic;
use byteorder::{BigEndian, ByteOrder};
use ht_fields::{bad, fill, one_octet};
use ht_io::{InFault, Kind, Source};

/// How a file has a count: as a big-endian number of `width` octets, at least `least` and at most `most`. Any other
/// count is a fault of this kind.
#[derive(Clone, Copy, Debug, PartialEq, Eq)]
pub struct Limits {
    /// The number of octets of the count.
    pub width: usize,
    /// The least count.
    pub least: u64,
    /// The greatest count.
    pub most: u64,
    /// What kind of fault another count is.
    pub kind: Kind,
}

// Whether a count is another one than it may be.
fn is_refused(limits: &Limits, count: u64) -> bool
    ensures { result ≡ (nat_lt count limits.now.least || nat_lt limits.now.most count) }
{
    count < limits.least || limits.most < count
}

/// Reads a count of one to eight octets, big-endian, the first of them at offset `at`. It refuses one that is outside its
/// limits with their kind of fault, at `at`, and as [`fill`] does where the octets don't come whole.
pub fn count<S: Source>(source: &mut S, at: u64, limits: &Limits) -> Result<u64, InFault>
    requires some { 1 ≤ limits.now.width }
    requires few { limits.now.width ≤ 8 }
    requires offset { at + 8 < 2 ^ 64 }
    ensures whole { IfOk result (λ count. Takes (S.shown source.old) (S.shown source.new) (big_bytes limits.now.width count)) }
    ensures least { IfOk result (λ count. limits.now.least ≤ count) }
    ensures most { IfOk result (λ count. count ≤ limits.now.most) }
    ensures fits { IfOk result (λ count. count < 256 ^ limits.now.width) }
    ensures failed { IfErr result (FailsField limits.now.width limits.now.kind (is_outside limits.now) at (S.shown source.old) (S.shown source.new)) }
    ensures later { IsLater (S.shown source.old) (S.shown source.new) }
{
    let mut octets = [0u8; 8];
    let octets = &mut octets[..limits.width];
    match fill(source, at, octets) {
        Ok(()) => {
            let count = BigEndian::read_uint(octets, limits.width);
            if is_refused(limits, count) {
                Err(bad(limits.kind, at))
            } else {
                Ok(count)
            }
        }
        Err(fault) => Err(fault),
    }
}

/// Reads what stands in front of a file: the magic, the version, which is 1, and the count, which it gives.
///
/// It refuses as [`magic`] does, with `BadVersion` at 4 where the version is another one, and as [`count`] does at 5.
pub fn start<S: Source>(source: &mut S, wanted: &[u8; 4], limits: &Limits) -> Result<u64, InFault>
    requires some { 1 ≤ limits.now.width }
    requires few { limits.now.width ≤ 8 }
    ensures whole { IfOk result (λ count. Takes (S.shown source.old) (S.shown source.new) (started_octets wanted.now limits.now.width count)) }
    ensures least { IfOk result (λ count. limits.now.least ≤ count) }
    ensures most { IfOk result (λ count. count ≤ limits.now.most) }
    ensures fits { IfOk result (λ count. count < 256 ^ limits.now.width) }
    ensures failed { IfErr result (StartedFails wanted.now limits.now (S.shown source.old) (S.shown source.new)) }
    ensures later { IsLater (S.shown source.old) (S.shown source.new) }
{
    match magic(source, wanted) {
        Ok(()) => {}
        Err(fault) => return Err(fault),
    }
    match one_octet(source, 4, 1, Kind::BadVersion) {
        Ok(()) => {}
        Err(fault) => return Err(fault),
    }
    match count(source, 5, limits) {
        Ok(count) => Ok(count),
        Err(fault) => Err(fault),
    }
}

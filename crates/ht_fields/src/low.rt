//! Fields of one octet, of which none may be above a value, read many at a time.
ghost use Rattle.std.specs.Prelude.{◌≡◌, ◌<◌, ◌≤◌, ◌+◌, ◌^◌, ◌∷◌, [], length, take, IfOk, IfErr, OnOk, IsTrue};
ghost use Rattle.ht_io.specs.Devices.{Takes, IsLater};
ghost use Rattle.ht_fields.specs.Lacking.{FailsAmong, FailsField};
ghost use Rattle.ht_fields.specs.Tests.{AreLow, is_above};

use crate::fields::{bad, octet};
use ht_io::{InFault, Kind, Source};

// Whether no octet is above the last value that they may have.
fn are_low(octets: &[u8], last: u8) -> bool
    ensures { IsTrue result → AreLow last octets.now }
{
    let mut highest = 0;
    for octet in octets {
        highest = highest.max(*octet);
    }
    highest <= last
}

// How many octets come before the first that is above.
fn low_count(octets: &[u8], last: u8) -> usize
    ensures within { result ≤ length octets.now }
    ensures low { AreLow last (take result octets.now) }
{
    if are_low(octets, last) {
        return octets.len();
    }
    let mut count = 0;
    while count < octets.len() && octets[count] <= last {
        count += 1;
    }
    count
}

// Takes octets into the front of the slice, from those at hand that come before the first that is above.
fn take_low<S: Source>(source: &mut S, last: u8, into: &mut [u8]) -> usize
    ensures within { result ≤ length into.new }
    ensures taken { Takes (S.shown source.old) (S.shown source.new) (take result into.new) }
    ensures low { AreLow last (take result into.new) }
    ensures none { result ≡ 0 → source.new ≡ source.old }
    ensures later { IsLater (S.shown source.old) (S.shown source.new) }
{
    let hand = source.at_hand();
    let room = into.len().min(hand.len());
    let count = low_count(&hand[..room], last);
    if count == 0 {
        return 0;
    }
    into[..count].copy_from_slice(&hand[..count]);
    source.consume(count);
    count
}

// Reads one octet.
fn low_octet<S: Source>(source: &mut S, at: u64, last: u8, kind: Kind) -> Result<u8, InFault>
    requires offset { at + 1 < 2 ^ 64 }
    ensures whole { IfOk result (λ x. Takes (S.shown source.old) (S.shown source.new) (x ∷ [])) }
    ensures low { IfOk result (λ x. x ≤ last) }
    ensures failed { IfErr result (FailsField 1 kind (is_above last) at (S.shown source.old) (S.shown source.new)) }
    ensures later { IsLater (S.shown source.old) (S.shown source.new) }
{
    let octet = octet(source, at)?;
    if octet > last {
        Err(bad(kind, at))
    } else {
        Ok(octet)
    }
}

// Reads at least one octet into the front of the slice, and no more than are at hand.
fn low_front<S: Source>(
    source: &mut S,
    at: u64,
    last: u8,
    kind: Kind,
    into: &mut [u8],
) -> Result<usize, InFault>
    requires some { 0 < length into.old }
    requires offset { at + 1 < 2 ^ 64 }
    ensures some { IfOk result (λ count. 0 < count) }
    ensures within { IfOk result (λ count. count ≤ length into.new) }
    ensures taken { IfOk result (λ count. Takes (S.shown source.old) (S.shown source.new) (take count into.new)) }
    ensures low { IfOk result (λ count. AreLow last (take count into.new)) }
    ensures failed { IfErr result (FailsField 1 kind (is_above last) at (S.shown source.old) (S.shown source.new)) }
    ensures later { IsLater (S.shown source.old) (S.shown source.new) }
{
    let count = take_low(source, last, into);
    if count > 0 {
        return Ok(count);
    }
    into[0] = low_octet(source, at, last, kind)?;
    Ok(1)
}

/// Fills the slice with fields of one octet each, of which the first is at offset `at`. None may be above `last`: the
/// first that is above is this kind of fault, at its own offset, and is the last octet that is taken. Else it refuses as
/// [`octet`] does at the first that doesn't come.
///
/// The octets at hand are taken many at a time.
pub fn fill_low<S: Source>(
    source: &mut S,
    at: u64,
    last: u8,
    kind: Kind,
    into: &mut [u8],
) -> Result<(), InFault>
    requires offset { at + length into.old < 2 ^ 64 }
    ensures whole { OnOk result (Takes (S.shown source.old) (S.shown source.new) into.new) }
    ensures low { OnOk result (AreLow last into.new) }
    ensures failed { IfErr result (FailsAmong (length into.new) last kind at (S.shown source.old) (S.shown source.new)) }
    ensures later { IsLater (S.shown source.old) (S.shown source.new) }
{
    let mut count = 0;
    while count < into.len() {
        match low_front(source, at + count as u64, last, kind, &mut into[count..]) {
            Ok(more) => count += more,
            Err(fault) => return Err(fault),
        }
    }
    Ok(())
}

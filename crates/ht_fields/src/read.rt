//! Fields read whole from a source.
ghost use Rattle.std.specs.Prelude.{◌≡◌, ◌≤◌, ◌<◌, length, take, IfOk, IfErr, OnErr, MatchBool};
ghost use Rattle.ht_io.specs.Devices.{Rose, IsLater, Takes, TakesAll};
ghost use Rattle.ht_fields.specs.Reading.{ReadsField};

use ht_io::{Failed, Source};

/// How a field was read.
#[derive(Clone, Copy, Debug, PartialEq, Eq)]
#[must_use]
pub enum Field {
    /// All its octets came.
    Whole,
    /// The input ended before the field was whole; this is the number of its octets that came.
    Ended(usize),
    /// The source failed before the field was whole.
    Broken,
}

// Fills the whole slice from the octets at hand, where these are enough. Else nothing is taken.
fn take_at_hand<S: Source>(source: &mut S, into: &mut [u8]) -> bool
    ensures taken { MatchBool result (Takes (S.shown source.old) (S.shown source.new) into.new) (source.new ≡ source.old) }
    ensures later { IsLater (S.shown source.old) (S.shown source.new) }
{
    let hand = source.at_hand();
    let count = into.len();
    if hand.len() < count {
        return false;
    }
    into.copy_from_slice(&hand[..count]);
    source.consume(count);
    true
}

/// Reads octets into the front of the slice until it is full, the input ends or the source fails, in as many reads as
/// the source takes for it, and gives how many came. Where the slice has more, the input ended behind them.
///
/// `Err` tells how many came before the source failed.
pub fn read_front<S: Source>(source: &mut S, into: &mut [u8]) -> Result<usize, usize>
    ensures within { IfOk result (λ count. count ≤ length into.new) }
    ensures taken { IfOk result (λ count. Takes (S.shown source.old) (S.shown source.new) (take count into.new)) }
    ensures ended { IfOk result (λ count. count < length into.new → TakesAll (S.shown source.old) (S.shown source.new) (take count into.new)) }
    ensures broken { IfErr result (λ count. (count < length into.new) × Takes (S.shown source.old) (S.shown source.new) (take count into.new)) }
    ensures cause { OnErr result (Rose (S.shown source.old) (S.shown source.new)) }
    ensures later { IsLater (S.shown source.old) (S.shown source.new) }
{
    if take_at_hand(source, into) {
        return Ok(into.len());
    }
    let mut count = 0;
    while count < into.len() {
        match source.read(&mut into[count..]) {
            Ok(0) => return Ok(count),
            Ok(more) => count += more,
            Err(Failed) => return Err(count),
        }
    }
    Ok(count)
}

/// Reads one field, of as many octets as `into` has, in as many reads as the source takes for it.
/// No octet behind the field is taken.
pub fn read_field<S: Source>(source: &mut S, into: &mut [u8]) -> Field
    ensures octets { ReadsField (S.shown source.old) (S.shown source.new) result into.new }
    ensures cause { result ≡ Field.Broken → Rose (S.shown source.old) (S.shown source.new) }
    ensures later { IsLater (S.shown source.old) (S.shown source.new) }
{
    match read_front(source, into) {
        Ok(count) => {
            if count < into.len() {
                Field::Ended(count)
            } else {
                Field::Whole
            }
        }
        Err(_) => Field::Broken,
    }
}

//! Pieces of a line, each written in front of a place, from its last octet to its first: so a number comes to where its
//! digits end, and no octet is moved. Each answers where the piece begins. What stood in front of it isn't kept.
ghost use Rattle.std.specs.Prelude.{◌≡◌, ◌+◌, ◌≤◌, ◌++◌, ◌∷◌, [], decimal, drop, length, pos};
ghost use Rattle.std.specs.Prelude.{◌<ℤ◌, ◌≤ℤ◌};
ghost use Rattle.ht_text.specs.Lines.{spaced};

use itoa::{Buffer, write_digits};

/// Writes an octet.
#[inline(always)]
pub(crate) fn write_octet(into: &mut [u8], end: usize, octet: u8) -> usize
    requires room { 1 ≤ end }
    requires within { end ≤ length into.old }
    ensures start { result + 1 ≡ end }
    ensures written { drop result into.new ≡ octet ∷ drop end into.old }
{
    into[end - 1] = octet;
    end - 1
}

/// Writes a space and the number.
#[inline(always)]
pub(crate) fn write_level(into: &mut [u8], end: usize, level: i8) -> usize
    requires room { 5 ≤ end }
    requires within { end ≤ length into.old }
    ensures start { (result ≤ end) × (end ≤ result + 5) }
    ensures written { drop result into.new ≡ spaced (level ∷ []) ++ drop end into.old }
{
    let at = write_size(into, end, level.unsigned_abs());
    let sign = sign_of(level);
    // Both octets are written, so that there is no jump on the sign, which would mostly be guessed wrong.
    let second = write_octet(into, at, sign);
    let first = write_octet(into, second, b' ');
    if sign == b'-' { first } else { second }
}

// The minus of a negative number, or the space in front of another one.
#[inline(always)]
fn sign_of(level: i8) -> u8
    ensures negative { level <ℤ pos 0 → result ≡ 45 }
    ensures other { pos 0 ≤ℤ level → result ≡ 32 }
{
    if level < 0 { b'-' } else { b' ' }
}

// Writes the digits of a level without its sign, mostly one.
#[inline(always)]
fn write_size(into: &mut [u8], end: usize, size: u8) -> usize
    requires room { 3 ≤ end }
    requires within { end ≤ length into.old }
    ensures start { (result ≤ end) × (end ≤ result + 3) }
    ensures written { drop result into.new ≡ decimal size ++ drop end into.old }
{
    if size > 9 {
        return write_digits(u64::from(size), into, end);
    }
    write_octet(into, end, b'0' + size)
}

/// Writes the digits of a distance, which mostly fits 64 bits.
#[inline(always)]
pub(crate) fn write_distance(into: &mut [u8], end: usize, distance: u128) -> usize
    requires room { 39 ≤ end }
    requires within { end ≤ length into.old }
    ensures start { (result ≤ end) × (end ≤ result + 39) }
    ensures written { drop result into.new ≡ decimal distance ++ drop end into.old }
{
    if distance > u128::from(u64::MAX) {
        return write_wide(into, end, distance);
    }
    write_digits(distance as u64, into, end)
}

// Writes the digits of any number.
#[cold]
#[inline(never)]
fn write_wide(into: &mut [u8], end: usize, number: u128) -> usize
    requires room { 39 ≤ end }
    requires within { end ≤ length into.old }
    ensures start { (result ≤ end) × (end ≤ result + 39) }
    ensures written { drop result into.new ≡ decimal number ++ drop end into.old }
{
    let mut buffer = Buffer::new();
    let digits = buffer.format(number).as_bytes();
    let start = end - digits.len();
    into[start..end].copy_from_slice(digits);
    start
}

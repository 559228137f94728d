//! The text of a subcarrier's number.
ghost use Rattle.std.specs.Prelude.{◌≡◌, ◌+◌, ◌≤◌, ◌++◌, ◌∷◌, [], decimal, drop, length};

use crate::pieces::write_octet;
use itoa::write_digits;

/// How many octets are copied.
const WIDTH: usize = 4;

/// A subcarrier's number in a job's line and the space behind it, which are made once and copied into many lines.
#[derive(Clone, Copy, Drop)]
pub(crate) struct CarrierText {
    /// The subcarrier.
    pub(crate) carrier: u8,
    // The text, behind octets that are no part of it.
    octets: [u8; WIDTH],
    // Where the text begins.
    start: usize,
    ghost within: { start ≤ 4 },
    ghost is: { drop start octets ≡ decimal carrier ++ 32 ∷ [] },
}

impl CarrierText {
    /// The text of a subcarrier's number.
    pub(crate) fn of(carrier: u8) -> CarrierText
        ensures { result.carrier ≡ carrier }
    {
        let mut octets = [b' '; WIDTH];
        let at = write_octet(&mut octets, WIDTH, b' ');
        let start = write_digits(u64::from(carrier), &mut octets, at);
        CarrierText {
            carrier,
            octets,
            start,
        }
    }

    /// Writes it in front of `end`, and answers where it begins. What stood in front of it isn't kept.
    #[inline(always)]
    pub(crate) fn write(&self, into: &mut [u8], end: usize) -> usize
        requires room { 4 ≤ end }
        requires within { end ≤ length into.old }
        ensures start { (result ≤ end) × (end ≤ result + 4) }
        ensures written { drop result into.new ≡ decimal self.now.carrier ++ 32 ∷ drop end into.old }
    {
        // All octets are copied, so that their number is known.
        into[end - WIDTH..end].copy_from_slice(&self.octets);
        end - WIDTH + self.start
    }
}

//! What the lines of a symbol's jobs begin with.
ghost use Rattle.std.specs.Prelude.{◌≡◌, ◌+◌, ◌≤◌, ◌++◌, drop, length};
ghost use Rattle.ht_results.specs.JobTexts.{front_of};

use crate::pieces::write_octet;
use ht_metric::Place;
use itoa::write_digits;

/// The most octets of a front.
const FRONT: usize = 21;

/// `job FRAME SYMBOL `, which is made once for the lines of a symbol's jobs.
#[derive(Drop)]
pub(crate) struct LineStart {
    frame: u16,
    symbol: u32,
    // The front, behind octets that are no part of it.
    octets: [u8; FRONT],
    // Where it begins.
    start: usize,
    ghost within: { start ≤ 21 },
    ghost is: { drop start octets ≡ front_of frame symbol },
}

impl LineStart {
    /// The front of the lines of a frame's symbol.
    pub(crate) fn of(frame: u16, symbol: u32) -> LineStart
        ensures frame { result.frame ≡ frame }
        ensures symbol { result.symbol ≡ symbol }
    {
        let mut octets = [b' '; FRONT];
        let at = write_digits(u64::from(symbol), &mut octets, FRONT - 1);
        let at = write_octet(&mut octets, at, b' ');
        let at = write_digits(u64::from(frame), &mut octets, at);
        let at = write_octet(&mut octets, at, b' ');
        let at = write_octet(&mut octets, at, b'b');
        let at = write_octet(&mut octets, at, b'o');
        let start = write_octet(&mut octets, at, b'j');
        LineStart {
            frame,
            symbol,
            octets,
            start,
        }
    }

    /// Becomes the front of the line of a job from this place, where it isn't yet.
    #[inline(always)]
    pub(crate) fn turn_to(&mut self, place: Place)
        ensures frame { self.new.frame ≡ place.frame }
        ensures symbol { self.new.symbol ≡ place.symbol }
    {
        if self.frame != place.frame || self.symbol != place.symbol {
            *self = LineStart::of(place.frame, place.symbol);
        }
    }

    /// Writes it in front of `end`, and answers where it begins. What stood in front of it isn't kept.
    #[inline(always)]
    pub(crate) fn write(&self, into: &mut [u8], end: usize) -> usize
        requires room { 21 ≤ end }
        requires within { end ≤ length into.old }
        ensures start { (result ≤ end) × (end ≤ result + 21) }
        ensures written { drop result into.new ≡ front_of self.now.frame self.now.symbol ++ drop end into.old }
    {
        // All octets are copied, so that their number is known.
        into[end - FRONT..end].copy_from_slice(&self.octets);
        end - FRONT + self.start
    }
}

//! The text of a point.
ghost use Rattle.std.specs.Prelude.{◌≡◌, ◌+◌, ◌≤◌, ◌++◌, ◌∷◌, [], drop, length};
ghost use Rattle.ht_text.specs.Lines.{spaced};
ghost use Rattle.ht_results.specs.JobTexts.{levels_of};

use crate::pieces::write_level;
use ht_pam::Point;

/// How many octets are copied.
const WIDTH: usize = 16;

/// The text of a point in a job's line, ` I Q`, which is made once and copied into many lines.
#[derive(Clone, Copy, Drop)]
pub(crate) struct PointText {
    /// The point.
    pub(crate) point: Point,
    // Its text, behind octets that are no part of it.
    octets: [u8; WIDTH],
    // Where the text begins.
    start: usize,
    ghost short: { 6 ≤ start },
    ghost within: { start ≤ 16 },
    ghost is: { drop start octets ≡ spaced (point.i ∷ point.q ∷ []) },
}

impl PointText {
    /// The text of a point.
    pub(crate) fn of(point: Point) -> PointText
        ensures { result.point ≡ point }
    {
        let mut octets = [b' '; WIDTH];
        let at = write_level(&mut octets, WIDTH, point.q);
        let start = write_level(&mut octets, at, point.i);
        PointText {
            point,
            octets,
            start,
        }
    }

    /// Writes it in front of `end`, and answers where it begins. What stood in front of it isn't kept.
    #[inline(always)]
    pub(crate) fn write(&self, into: &mut [u8], end: usize) -> usize
        requires room { 16 ≤ end }
        requires within { end ≤ length into.old }
        ensures start { (result ≤ end) × (end ≤ result + 10) }
        ensures written { drop result into.new ≡ spaced (levels_of (self.now.point ∷ [])) ++ drop end into.old }
    {
        // All octets are copied, so that their number is known.
        into[end - WIDTH..end].copy_from_slice(&self.octets);
        end - WIDTH + self.start
    }
}

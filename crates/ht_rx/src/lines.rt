//! The line of a job that was detected.
ghost use Rattle.std.specs.Prelude.{◌≡◌, ◌+◌, ◌≤◌, ◌++◌, drop, length};
ghost use Rattle.ht_text.specs.Lines.{spaced};
ghost use Rattle.ht_results.specs.JobTexts.{levels_of, line_at};

use crate::line_start::LineStart;
use crate::pieces::{write_distance, write_level, write_octet};
use ht_metric::{Found, Place, Vector};
use itoa::write_digits;

/// The most octets of a line.
pub(crate) const LINE: usize = 105;

/// Writes the line of a job from this place, of which this was found, in front of `end`, and answers where it begins. What
/// stood in front of it isn't kept. `front` turns to the job's symbol.
#[inline(always)]
#[tactic(auto, unfolding(ht_text::specs::Lines::job_text))]
pub(crate) fn write_line(
    into: &mut [u8],
    end: usize,
    front: &mut LineStart,
    place: Place,
    found: &Found,
) -> usize
    requires room { LINE ≤ end }
    requires within { end ≤ length into.old }
    ensures start { (result ≤ end) × (end ≤ result + LINE) }
    ensures written { drop result into.new ≡ line_at place found.now ++ drop end into.old }
{
    let at = write_octet(into, end, b'\n');
    let at = write_levels(into, at, &found.vector);
    let at = write_distance(into, at, found.distance);
    let at = write_octet(into, at, b' ');
    let at = write_digits(u64::from(place.carrier), into, at);
    front.turn_to(place);
    front.write(into, at)
}

// Writes a space and the number for each number of the vector: I and Q of each point in turn.
#[inline(always)]
fn write_levels(into: &mut [u8], end: usize, vector: &Vector) -> usize
    requires room { 40 ≤ end }
    requires within { end ≤ length into.old }
    ensures start { (result ≤ end) × (end ≤ result + 40) }
    ensures written { drop result into.new ≡ spaced (levels_of vector.now) ++ drop end into.old }
{
    let mut at = end;
    let mut left = vector.len();
    while left > 0 {
        let point = vector.point(left);
        at = write_level(into, at, point.q);
        at = write_level(into, at, point.i);
        left -= 1;
    }
    at
}

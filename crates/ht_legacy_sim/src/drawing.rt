//! The channel of a subcarrier, and what is received through it.
ghost use Rattle.std.specs.Prelude.{◌≡◌, ◌+◌, ◌*◌, ◌<◌, ◌≤◌, ◌^◌, unsigned_abs, length, flat_map};
ghost use Rattle.ht_metric.specs.Distance.{received, scaled};
ghost use Rattle.ht_capture.specs.Files.{sample_octets};
ghost use Rattle.ht_clause18.specs.Carriers.{carriers};
ghost use Rattle.ht_sim.specs.Channel.{sample_drawn};
ghost use Rattle.ht_sim.specs.Draws.{drawn, each, several};
ghost use Rattle.ht_legacy_sim.specs.Drawing.{diagonal_drawn, exact_from};

use arrayvec::ArrayVec;
use ht_capture::numbers;
use ht_fields::Chunk;
use ht_metric::Sample;
use ht_pam::Point;
use ht_sim::{Words, stretched};

/// The number of subcarriers of a symbol.
const CARRIERS: usize = 52;

/// Draws the diagonals of a frame, the lowest subcarrier's first.
pub fn diagonals(words: &mut Words) -> ArrayVec<u16, 52>
    ensures value { drawn result.items words.new ≡ several diagonal_drawn carriers words.old }
    ensures count { length result.items ≡ carriers }
{
    let mut diagonals = ArrayVec::new();
    for _carrier in 0..CARRIERS {
        diagonals.push(words.diagonal());
    }
    diagonals
}

// What a subcarrier makes of a point, without noise.
fn exact(diagonal: u16, point: Point) -> Sample
    ensures value { received result ≡ scaled diagonal point }
    ensures re_bound { unsigned_abs result.re ≤ 2 ^ 25 }
    ensures im_bound { unsigned_abs result.im ≤ 2 ^ 25 }
{
    Sample {
        re: stretched(diagonal, point.i),
        im: stretched(diagonal, point.q),
    }
}

/// Fills the chunk with the samples of points, the first of which has this place among the points of its frame.
pub fn fill(
    words: &mut Words,
    noise: u16,
    diagonals: &[u16],
    first: usize,
    points: &[Point],
    chunk: &mut Chunk,
)
    requires diagonals { length diagonals.now ≡ carriers }
    requires few { length points.now ≤ 512 }
    requires places { first + length points.now < 2 ^ 63 }
    ensures samples { chunk.new ≡ flat_map sample_octets (each (sample_drawn noise) (exact_from diagonals.now first points.now) words.old).value }
    ensures words { words.new ≡ (each (sample_drawn noise) (exact_from diagonals.now first points.now) words.old).state }
{
    chunk.clear();
    let mut place = first;
    for point in points {
        let diagonal = diagonals[place % CARRIERS];
        numbers::add_sample(chunk, words.sample(noise, exact(diagonal, *point)));
        place += 1;
    }
}

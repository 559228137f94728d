//! From points to levels.
ghost use Rattle.std.specs.Prelude.{◌≡◌, ◌*◌, length, take};
ghost use Rattle.ht_metric.specs.Vectors.{levels_of};

use ht_metric::Vector;

// The levels I_1, Q_1, I_2 and so on of a vector, in the first places.
pub(crate) fn levels_of(vector: &Vector) -> [i8; 8]
    ensures levels { take (2 * length vector.now) result ≡ levels_of vector.now }
    ensures places { length result ≡ 8 }
{
    let mut levels = [0i8; 8];
    for k in 0..vector.len() {
        let point = vector.point(k + 1);
        let at = 2 * usize::from(k);
        levels[at] = point.i;
        levels[at + 1] = point.q;
    }
    levels
}

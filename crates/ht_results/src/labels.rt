//! Labels of a frame, by their places.
ghost use Rattle.std.specs.Prelude.{◌≡◌, ◌↔◌, IsTrue, set};
ghost use Rattle.ht_results.specs.Folding.{label_at};

use ht_map::label;
use ht_pam::Point;
use ht_rate::Modulation;

/// The label of a point of the constellation (IEEE Std 802.11-2012, clause 20.3.11.9), as a number with its first bit as the
/// most significant one; 0 for a point that isn't on it.
#[inline]
pub fn label_for(modulation: Modulation, point: Point) -> u8
    ensures { result ≡ label_at modulation point }
{
    label(modulation, point).unwrap_or(0)
}

/// Puts a label, or what else is kept of a job, on the place `at`. A place behind the last one is passed over.
#[inline]
#[tactic(auto, using(std::proofs::lemmas::List::set_past))]
pub fn put_kept<T: Copy>(kept: &mut [T], at: usize, value: T)
    ensures { kept.new ≡ set kept.old at value }
{
    if at < kept.len() {
        kept[at] = value;
    }
}

/// Whether both have the same labels, as `==` says too.
pub fn same_labels(labels: &[u8], other: &[u8]) -> bool
    ensures { IsTrue result ↔ (labels.now ≡ other.now) }
{
    labels == other
}

//! What holds of labels and points, whatever the code.
ghost use Rattle.std.specs.Prelude.{◌≡◌, ◌<◌, ◌^◌, ◌&&◌, Some, is_some};
ghost use Rattle.ht_pam.specs.Ladders.{has};
ghost use Rattle.ht_rate.specs.Schemes.{bits_of};
ghost use Rattle.ht_map.specs.Constellation.{axes_of};
ghost use Rattle.ht_map.specs.Gray.{label_of, point_of};

use ht_pam::Point;
use ht_rate::Modulation;

/// The label of a label's point is the label.
#[tactic(auto, using(crate::proofs::LabelFacts::back_and_forth))]
pub fn label_of_its_point(modulation: Modulation, label: u8)
    requires { label < 2 ^ bits_of modulation }
    ensures { label_of modulation (point_of modulation label) ≡ Some label }
{}

/// The point of a point's label is the point, and the label has N_BPSCS bits.
#[tactic(auto, using(crate::proofs::LabelFacts::back_and_forth))]
pub fn point_of_its_label(modulation: Modulation, point: Point, label: u8)
    requires { label_of modulation point ≡ Some label }
    ensures below { label < 2 ^ bits_of modulation }
    ensures point { point_of modulation label ≡ point }
{}

/// A point has a label exactly where I and Q are levels of the constellation's ladders.
#[tactic(auto, using(crate::proofs::LabelFacts::back_and_forth))]
pub fn label_of_a_grid_point(modulation: Modulation, point: Point)
    ensures { is_some (label_of modulation point)
        ≡ (has (axes_of modulation).i point.i && has (axes_of modulation).q point.q) }
{}

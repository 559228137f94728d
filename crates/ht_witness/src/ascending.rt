//! The levels of a ladder, the lowest one first.
ghost use Rattle.std.specs.Prelude.{◌≡◌, ◌<◌, ◌≤◌, [], ◌∷◌, IfSome, unsigned_abs};
ghost use Rattle.std.specs.Option.{MatchOption};
ghost use Rattle.ht_pam.specs.Ladders.{levels};

use ht_pam::{Ladder, Steps, Zigzag};
use std::marker::Brand;
use std::sync::ledger::{Blank, Ledger};

// The allowed levels of a ladder. With a diagonal of 0 all are as near, and come in ascending order.
pub(crate) fn ascending(ladder: Ladder) -> Zigzag
    ensures { result ≡ levels ladder }
{
    Zigzag::new(ladder, 0, 0)
}

// The next level, or `None` where all were given.
pub(crate) fn next(walk: &mut Zigzag) -> Option<i8>
    ensures next { MatchOption result ((walk.old ≡ []) × (walk.new ≡ [])) (λ x. walk.old ≡ x ∷ walk.new) }
    ensures level { IfSome result (λ x. unsigned_abs x ≤ 7) }
{
    step::<Brand>(walk, Blank::new(1))
}

// The same, with a counter of its own for its one step.
fn step<L: Ledger>(walk: &mut Zigzag, blank: Blank) -> Option<i8>
    requires name { blank.name ≡ L.name }
    requires parts { blank.parts ≡ L.parts }
    requires some { 0 < blank.parts }
    ensures next { MatchOption result ((walk.old ≡ []) × (walk.new ≡ [])) (λ x. walk.old ≡ x ∷ walk.new) }
    ensures level { IfSome result (λ x. unsigned_abs x ≤ 7) }
{
    walk.next(&mut Steps::<L>::new(blank))
}

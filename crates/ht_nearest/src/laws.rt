//! What follows from the definitions, for every kind of value. None of these functions does anything.
ghost use Rattle.std.specs.Prelude.{◌≡◌, ℕ, List, Bool, Some};
ghost use Rattle.ht_nearest.specs.Nearest.{IsFirstNearest, IsOrder, Enumerates, first_nearest};

/// The answer over a list of all members is first nearest.
pub fn found<X>()
    ensures { (is_member : X → Bool) (cost : X → ℕ) (before : X → X → Bool) (candidates : List X) (x : X)
        → IsOrder is_member before → Enumerates is_member candidates
        → first_nearest cost before candidates ≡ Some x → IsFirstNearest is_member cost before x }
{}

/// There is at most one first nearest member.
pub fn unique<X>()
    ensures { (is_member : X → Bool) (cost : X → ℕ) (before : X → X → Bool) (x y : X)
        → IsOrder is_member before → IsFirstNearest is_member cost before x
        → IsFirstNearest is_member cost before y → x ≡ y }
{}

/// A first nearest member is the answer over every list of all members.
pub fn finds<X>()
    ensures { (is_member : X → Bool) (cost : X → ℕ) (before : X → X → Bool) (candidates : List X) (x : X)
        → IsOrder is_member before → Enumerates is_member candidates
        → IsFirstNearest is_member cost before x → first_nearest cost before candidates ≡ Some x }
{}

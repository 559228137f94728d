//! The two coordinates of one stream.
ghost use Rattle.std.specs.Prelude.{◌≡◌, IsTrue, ◌↔◌};

use crate::ladder::Ladder;

/// The ladders of one spatial stream's points: I is on one, Q on the other.
#[derive(Clone, Copy, Debug, PartialEq, Eq)]
pub struct Axes {
    /// The levels of I, the real part.
    pub i: Ladder,
    /// The levels of Q, the imaginary part.
    pub q: Ladder,
}

impl Axes {
    // Whether both have the same ladders.
    pub(crate) fn same(&self, other: &Axes) -> bool
        ensures { IsTrue result ↔ (self.now ≡ other.now) }
    {
        self.i.same(&other.i) & self.q.same(&other.q)
    }
}

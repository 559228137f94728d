//! A received sample.
ghost use Rattle.std.specs.Prelude.{◌≡◌, IsTrue, ◌↔◌};

/// What was received on one row of a system.
#[repr(C)]
#[derive(Clone, Copy, Debug, Default, PartialEq, Eq)]
pub struct Sample {
    /// The real part.
    pub re: i32,
    /// The imaginary part.
    pub im: i32,
}

impl Sample {
    // Whether both samples have the same parts.
    pub(crate) fn same(&self, other: &Sample) -> bool
        ensures { IsTrue result ↔ (self.now ≡ other.now) }
    {
        (self.re == other.re) & (self.im == other.im)
    }
}

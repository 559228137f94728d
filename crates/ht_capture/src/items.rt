//! What a capture holds, as a reader gives it.
ghost use Rattle.std.specs.Prelude.{◌≡◌, ◌↔◌, IsTrue};

use ht_metric::Job;
use ht_rate::Rate;

/// The head of a frame.
#[derive(Clone, Copy, Debug, PartialEq, Eq)]
pub struct FrameHead {
    /// The frame's number in the capture, counted from 0.
    pub frame: u16,
    /// Its bandwidth and MCS.
    pub rate: Rate,
    /// The octets of its PSDU, 1 to 65535.
    pub length: u16,
    /// Bit c is set exactly where subcarrier c is erased, subcarrier 0 being the lowest. 0 in version 1.
    pub erased: u128,
}

impl FrameHead {
    // Whether both heads are the same, as `==` says too.
    pub(crate) fn same(&self, other: &FrameHead) -> bool
        ensures { IsTrue result ↔ (self.now ≡ other.now) }
    {
        *self == *other
    }
}

/// What a reader gives.
#[derive(Debug, Drop)]
pub enum Item {
    /// A frame begins: its triangles were read whole.
    Frame(FrameHead),
    /// A job of the frame that began last. The samples of its symbol were read whole.
    Job(Job),
    /// The capture is whole, and the input ended behind it.
    Done,
}

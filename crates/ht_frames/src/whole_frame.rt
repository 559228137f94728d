//! A frame whose last job came.
ghost use Rattle.std.specs.Prelude.{◌≡◌, ℕ, IfOk, IsTrue};

use std::alloc::{AllocError, Global};

/// A frame whose last job came, so that it can be decoded.
pub trait WholeFrame {
    /// What it comes to.
    type Result: Drop;

    /// What decodes frames, one after another, and keeps memory and tables from one to the next.
    type Decoder: Drop;

    /// The result of a frame.
    ghost result_of: { Self → Self.Result };

    /// The number of a frame's octets.
    ghost length_of: { Self → ℕ };

    /// The number of its octets. By this it is judged whether its decoding is worth the way to a worker.
    fn octets(&self) -> u16
        ensures { result ≡ length_of self.now };

    /// A decoder that has seen no frame. It takes no memory.
    fn decoder(alloc: Global) -> Self::Decoder;

    /// What it comes to, decoded in this thread. The only error is lack of memory.
    fn decode(&self, alloc: Global, decoder: &mut Self::Decoder) -> Result<Self::Result, AllocError>
        ensures { IfOk result (λ r. r ≡ result_of self.now) };

    /// `true` only where both come to the same. A frame that comes back from a worker and for which this is false counts as
    /// lost.
    fn same(&self, other: &Self) -> bool
        ensures { IsTrue result → result_of self.now ≡ result_of other.now };
}

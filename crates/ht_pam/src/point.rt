//! A point of a constellation.

/// A point of a constellation on the whole-number grid: I is the real part and Q the imaginary one.
///
/// The points of 64-QAM have both parts among -7, -5, -3, -1, 1, 3, 5 and 7. In BPSK Q is 0.
/// Points are ordered by I, and those of the same I by Q.
#[repr(C)]
#[derive(Clone, Copy, Debug, Default, PartialEq, Eq, PartialOrd, Ord, Drop)]
pub struct Point {
    /// The real part.
    pub i: i8,
    /// The imaginary part.
    pub q: i8,
}

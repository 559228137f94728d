//! A complex number.

/// A complex number with whole parts, such as an entry times a point.
#[derive(Clone, Copy, Debug, Default, PartialEq, Eq)]
pub struct Complex {
    /// The real part.
    pub re: i64,
    /// The imaginary part.
    pub im: i64,
}

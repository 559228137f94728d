//! Where the labels of a symbol have a coded bit.

/// Where the labels of a symbol have a coded bit.
#[derive(Clone, Copy, Debug)]
pub(crate) struct LabelPlace {
    // The data subcarrier, 0 to 47.
    pub(crate) carrier: u8,
    // The label in which this bit alone is 1.
    pub(crate) mask: u8,
}

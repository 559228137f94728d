//! Where a symbol's labels have a coded bit.

/// Where the labels of a symbol have a coded bit.
#[derive(Clone, Copy, Debug)]
pub(crate) struct LabelBit {
    // The label among those of the symbol.
    pub(crate) label: u16,
    // The number of bits of the label that stand behind it.
    pub(crate) shift: u8,
    // The label in which this bit alone is 1.
    pub(crate) mask: u8,
    // The subcarrier is erased.
    pub(crate) lost: bool,
}

//! Where a job comes from.

/// The place of a job in a capture: its frame, OFDM symbol and subcarrier, each counted from 0.
#[derive(Clone, Copy, Debug, Default, PartialEq, Eq)]
pub struct Place {
    /// The frame in the capture.
    pub frame: u16,
    /// The OFDM symbol in the frame.
    pub symbol: u32,
    /// The subcarrier in the symbol, the lowest frequency first, pilots among them.
    pub carrier: u8,
}

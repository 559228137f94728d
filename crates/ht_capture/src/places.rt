//! Where in a capture a reader stands.
use crate::items::FrameHead;
use ht_metric::Triangle;

/// How many frames are still due, and the numbers of the next frame and the next job.
#[derive(Clone, Copy, Debug)]
pub struct Turn {
    /// The version of the capture, 1 or 2.
    pub version: u8,
    /// The number of frames that are due, the next one among them.
    pub left: u16,
    /// The number of the next frame.
    pub frame: u16,
    /// The number of the next job.
    pub number: u64,
}

/// The symbol that is due.
#[derive(Clone, Copy, Debug)]
pub struct SymbolTurn {
    /// The frames that are due, the symbol's own among them, and the number of its first job.
    pub turn: Turn,
    /// The head of its frame.
    pub head: FrameHead,
    /// The number of the symbol in its frame, counted from 0.
    pub symbol: u32,
    /// The number of symbols of the frame.
    pub symbols: u32,
    /// The number of subcarriers that are present.
    pub count: usize,
}

/// A subcarrier that is present, with its triangle.
#[derive(Clone, Copy, Debug)]
pub struct Present {
    /// Its number among the subcarriers of its frame, counted from 0.
    pub carrier: u8,
    /// The channel on it.
    pub triangle: Triangle,
}

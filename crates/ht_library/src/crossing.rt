//! What crosses to C and back. The parts of these structs have the layout of C too.
use ht_metric::{Sample, Tap};
use ht_pam::Point;

/// The triangular channel of a subcarrier, in 32 octets: the diagonal, and the entries above it row by row, those of the
/// streams that a rate has at the front. What is behind them counts for nothing.
#[repr(C)]
#[derive(Clone, Copy)]
pub struct MizgaureChannel {
    pub diagonal: [u16; 4],
    pub above: [Tap; 6],
}

/// What was received on the rows of a subcarrier's channel, in 32 octets. Rows that a rate doesn't have count for nothing.
#[repr(C)]
#[derive(Clone, Copy)]
pub struct MizgaureReceived {
    pub samples: [Sample; 4],
}

/// What was found for a subcarrier, in 24 octets: a point for each stream, and the squared distance `low + 2^64 * high`.
#[repr(C)]
#[derive(Clone, Copy)]
pub struct MizgaureHit {
    pub points: [Point; 4],
    pub low: u64,
    pub high: u64,
}

/// The sum of the squared distances of a symbol's data subcarriers, in 16 octets: it is `low + 2^64 * high`.
#[repr(C)]
#[derive(Clone, Copy)]
pub struct MizgaureDistance {
    pub low: u64,
    pub high: u64,
}

/// Where an input is refused, in 16 octets: the offset of the field at fault, or the input's length where it ends early, and
/// the number of the fault's kind.
#[repr(C)]
#[derive(Clone, Copy)]
pub struct MizgaureRefusal {
    pub offset: u64,
    pub kind: u32,
}

/// A cost, which is `low + 2^64 * high`.
#[repr(C)]
#[derive(Clone, Copy)]
pub struct MizgaureCost {
    pub low: u64,
    pub high: u64,
}

/// What is wrong with a certificate, in 24 octets: the number that goes with it, which is `low + 2^64 * high`, and the number of
/// its kind.
#[repr(C)]
#[derive(Clone, Copy)]
pub struct MizgaureFlaw {
    pub low: u64,
    pub high: u64,
    pub kind: u32,
}

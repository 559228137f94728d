//! What a frame comes to.
ghost use Rattle.std.specs.Prelude.{◌≡◌};

use ht_inverse::{Decoded, Outcome};

/// The result of a frame that was received whole.
#[derive(Debug, Drop)]
pub struct FrameResult {
    /// The frame's number in the capture, counted from 0.
    pub frame: u16,
    /// The sum of the squared distances of the nearest vectors, over the jobs on data subcarriers.
    pub data_sum: u128,
    /// The same sum over the jobs on pilot subcarriers.
    pub pilot_sum: u128,
    /// At how many places that aren't erased the coded bits of what was decoded differ from the detected bits, in the
    /// codewords of all encoders together.
    pub code: u32,
    /// The octets of the frame, or that its seed would be zero.
    pub outcome: Outcome,
}

impl FrameResult {
    /// The result of a frame: its number in the capture, counted from 0, the sums of the squared distances over its data jobs
    /// and over its pilot jobs, and what its labels are decoded to.
    pub fn of(frame: u16, data_sum: u128, pilot_sum: u128, decoded: Decoded) -> FrameResult
        ensures { result ≡ record { frame = frame; data_sum = data_sum; pilot_sum = pilot_sum; code = decoded.code; outcome = decoded.outcome } }
    {
        FrameResult {
            frame,
            data_sum,
            pilot_sum,
            code: decoded.code,
            outcome: decoded.outcome,
        }
    }
}

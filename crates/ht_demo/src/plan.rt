//! What a demonstration is to do.
use ht_rate::Rate;

/// Which frames are sampled, and what they are sent through.
#[derive(Clone, Copy, Debug, PartialEq, Eq)]
pub struct Plan {
    /// The seed of two random generators: that of the frames and that of the channel.
    pub seed: u64,
    /// The most noise in each part of a sample, to either side.
    pub noise: u16,
    /// The number of frames.
    pub frames: u16,
    /// Their bandwidth and MCS.
    pub rate: Rate,
    /// The number of octets of each frame, 1 to 65535.
    pub length: u16,
}

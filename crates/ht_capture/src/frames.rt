//! The frames of a capture, as values.
use ht_list::List;
use ht_metric::{Sample, Triangle};
use ht_rate::Rate;

/// The triangles of a frame: one for each subcarrier that is present, the lowest subcarrier's first.
pub type Triangles = List<Triangle>;

/// The samples of a frame: for each symbol and each subcarrier that is present one for each row of the triangle, as
/// they stand in a file.
pub type Samples = List<Sample>;

/// A frame of a capture: the channel and the received vectors of its subcarriers.
#[derive(Debug, Drop)]
pub struct CaptureFrame {
    /// The frame's bandwidth and MCS.
    pub rate: Rate,
    /// The octets of its PSDU, 1 to 65535.
    pub length: u16,
    /// Bit c is set exactly where subcarrier c is erased, subcarrier 0 being the lowest. 0 in version 1.
    pub erased: u128,
    /// The channel of each subcarrier that is present.
    pub triangles: Triangles,
    /// What was received on them, symbol by symbol.
    pub samples: Samples,
}

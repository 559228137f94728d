//! What an MCS index is made of: a number of spatial streams and a scheme of modulation and coding.
ghost use Rattle.std.specs.Prelude.{◌≡◌, ◌≤◌};
ghost use Rattle.ht_rate.specs.Schemes.{count_of};
ghost use Rattle.ht_rate.specs.Schemes.{scheme_modulation, scheme_pattern};

use crate::kinds::{Modulation, Pattern};

/// The number of spatial streams, N_SS.
#[derive(Clone, Copy, Debug, PartialEq, Eq)]
pub enum Streams {
    /// One.
    One,
    /// Two.
    Two,
    /// Three.
    Three,
    /// Four.
    Four,
}

// The numbers of streams, by the whole eights in the MCS index.
pub(crate) static STREAMS: [Streams; 4] = [
    Streams::One,
    Streams::Two,
    Streams::Three,
    Streams::Four,
];

impl Streams {
    /// The number of spatial streams, 1 to 4.
    pub fn count(self) -> u8
        ensures value { result ≡ count_of self }
        ensures low { 1 ≤ result }
        ensures high { result ≤ 4 }
    {
        self as u8 + 1
    }
}

/// Modulation and coding rate together: the eight rows that repeat for each number of spatial streams.
#[derive(Clone, Copy, Debug, PartialEq, Eq)]
pub enum Scheme {
    /// BPSK, rate 1/2.
    BpskHalf,
    /// QPSK, rate 1/2.
    QpskHalf,
    /// QPSK, rate 3/4.
    QpskThreeQuarters,
    /// 16-QAM, rate 1/2.
    Qam16Half,
    /// 16-QAM, rate 3/4.
    Qam16ThreeQuarters,
    /// 64-QAM, rate 2/3.
    Qam64TwoThirds,
    /// 64-QAM, rate 3/4.
    Qam64ThreeQuarters,
    /// 64-QAM, rate 5/6.
    Qam64FiveSixths,
}

// The schemes, by the MCS index modulo 8.
pub(crate) static SCHEMES: [Scheme; 8] = [
    Scheme::BpskHalf,
    Scheme::QpskHalf,
    Scheme::QpskThreeQuarters,
    Scheme::Qam16Half,
    Scheme::Qam16ThreeQuarters,
    Scheme::Qam64TwoThirds,
    Scheme::Qam64ThreeQuarters,
    Scheme::Qam64FiveSixths,
];

impl Scheme {
    /// The modulation.
    pub fn modulation(self) -> Modulation
        ensures { result ≡ scheme_modulation self }
    {
        match self {
            Scheme::BpskHalf => Modulation::Bpsk,
            Scheme::QpskHalf | Scheme::QpskThreeQuarters => Modulation::Qpsk,
            Scheme::Qam16Half | Scheme::Qam16ThreeQuarters => Modulation::Qam16,
            Scheme::Qam64TwoThirds | Scheme::Qam64ThreeQuarters | Scheme::Qam64FiveSixths =>
                Modulation::Qam64,
        }
    }

    /// The puncturing pattern, by the coding rate that it leaves.
    pub fn pattern(self) -> Pattern
        ensures { result ≡ scheme_pattern self }
    {
        match self {
            Scheme::BpskHalf | Scheme::QpskHalf | Scheme::Qam16Half => Pattern::Half,
            Scheme::Qam64TwoThirds => Pattern::TwoThirds,
            Scheme::QpskThreeQuarters | Scheme::Qam16ThreeQuarters | Scheme::Qam64ThreeQuarters =>
                Pattern::ThreeQuarters,
            Scheme::Qam64FiveSixths => Pattern::FiveSixths,
        }
    }
}

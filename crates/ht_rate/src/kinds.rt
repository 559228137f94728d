//! The words of the rate table.
ghost use Rattle.std.specs.Prelude.{◌≡◌, ◌<◌, ◌≤◌};
ghost use Rattle.ht_rate.specs.Schemes.{
  bits_of,
  numerator_of,
  denominator_of,
  bandwidth_at,
  data_count,
  pilot_count,
  encoder_count,
};

/// The width of the channel (clause 20.3.2).
#[derive(Clone, Copy, Debug, PartialEq, Eq)]
pub enum Bandwidth {
    /// 20 MHz: 56 subcarriers.
    Mhz20,
    /// 40 MHz: 114 subcarriers.
    Mhz40,
}

impl Bandwidth {
    // The bandwidth of a code: 0 is 20 MHz, 1 is 40 MHz.
    pub(crate) fn at(code: u8) -> Bandwidth
        requires { code < 2 }
        ensures { result ≡ bandwidth_at code }
    {
        if code == 0 {
            Bandwidth::Mhz20
        } else {
            Bandwidth::Mhz40
        }
    }

    // The numbers of data and of pilot subcarriers.
    pub(crate) fn subcarriers(self) -> (u8, u8)
        ensures data_carriers { result.0 ≡ data_count self }
        ensures pilots { result.1 ≡ pilot_count self }
        ensures low { (52 ≤ result.0) × (4 ≤ result.1) }
        ensures high { (result.0 ≤ 108) × (result.1 ≤ 6) }
    {
        match self {
            Bandwidth::Mhz20 => (52, 4),
            Bandwidth::Mhz40 => (108, 6),
        }
    }

    // The encoders at an MCS index.
    pub(crate) fn encoders(self, mcs: u8) -> u8
        ensures value { result ≡ encoder_count self mcs }
        ensures low { 1 ≤ result }
        ensures high { result ≤ 2 }
    {
        match (self, mcs) {
            (Bandwidth::Mhz40, 21 | 22 | 23 | 28 | 29 | 30 | 31) => 2,
            _ => 1,
        }
    }
}

/// The constellation of every spatial stream (clause 20.3.11.9).
#[derive(Clone, Copy, Debug, PartialEq, Eq)]
pub enum Modulation {
    /// One bit a subcarrier.
    Bpsk,
    /// Two bits a subcarrier.
    Qpsk,
    /// Four bits a subcarrier.
    Qam16,
    /// Six bits a subcarrier.
    Qam64,
}

impl Modulation {
    /// The bits of a label: 1, 2, 4 or 6.
    pub fn label_bits(self) -> u8
        ensures value { result ≡ bits_of self }
        ensures low { 1 ≤ result }
        ensures high { result ≤ 6 }
    {
        match self {
            Modulation::Bpsk => 1,
            Modulation::Qpsk => 2,
            Modulation::Qam16 => 4,
            Modulation::Qam64 => 6,
        }
    }
}

/// The puncturing pattern, named by the coding rate that it leaves (clause 20.3.11.6).
#[derive(Clone, Copy, Debug, PartialEq, Eq)]
pub enum Pattern {
    /// Rate 1/2: nothing is punctured.
    Half,
    /// Rate 2/3.
    TwoThirds,
    /// Rate 3/4.
    ThreeQuarters,
    /// Rate 5/6.
    FiveSixths,
}

impl Pattern {
    /// The coding rate that the pattern leaves, as its numerator and its denominator in lowest terms: (1, 2) to (5, 6).
    pub fn coding_rate(self) -> (u16, u16)
        ensures numerator { result.0 ≡ numerator_of self }
        ensures denominator { result.1 ≡ denominator_of self }
        ensures proper { (2 ≤ result.1) × (result.0 < result.1) × (result.1 ≤ 6) }
    {
        match self {
            Pattern::Half => (1, 2),
            Pattern::TwoThirds => (2, 3),
            Pattern::ThreeQuarters => (3, 4),
            Pattern::FiveSixths => (5, 6),
        }
    }
}

/// What a subcarrier carries, with its number among its kind, counted from 0 at the lowest subcarrier.
#[derive(Clone, Copy, Debug, PartialEq, Eq)]
pub enum Carrier {
    /// The data subcarrier of this number.
    Data(u8),
    /// The pilot subcarrier of this number.
    Pilot(u8),
}

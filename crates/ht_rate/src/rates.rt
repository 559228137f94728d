//! A rate: bandwidth and MCS index, and what follows from them.
ghost use Rattle.std.specs.Prelude.{
  ◌≡◌,
  ◌+◌,
  ◌*◌,
  ◌<◌,
  ◌≤◌,
  ◌↔◌,
  IfOk,
  IsTrue,
};
ghost use Rattle.ht_rate.specs.Rates.{
  bandwidth_of,
  streams_of,
  mcs_of,
  modulation_of,
  pattern_of,
  data_carriers_of,
  pilots_of,
  carriers_of,
  label_bits_of,
  axis_bits_of,
  stream_bits_of,
  coded_bits_of,
  data_bits_of,
  encoders_of,
  symbols_of,
  pads_of,
  steps_of,
  needed_bits_of,
  rate_of,
};
ghost use Rattle.ht_rate.specs.Schemes.{bandwidth_code};

use crate::kinds::{Bandwidth, Modulation, Pattern};
use crate::parts::{SCHEMES, STREAMS, Scheme, Streams};
use thiserror::Error;

/// Why a bandwidth's code and an MCS index name no rate.
#[derive(Clone, Copy, Debug, PartialEq, Eq, Error)]
pub enum RateFault {
    /// The code of the bandwidth is neither 0 nor 1.
    #[error("the code of the bandwidth is neither 0 nor 1")]
    BadBandwidth = 1,
    /// The MCS index is above 31.
    #[error("the MCS index is above 31")]
    BadMcs = 2,
}

/// One of the 64 rates: MCS 0 to 31 at 20 MHz and at 40 MHz.
#[derive(Clone, Copy, Debug, PartialEq, Eq)]
pub struct Rate {
    bandwidth: Bandwidth,
    streams: Streams,
    scheme: Scheme,
}

impl Rate {
    /// The rate of a bandwidth's code, 0 for 20 MHz or 1 for 40 MHz, and an MCS index from 0 to 31.
    ///
    /// Where both are bad, the answer is `BadBandwidth`.
    #[tactic(auto, unfolding(crate::specs::Rates::rate_of))]
    pub fn of(bw: u8, mcs: u8) -> Result<Rate, RateFault>
        ensures value { result ≡ rate_of bw mcs }
        ensures bad_bandwidth { (result ≡ Err RateFault.BadBandwidth) ↔ (1 < bw) }
        ensures bad_mcs { (result ≡ Err RateFault.BadMcs) ↔ ((bw ≤ 1) × (31 < mcs)) }
        ensures given { IfOk result (λ r. (bandwidth_code (bandwidth_of r) ≡ bw) × (mcs_of r ≡ mcs)) }
    {
        if bw > 1 {
            return Err(RateFault::BadBandwidth);
        }
        if mcs > 31 {
            return Err(RateFault::BadMcs);
        }
        Ok(Rate {
            bandwidth: Bandwidth::at(bw),
            streams: STREAMS[usize::from(mcs / 8)],
            scheme: SCHEMES[usize::from(mcs % 8)],
        })
    }

    /// Whether both rates are the same, as `==` says too.
    pub fn same(&self, other: &Rate) -> bool
        ensures { IsTrue result ↔ (self.now ≡ other.now) }
    {
        *self == *other
    }

    /// The bandwidth.
    #[tactic(auto, unfolding(crate::specs::Rates::bandwidth_of))]
    pub fn bandwidth(&self) -> Bandwidth
        ensures { result ≡ bandwidth_of self.now }
    {
        self.bandwidth
    }

    /// The MCS index, 0 to 31.
    #[tactic(auto, unfolding(crate::specs::Rates::mcs_of, crate::specs::Rates::streams_of))]
    pub fn mcs(&self) -> u8
        ensures value { result ≡ mcs_of self.now }
        ensures bound { result < 32 }
    {
        8 * (self.streams.count() - 1) + self.scheme as u8
    }

    /// The constellation of every stream.
    #[tactic(auto, unfolding(crate::specs::Rates::modulation_of))]
    pub fn modulation(&self) -> Modulation
        ensures { result ≡ modulation_of self.now }
    {
        self.scheme.modulation()
    }

    /// The coding rate, as a puncturing pattern.
    #[tactic(auto, unfolding(crate::specs::Rates::pattern_of))]
    pub fn pattern(&self) -> Pattern
        ensures { result ≡ pattern_of self.now }
    {
        self.scheme.pattern()
    }

    /// N_SS, the number of spatial streams: 1 to 4.
    #[tactic(auto, unfolding(crate::specs::Rates::streams_of))]
    pub fn streams(&self) -> u8
        ensures value { result ≡ streams_of self.now }
        ensures low { 1 ≤ result }
        ensures high { result ≤ 4 }
    {
        self.streams.count()
    }

    /// N_ES, the number of encoders: 1 or 2.
    #[tactic(auto, unfolding(crate::specs::Rates::encoders_of, crate::specs::Rates::bandwidth_of))]
    pub fn encoders(&self) -> u8
        ensures value { result ≡ encoders_of self.now }
        ensures low { 1 ≤ result }
        ensures high { result ≤ 2 }
    {
        self.bandwidth.encoders(self.mcs())
    }

    /// N_SD, the number of data subcarriers: 52 or 108.
    #[tactic(auto, unfolding(crate::specs::Rates::data_carriers_of))]
    pub fn data_carriers(&self) -> u8
        ensures value { result ≡ data_carriers_of self.now }
        ensures low { 52 ≤ result }
        ensures high { result ≤ 108 }
    {
        self.bandwidth.subcarriers().0
    }

    /// N_SP, the number of pilot subcarriers: 4 or 6.
    #[tactic(auto, unfolding(crate::specs::Rates::pilots_of))]
    pub fn pilots(&self) -> u8
        ensures value { result ≡ pilots_of self.now }
        ensures low { 4 ≤ result }
        ensures high { result ≤ 6 }
    {
        self.bandwidth.subcarriers().1
    }

    /// N_ST, the number of subcarriers: 56 or 114.
    #[tactic(auto, unfolding(crate::specs::Rates::carriers_of))]
    pub fn carriers(&self) -> u8
        ensures value { result ≡ carriers_of self.now }
        ensures sum { result ≡ data_carriers_of self.now + pilots_of self.now }
        ensures low { 56 ≤ result }
        ensures high { result ≤ 114 }
    {
        self.data_carriers() + self.pilots()
    }

    /// N_BPSCS, the coded bits of a subcarrier and stream: 1, 2, 4 or 6.
    #[tactic(auto, unfolding(crate::specs::Rates::label_bits_of))]
    pub fn label_bits(&self) -> u8
        ensures value { result ≡ label_bits_of self.now }
        ensures low { 1 ≤ result }
        ensures high { result ≤ 6 }
    {
        self.modulation().label_bits()
    }

    /// s = max(1, N_BPSCS / 2), the bits of one axis of the constellation: 1, 2 or 3.
    #[tactic(auto, unfolding(crate::specs::Rates::axis_bits_of))]
    pub fn axis_bits(&self) -> u8
        ensures value { result ≡ axis_bits_of self.now }
        ensures low { 1 ≤ result }
        ensures high { result ≤ 3 }
    {
        (self.label_bits() / 2).max(1)
    }

    /// N_CBPSS, the coded bits of a symbol and stream: 52 to 648.
    #[tactic(auto, unfolding(crate::specs::Rates::stream_bits_of))]
    pub fn stream_bits(&self) -> u16
        ensures value { result ≡ stream_bits_of self.now }
        ensures product { result ≡ data_carriers_of self.now * label_bits_of self.now }
        ensures low { 52 ≤ result }
        ensures high { result ≤ 648 }
    {
        u16::from(self.data_carriers()) * u16::from(self.label_bits())
    }

    /// N_CBPS, the coded bits of a symbol: 52 to 2592.
    #[tactic(auto, unfolding(crate::specs::Rates::coded_bits_of))]
    pub fn coded_bits(&self) -> u16
        ensures value { result ≡ coded_bits_of self.now }
        ensures product { result ≡ streams_of self.now * stream_bits_of self.now }
        ensures low { 52 ≤ result }
        ensures high { result ≤ 2592 }
    {
        u16::from(self.streams()) * self.stream_bits()
    }

    /// N_DBPS, the data bits of a symbol: 26 to 2160.
    #[tactic(auto, unfolding(crate::specs::Rates::data_bits_of))]
    pub fn data_bits(&self) -> u16
        ensures value { result ≡ data_bits_of self.now }
        ensures low { 26 ≤ result }
        ensures high { result ≤ 2160 }
    {
        let (numerator, denominator) = self.pattern().coding_rate();
        self.coded_bits() * numerator / denominator
    }
}

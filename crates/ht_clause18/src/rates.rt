//! The rates of clause 18 (IEEE Std 802.11-2012, table 18-4).
ghost use Rattle.std.specs.Prelude.{◌≡◌, ◌↔◌, ◌+◌, ◌*◌, ◌<◌, ◌≤◌, IfSome, IsNone};
ghost use Rattle.ht_clause18.specs.Rates.{
  index_of,
  rate_of,
  modulation_of,
  pattern_of,
  label_bits_of,
  axis_bits_of,
  coded_bits_of,
  data_bits_of,
  needed_bits,
  symbols_of,
  pads_of,
};

use ht_rate::{Modulation, Pattern};

/// The data subcarriers of a symbol.
const DATA_CARRIERS: u16 = 48;

/// One of the eight rates at 20 MHz, named by its data rate (table 18-4).
#[derive(Clone, Copy, Debug, PartialEq, Eq)]
pub enum LegacyRate {
    /// 6 Mbit/s: BPSK, rate 1/2.
    Mbit6,
    /// 9 Mbit/s: BPSK, rate 3/4.
    Mbit9,
    /// 12 Mbit/s: QPSK, rate 1/2.
    Mbit12,
    /// 18 Mbit/s: QPSK, rate 3/4.
    Mbit18,
    /// 24 Mbit/s: 16-QAM, rate 1/2.
    Mbit24,
    /// 36 Mbit/s: 16-QAM, rate 3/4.
    Mbit36,
    /// 48 Mbit/s: 64-QAM, rate 2/3.
    Mbit48,
    /// 54 Mbit/s: 64-QAM, rate 3/4.
    Mbit54,
}

impl LegacyRate {
    /// The rate of an index: its row in the table, counted from 0. None exactly where the index is above 7.
    #[must_use]
    #[tactic(auto, unfolding(crate::specs::Rates::rate_of))]
    pub fn of(index: u8) -> Option<LegacyRate>
        ensures value { result ≡ rate_of index }
        ensures none { IsNone result ↔ (7 < index) }
        ensures given { IfSome result (λ rate. index_of rate ≡ index) }
    {
        Some(match index {
            0 => LegacyRate::Mbit6,
            1 => LegacyRate::Mbit9,
            2 => LegacyRate::Mbit12,
            3 => LegacyRate::Mbit18,
            4 => LegacyRate::Mbit24,
            5 => LegacyRate::Mbit36,
            6 => LegacyRate::Mbit48,
            7 => LegacyRate::Mbit54,
            _ => return None,
        })
    }

    /// The index, 0 to 7.
    pub fn index(self) -> u8
        ensures value { result ≡ index_of self }
        ensures bound { result ≤ 7 }
    {
        self as u8
    }

    /// The constellation of the data subcarriers.
    #[tactic(auto, unfolding(crate::specs::Rates::modulation_of))]
    pub fn modulation(self) -> Modulation
        ensures { result ≡ modulation_of self }
    {
        match self {
            LegacyRate::Mbit6 | LegacyRate::Mbit9 => Modulation::Bpsk,
            LegacyRate::Mbit12 | LegacyRate::Mbit18 => Modulation::Qpsk,
            LegacyRate::Mbit24 | LegacyRate::Mbit36 => Modulation::Qam16,
            LegacyRate::Mbit48 | LegacyRate::Mbit54 => Modulation::Qam64,
        }
    }

    /// The coding rate R, as a puncturing pattern.
    #[tactic(auto, unfolding(crate::specs::Rates::pattern_of))]
    pub fn pattern(self) -> Pattern
        ensures { result ≡ pattern_of self }
    {
        match self {
            LegacyRate::Mbit6 | LegacyRate::Mbit12 | LegacyRate::Mbit24 => Pattern::Half,
            LegacyRate::Mbit48 => Pattern::TwoThirds,
            LegacyRate::Mbit9 | LegacyRate::Mbit18 | LegacyRate::Mbit36 | LegacyRate::Mbit54 =>
                Pattern::ThreeQuarters,
        }
    }

    /// N_BPSC, the coded bits of a subcarrier: 1, 2, 4 or 6.
    pub fn label_bits(self) -> u8
        ensures value { result ≡ label_bits_of self }
        ensures low { 1 ≤ result }
        ensures high { result ≤ 6 }
    {
        self.modulation().label_bits()
    }

    /// s = max(1, N_BPSC / 2), the bits of one axis of the constellation: 1, 2 or 3.
    #[tactic(auto, unfolding(crate::specs::Rates::axis_bits_of))]
    pub fn axis_bits(self) -> u8
        ensures value { result ≡ axis_bits_of self }
        ensures low { 1 ≤ result }
        ensures high { result ≤ 3 }
    {
        (self.label_bits() / 2).max(1)
    }

    /// N_CBPS, the coded bits of a symbol: 48, 96, 192 or 288.
    pub fn coded_bits(self) -> u16
        ensures value { result ≡ coded_bits_of self }
        ensures product { result ≡ 48 * label_bits_of self }
        ensures low { 48 ≤ result }
        ensures high { result ≤ 288 }
    {
        DATA_CARRIERS * u16::from(self.label_bits())
    }

    /// N_DBPS, the data bits of a symbol: 24 to 216.
    pub fn data_bits(self) -> u16
        ensures value { result ≡ data_bits_of self }
        ensures low { 24 ≤ result }
        ensures high { result ≤ 216 }
    {
        let (numerator, denominator) = self.pattern().coding_rate();
        self.coded_bits() * numerator / denominator
    }

    /// N_SYM, the number of symbols of a PSDU of `length` octets, 1 to 4095: the least number that holds 16 SERVICE bits,
    /// the octets and six tail bits.
    #[tactic(auto, using(std::proofs::lemmas::Grind::div_ceil_times), unfolding(crate::specs::Rates::symbols_of))]
    pub fn symbols(self, length: u16) -> u32
        requires length { (1 ≤ length) × (length ≤ 4095) }
        ensures value { result ≡ symbols_of self length }
        ensures enough { needed_bits length ≤ result * data_bits_of self }
        ensures least { result * data_bits_of self < needed_bits length + data_bits_of self }
        ensures low { 1 ≤ result }
        ensures high { result ≤ 1366 }
    {
        needed(length).div_ceil(u32::from(self.data_bits()))
    }

    /// N_PAD, the number of pad bits behind the tail, which fill the last symbol of a PSDU of `length` octets, 1 to 4095.
    #[tactic(auto, unfolding(crate::specs::Rates::pads_of))]
    pub fn pads(self, length: u16) -> u32
        requires length { (1 ≤ length) × (length ≤ 4095) }
        ensures value { result ≡ pads_of self length }
        ensures filled { needed_bits length + result ≡ symbols_of self length * data_bits_of self }
        ensures few { result < data_bits_of self }
    {
        self.symbols(length) * u32::from(self.data_bits()) - needed(length)
    }
}

// The bits that have to be sent: SERVICE, the octets and the tail.
fn needed(length: u16) -> u32
    ensures { result ≡ needed_bits length }
{
    16 + 8 * u32::from(length) + 6
}

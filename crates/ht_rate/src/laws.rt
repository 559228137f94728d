//! Laws of the rate table, each the contract of a function that does nothing.
ghost use Rattle.std.specs.Prelude.{◌≡◌, ◌*◌, ◌/◌, ◌<◌, ◌≤◌};
ghost use Rattle.ht_rate.specs.Carriers.{carrier_of, data_before, index_of, IsAmong, IsInOrder};
ghost use Rattle.ht_rate.specs.Rates.{
  bandwidth_of,
  mcs_of,
  carriers_of,
  data_carriers_of,
  coded_bits_of,
  data_bits_of,
  encoders_of,
  pattern_of,
  rate_of,
  needed_bits_of,
  symbols_of,
  labels_of,
  steps_of,
};
ghost use Rattle.ht_rate.specs.Schemes.{bandwidth_code, numerator_of, denominator_of};

use crate::kinds::Carrier;
use crate::rates::Rate;

/// Each rate is the one that its bandwidth and its MCS index name.
pub fn named(rate: &Rate)
    ensures { rate_of (bandwidth_code (bandwidth_of rate.now)) (mcs_of rate.now) ≡ Ok rate.now }
{}

/// Two rates of one bandwidth and one MCS index are the same.
pub fn same(a: &Rate, b: &Rate)
    requires bandwidth { bandwidth_of a.now ≡ bandwidth_of b.now }
    requires mcs { mcs_of a.now ≡ mcs_of b.now }
    ensures { a.now ≡ b.now }
{}

/// The data bits of a symbol are its coded bits times the coding rate, with no remainder.
pub fn whole(rate: &Rate)
    ensures { data_bits_of rate.now * denominator_of (pattern_of rate.now)
        ≡ coded_bits_of rate.now * numerator_of (pattern_of rate.now) }
{}

/// The bits of a symbol are shared among the encoders with no remainder.
pub fn shared(rate: &Rate)
    ensures coded { encoders_of rate.now * (coded_bits_of rate.now / encoders_of rate.now) ≡ coded_bits_of rate.now }
    ensures data_bits { encoders_of rate.now * (data_bits_of rate.now / encoders_of rate.now) ≡ data_bits_of rate.now }
{}

/// The codewords of the encoders are together the bits that a PSDU needs, and each fits into its encoder's share of the
/// symbols.
pub fn codewords(rate: &Rate, length: u16)
    requires { 1 ≤ length }
    ensures whole { encoders_of rate.now * steps_of rate.now length ≡ needed_bits_of rate.now length }
    ensures within { steps_of rate.now length ≤ symbols_of rate.now length * (data_bits_of rate.now / encoders_of rate.now) }
{}

/// A symbol's data bits of one encoder are whole periods of the puncturing pattern, and are coded into its share of the
/// coded bits.
pub fn periods(rate: &Rate)
    ensures whole { numerator_of (pattern_of rate.now) * (data_bits_of rate.now / encoders_of rate.now / numerator_of (pattern_of rate.now))
        ≡ data_bits_of rate.now / encoders_of rate.now }
    ensures coded { data_bits_of rate.now / encoders_of rate.now * denominator_of (pattern_of rate.now)
        ≡ coded_bits_of rate.now / encoders_of rate.now * numerator_of (pattern_of rate.now) }
{}

/// A frame has at most 1,048,896 labels, one for each symbol, data subcarrier and stream. A PSDU of 65535 octets at
/// MCS 24 and 40 MHz has that many.
pub fn labels(rate: &Rate, length: u16)
    ensures { labels_of rate.now length ≤ 1048896 }
{}

/// Subcarriers are numbered in ascending order, data and pilots each by themselves.
pub fn in_order(rate: &Rate, index: u8)
    requires { index < carriers_of rate.now }
    ensures { IsInOrder rate.now index (carrier_of rate.now index) }
{}

/// N_SD of all subcarriers are for data.
pub fn all_data(rate: &Rate)
    ensures { data_before rate.now (carriers_of rate.now) ≡ data_carriers_of rate.now }
{}

/// The subcarrier at an index has this index.
pub fn index_of_carrier(rate: &Rate, index: u8)
    requires { index < carriers_of rate.now }
    ensures { index_of rate.now (carrier_of rate.now index) ≡ index }
{}

/// A data or pilot subcarrier of a number that the rate has stands at its index, and at no other.
pub fn carrier_at_index(rate: &Rate, carrier: Carrier)
    requires { IsAmong rate.now carrier }
    ensures within { index_of rate.now carrier < carriers_of rate.now }
    ensures there { carrier_of rate.now (index_of rate.now carrier) ≡ carrier }
{}

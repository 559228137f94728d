//! The interleaver: where the coded bits of a symbol come to stand (IEEE Std 802.11-2012, clause 18.3.5.7).
ghost use Rattle.std.specs.Prelude.{◌≡◌, ◌<◌};
ghost use Rattle.ht_clause18.specs.Interleaver.{place_of, origin_of, first, second, first_back, second_back};
ghost use Rattle.ht_clause18.specs.Rates.{coded_bits_of};
ghost use Rattle.ht_clause18.specs.Sources.{AreSources};

use crate::rates::LegacyRate;

/// The columns that bits are read from.
const COLUMNS: u16 = 16;

/// The most coded bits of a symbol.
const MOST: usize = 288;

/// The place of coded bit `k` of a symbol. Bits and places are numbered from 0 and below `rate.coded_bits()`.
#[tactic(auto, unfolding(crate::specs::Interleaver::place_of))]
pub fn legacy_place(rate: LegacyRate, k: u16) -> u16
    requires { k < coded_bits_of rate }
    ensures value { result ≡ place_of rate k }
    ensures bound { result < coded_bits_of rate }
{
    regrouped(rate, by_columns(rate, k))
}

/// The coded bit that goes to place `j` of a symbol: the inverse of [`legacy_place`].
#[tactic(auto, unfolding(crate::specs::Interleaver::origin_of))]
pub fn legacy_origin(rate: LegacyRate, j: u16) -> u16
    requires { j < coded_bits_of rate }
    ensures value { result ≡ origin_of rate j }
    ensures bound { result < coded_bits_of rate }
{
    by_rows(rate, regrouped_back(rate, j))
}

// The first permutation: written into rows, read from columns.
fn by_columns(rate: LegacyRate, k: u16) -> u16
    requires { k < coded_bits_of rate }
    ensures value { result ≡ first rate k }
    ensures bound { result < coded_bits_of rate }
{
    rate.coded_bits() / COLUMNS * (k % COLUMNS) + k / COLUMNS
}

// The second: neighbours go to more and to less significant bits in turn.
fn regrouped(rate: LegacyRate, i: u16) -> u16
    requires { i < coded_bits_of rate }
    ensures value { result ≡ second rate i }
    ensures bound { result < coded_bits_of rate }
{
    let s = u16::from(rate.axis_bits());
    let size = rate.coded_bits();
    s * (i / s) + (i + size - COLUMNS * i / size) % s
}

// Back from the second.
fn regrouped_back(rate: LegacyRate, j: u16) -> u16
    requires { j < coded_bits_of rate }
    ensures value { result ≡ second_back rate j }
    ensures bound { result < coded_bits_of rate }
{
    let s = u16::from(rate.axis_bits());
    let size = rate.coded_bits();
    s * (j / s) + (j + COLUMNS * j / size) % s
}

// Back from the first.
fn by_rows(rate: LegacyRate, i: u16) -> u16
    requires { i < coded_bits_of rate }
    ensures value { result ≡ first_back rate i }
    ensures bound { result < coded_bits_of rate }
{
    let size = rate.coded_bits();
    COLUMNS * i - (size - 1) * (COLUMNS * i / size)
}

/// For each place of a symbol the coded bit that goes there. A frame needs this table once, so that its symbols take no
/// division for a bit.
pub(crate) fn sources(rate: LegacyRate) -> [u32; 288]
    ensures { AreSources rate result }
{
    let mut sources = [0; MOST];
    for j in 0..rate.coded_bits() {
        sources[usize::from(j)] = u32::from(legacy_origin(rate, j));
    }
    sources
}

//! The labels of eight subcarriers of a symbol, found together in lanes.
ghost use Rattle.std.specs.Prelude.{◌≡◌, ◌+◌, ◌*◌, ◌^◌, ◌<◌, ◌≤◌, ℕ, length, slice_index, slice_index_or, unwrap_or};
ghost use Rattle.ht_map.specs.Gray.{label_of};
ghost use Rattle.ht_clause18.specs.Carriers.{carriers, carrier_of};
ghost use Rattle.ht_clause18.specs.Rates.{modulation_of};
ghost use Rattle.ht_metric.specs.Rows.{no_sample};
ghost use Rattle.ht_rounding.specs.InLanes.{IsSmall};
ghost use Rattle.ht_rounding.specs.Labels.{IsLabelled};
ghost use Rattle.ht_rounding.specs.Loading.{IsWord};
ghost use Rattle.ht_rounding.specs.Proposals.{AreSmall};
ghost use Rattle.ht_legacy_blocks.specs.Jobs.{job_of};
ghost use Rattle.ht_legacy_blocks.specs.Lanes.{IsData};

use crate::symbol::LegacySymbol;
use ht_rate::Modulation;
use ht_rounding::{Channel, Eight, Labelled, Parts, RowLanes, SampleLanes, label_lanes};
use std::simd::prelude::*;

// 1 for each subcarrier that carries data, and 0 for each pilot.
static DATA: [u32; 52] = [
    1, 1, 1, 1, 1, 0, 1, 1, 1, 1, 1, 1, 1, 1, 1, 1, 1, 1, 1, 0, 1, 1, 1, 1, 1, 1, 1, 1, 1, 1, 1, 1,
    0, 1, 1, 1, 1, 1, 1, 1, 1, 1, 1, 1, 1, 1, 0, 1, 1, 1, 1, 1,
];

// Eight words, from a place on.
#[inline(always)]
fn words_from(words: &[u32], at: usize) -> u32x8
    requires { at + 8 ≤ length words.now }
    ensures { (k : ℕ) → k < 8 → slice_index result k ≡ slice_index words.now (at + k) }
{
    u32x8::from_slice(&words[at..])
}

// 1 where a subcarrier carries data, and 0 elsewhere, of eight subcarriers, from one on.
#[inline(always)]
fn data_lanes(first: u8) -> u32x8
    requires { first + 8 ≤ carriers }
    ensures { (k : ℕ) → k < 8 → 0 < slice_index result k → IsData (carrier_of (first + k)) }
{
    words_from(&DATA, usize::from(first))
}

// The same where the frame's modulation is this one, and 0 everywhere where it isn't.
#[inline(always)]
fn plain_by(symbol: &LegacySymbol, modulation: Modulation, first: u8) -> u32x8
    requires { first + 8 ≤ carriers }
    ensures modulation { (k : ℕ) → k < 8 → 0 < slice_index result k → modulation_of symbol.now.head.rate ≡ modulation }
    ensures data { (k : ℕ) → k < 8 → 0 < slice_index result k → IsData (carrier_of (first + k)) }
{
    if symbol.head().rate.modulation() == modulation {
        data_lanes(first)
    } else {
        u32x8::splat(0)
    }
}

// No row.
#[inline(always)]
fn no_row() -> RowLanes
    ensures { AreSmall result.diagonal }
{
    let none = u32x8::splat(0);
    let entry = Parts { re: none, im: none };
    RowLanes {
        diagonal: none,
        next: entry,
        second: entry,
        third: entry,
    }
}

// The channels of eight subcarriers, from one on.
#[inline(always)]
fn channel(symbol: &LegacySymbol, first: u8) -> Channel
    requires { first + 8 ≤ carriers }
    ensures small { IsSmall result }
    ensures first { (k : ℕ) → k < 8 → slice_index result.first.diagonal k ≡ slice_index_or symbol.now.diagonals (first + k) 0 }
{
    let none = no_row();
    Channel {
        first: RowLanes {
            diagonal: symbol.diagonals(first),
            ..none
        },
        second: none,
        third: none,
        fourth: none,
    }
}

// What was received on eight subcarriers, from one on.
#[inline(always)]
fn samples(symbol: &LegacySymbol, first: u8) -> SampleLanes
    requires { first + 8 ≤ carriers }
    ensures re { (k : ℕ) → k < 8 → IsWord (slice_index result.first.re k) (slice_index_or symbol.now.samples (first + k) no_sample).re }
    ensures im { (k : ℕ) → k < 8 → IsWord (slice_index result.first.im k) (slice_index_or symbol.now.samples (first + k) no_sample).im }
{
    let none = u32x8::splat(0);
    let nothing = Parts { re: none, im: none };
    SampleLanes {
        first: Parts {
            re: symbol.re_lanes(first),
            im: symbol.im_lanes(first),
        },
        second: nothing,
        third: nothing,
        fourth: nothing,
    }
}

/// The labels of the first nearest points of eight subcarriers of a symbol, from one on, and their squared distances, in the
/// lanes that are sure. The lane of a pilot isn't, and none is where the frame's modulation is another one.
pub(crate) fn labels(symbol: &LegacySymbol, modulation: Modulation, first: u8) -> Labelled
    requires { first + 8 ≤ carriers }
    ensures streams { result.streams ≡ 1 }
    ensures labels { (k : ℕ) → k < 8 → 0 < slice_index result.sure k
        → IsLabelled (λ p. unwrap_or (label_of modulation p) 0) result k (job_of symbol.now (first + k)) }
{
    let eight = Eight {
        channel: channel(symbol, first),
        samples: samples(symbol, first),
        plain: plain_by(symbol, modulation, first),
    };
    label_lanes(modulation, 1, &eight)
}

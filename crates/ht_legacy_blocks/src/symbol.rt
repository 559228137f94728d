//! Symbols that were read.
ghost use Rattle.std.specs.Prelude.{◌≡◌, ◌+◌, ◌^◌, ◌<◌, ◌≤◌, ℕ, length, slice_index, slice_index_or, IsTrue};
ghost use Rattle.ht_clause18.specs.Carriers.{carriers};
ghost use Rattle.ht_metric.specs.Rows.{no_sample};
ghost use Rattle.ht_capture.specs.Numbers.{unsigned_at};
ghost use Rattle.ht_rounding.specs.Loading.{IsWord};
ghost use Rattle.ht_rounding.specs.Proposals.{AreSmall};
ghost use Rattle.ht_legacy_blocks.specs.Jobs.{diagonals_of, grid_at, job_of, row_of, samples_of};

use crate::grids::{constellation, pilot_point};
use crate::head::LegacyFrameHead;
use crate::words::{shorts, words};
use byteorder::{BigEndian, ByteOrder};
use ht_capture::numbers::sample;
use ht_clause18::legacy_carrier;
use ht_metric::{Job, Place, Sample, System, Tap, Triangle};
use ht_pam::Grid;
use ht_rate::Carrier;
use std::marker::Model;
use std::simd::prelude::*;

/// The subcarriers of a symbol.
pub const CARRIERS: u8 = 52;

/// The octets of the diagonals of a frame: two for each subcarrier.
pub const DIAGONALS: usize = 104;

/// The octets of the samples of a symbol: two parts of four octets for each subcarrier.
pub const SAMPLES: usize = 416;

/// The sample in the unused places of a system.
const NO_SAMPLE: Sample = Sample { re: 0, im: 0 };

/// A symbol that was read: its frame's head, its number in the frame, the number of its first job, and the octets of
/// its diagonals and samples. Contracts see the diagonals and samples themselves.
#[derive(Debug, Drop)]
pub struct LegacySymbol {
    head: LegacyFrameHead,
    // The constellation of the frame's data subcarriers.
    full: Grid,
    symbol: u32,
    number: u64,
    diagonals: [u8; DIAGONALS],
    samples: [u8; SAMPLES],
}

impl Model for LegacySymbol {
    ghost use Rattle.ht_legacy_blocks.specs.Jobs.{SymbolView, diagonals_of, samples_of};
    ghost use Rattle.ht_legacy_blocks.specs.Symbols.{IsSymbol};

    ghost Value = { SymbolView };

    ghost view = { λ s. record {
      head = s.head;
      diagonals = diagonals_of s.diagonals;
      symbol = s.symbol;
      number = s.number;
      samples = samples_of s.samples;
    } };

    ghost invariant = { λ s. IsSymbol s.head s.full s.number s.diagonals s.samples };
}

// The number of two octets at a place.
fn number(octets: &[u8], at: usize) -> u16
    requires { at + 2 ≤ length octets.now }
    ensures { result ≡ unsigned_at octets.now at }
{
    BigEndian::read_u16(&octets[at..])
}

// The system of one row.
fn one_row(diagonal: u16, sample: Sample) -> System
    ensures { result ≡ row_of diagonal sample }
{
    let triangle = Triangle::new(1, [diagonal, 0, 0, 0], [Tap { re: 0, im: 0 }; 6]);
    System::new(triangle, [sample, NO_SAMPLE, NO_SAMPLE, NO_SAMPLE])
}

impl LegacySymbol {
    /// The symbol of a frame with these octets of its diagonals and of the symbol's samples.
    pub fn new(
        head: LegacyFrameHead,
        symbol: u32,
        number: u64,
        diagonals: &[u8; DIAGONALS],
        samples: &[u8; SAMPLES],
    ) -> LegacySymbol
        requires numbers { number + carriers < 2 ^ 64 }
        ensures { result ≡ record {
          head = head;
          diagonals = diagonals_of diagonals.now;
          symbol = symbol;
          number = number;
          samples = samples_of samples.now;
        } }
    {
        LegacySymbol {
            head,
            full: constellation(head.rate.modulation()),
            symbol,
            number,
            diagonals: *diagonals,
            samples: *samples,
        }
    }

    /// The head of its frame.
    pub fn head(&self) -> &LegacyFrameHead
        ensures { result.now ≡ self.now.head }
    {
        &self.head
    }

    /// A copy of the symbol.
    pub fn copy(&self) -> LegacySymbol
        ensures { result ≡ self.now }
    {
        LegacySymbol { ..*self }
    }

    /// The place of a subcarrier's job.
    #[inline]
    pub fn place(&self, carrier: u8) -> Place
        ensures { result ≡ (job_of self.now carrier).place }
    {
        Place {
            frame: self.head.frame,
            symbol: self.symbol,
            carrier,
        }
    }

    // The diagonal of a subcarrier.
    #[inline]
    fn diagonal(&self, carrier: u8) -> u16
        requires { carrier < carriers }
        ensures { result ≡ slice_index_or self.now.diagonals carrier 0 }
    {
        number(&self.diagonals, 2 * usize::from(carrier))
    }

    // The sample of a subcarrier.
    #[inline]
    fn sample(&self, carrier: u8) -> Sample
        requires { carrier < carriers }
        ensures { result ≡ slice_index_or self.now.samples carrier no_sample }
    {
        sample(&self.samples, 8 * usize::from(carrier))
    }

    // The diagonals of eight subcarriers, from one on.
    #[inline(always)]
    pub(crate) fn diagonals(&self, first: u8) -> u32x8
        requires { first + 8 ≤ carriers }
        ensures values { (k : ℕ) → k < 8 → slice_index result k ≡ slice_index_or self.now.diagonals (first + k) 0 }
        ensures small { AreSmall result }
    {
        shorts(&self.diagonals, 2 * usize::from(first))
    }

    // The real parts of what was received on eight subcarriers, from one on.
    #[inline(always)]
    pub(crate) fn re_lanes(&self, first: u8) -> u32x8
        requires { first + 8 ≤ carriers }
        ensures { (k : ℕ) → k < 8 → IsWord (slice_index result k) (slice_index_or self.now.samples (first + k) no_sample).re }
    {
        words(&self.samples, 8 * usize::from(first))
    }

    // The imaginary parts.
    #[inline(always)]
    pub(crate) fn im_lanes(&self, first: u8) -> u32x8
        requires { first + 8 ≤ carriers }
        ensures { (k : ℕ) → k < 8 → IsWord (slice_index result k) (slice_index_or self.now.samples (first + k) no_sample).im }
    {
        words(&self.samples, 8 * usize::from(first) + 4)
    }

    // The grid of a subcarrier.
    #[inline]
    fn grid(&self, carrier: u8) -> Grid
        requires { carrier < carriers }
        ensures { result ≡ grid_at self.now.head.rate self.now.symbol carrier }
    {
        match legacy_carrier(carrier) {
            Carrier::Data(_) => self.full,
            Carrier::Pilot(index) => pilot_point(self.symbol, index),
        }
    }

    /// The job of a subcarrier.
    #[inline]
    #[tactic(auto, unfolding(crate::specs::Jobs::job_of))]
    pub fn job(&self, carrier: u8) -> Job
        requires { carrier < carriers }
        ensures { result ≡ job_of self.now carrier }
    {
        let grid = self.grid(carrier);
        let system = one_row(self.diagonal(carrier), self.sample(carrier));
        Job::new(
            self.number + u64::from(carrier),
            self.place(carrier),
            grid,
            system,
        )
    }

    /// Whether both symbols have the same head, numbers, diagonals and samples. It compares octets, and makes no job.
    pub fn same(&self, other: &LegacySymbol) -> bool
        ensures { IsTrue result → self.now ≡ other.now }
    {
        let heads = self.head == other.head;
        let numbers = (self.symbol == other.symbol) & (self.number == other.number);
        let diagonals = self.diagonals[..] == other.diagonals[..];
        let samples = self.samples[..] == other.samples[..];
        heads & numbers & diagonals & samples
    }
}

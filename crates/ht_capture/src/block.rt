//! Blocks of jobs.
ghost use Rattle.std.specs.Prelude.{◌≡◌, ◌≢◌, ◌+◌, ◌<◌, ◌≤◌, ◌↔◌, Some, length, slice_get, unwrap_or, IfOk, IfSome, IsTrue};
ghost use Rattle.std.specs.Arc.{arc_value};
ghost use Rattle.ht_map.specs.Gray.{label_of};
ghost use Rattle.ht_rate.specs.Rates.{modulation_of};
ghost use Rattle.ht_rounding.specs.Labels.{AreLabelledFrom, IsUnsure};
ghost use Rattle.ht_capture.specs.declared.places.Present.{Present as PresentValue};
ghost use Rattle.ht_capture.specs.Parts.{job_in, jobs_of, part_of};

use crate::items::FrameHead;
use crate::shared_symbol::SharedSymbol;
use ht_metric::{Job, Place};
use ht_rate::Modulation;
use ht_rounding::Labelled;
use std::alloc::{AllocError, Global};
use std::marker::Model;
use std::sync::Arc;

/// The jobs of some subcarriers of a symbol, which follow one another: at least one, and at most 114.
///
/// It is a handle of a few words. Triangles and samples stay where the symbol lies, which its blocks share, and each job
/// is made when it is asked for.
#[derive(Debug, Drop)]
pub struct SymbolBlock {
    symbol: Arc<SharedSymbol, Global>,
    first: u16,
    count: u16,
}

impl Model for SymbolBlock {
    ghost use Rattle.std.specs.Prelude.{◌≤◌, ◌+◌, length};
    ghost use Rattle.std.specs.Arc.{arc_value};
    ghost use Rattle.ht_capture.specs.Parts.{SymbolPart, part_of};

    ghost Value = { SymbolPart };

    ghost view = { λ b. part_of (arc_value b.symbol) b.first b.count };

    ghost invariant = { λ b. (1 ≤ b.count) × (b.first + b.count ≤ length (arc_value b.symbol).present) × (b.first + b.count ≤ 114) };
}

impl SymbolBlock {
    // The block of a number of subcarriers of a symbol, from one on.
    pub(crate) fn of(symbol: Arc<SharedSymbol, Global>, first: u16, count: u16) -> SymbolBlock
        requires some { 1 ≤ count }
        requires within { first + count ≤ length (arc_value symbol).present }
        requires few { first + count ≤ 114 }
        ensures { result ≡ part_of (arc_value symbol) first count }
    {
        SymbolBlock {
            symbol,
            first,
            count,
        }
    }

    /// The number of its jobs, 1 to 114.
    #[inline]
    pub fn size(&self) -> u16
        ensures number { result ≡ length (jobs_of self.now) }
        ensures some { 1 ≤ result }
        ensures few { result ≤ 114 }
    {
        self.count
    }

    /// The head of its frame.
    #[inline]
    pub fn head(&self) -> &FrameHead
        ensures { result.now ≡ self.now.head }
    {
        self.symbol.head()
    }

    // The symbol, and the subcarrier of it whose job has `at` others before it.
    #[inline]
    fn subcarrier(&self, at: u16) -> (&SharedSymbol, usize)
        requires { at < length (jobs_of self.now) }
        ensures inside { result.1 < length result.0.now.present }
        ensures job { (d : PresentValue) → slice_get (jobs_of self.now) at ≡ Some (job_in result.0.now result.1 d) }
    {
        let symbol: &SharedSymbol = &self.symbol;
        (symbol, usize::from(self.first + at))
    }

    /// The place of its first job.
    pub fn place(&self) -> Place
        ensures { IfSome (slice_get (jobs_of self.now) 0) (λ job. job.place ≡ result) }
    {
        self.symbol.place(usize::from(self.first))
    }

    /// The place of the job that has `at` others before it.
    #[inline]
    pub fn place_at(&self, at: u16) -> Place
        requires { at < length (jobs_of self.now) }
        ensures { IfSome (slice_get (jobs_of self.now) at) (λ job. job.place ≡ result) }
    {
        let (symbol, subcarrier) = self.subcarrier(at);
        symbol.place(subcarrier)
    }

    /// The job that has `at` others before it.
    #[inline]
    pub fn job(&self, at: u16) -> Job
        requires { at < length (jobs_of self.now) }
        ensures { Some result ≡ slice_get (jobs_of self.now) at }
    {
        let (symbol, subcarrier) = self.subcarrier(at);
        symbol.job(subcarrier)
    }

    /// The labels of the first nearest vectors of eight jobs, from the one on that has `at` others before it, and their squared
    /// distances, in the lanes that are sure (IEEE Std 802.11-2012, clause 20.3.11.9). Where the frame's modulation is another
    /// one, no lane is sure. Else no clause tells which lanes are: a body that is never sure would be proved too, and only be slow.
    #[inline]
    pub fn labels(&self, modulation: Modulation, at: u16) -> Labelled
        requires { at + 8 ≤ length (jobs_of self.now) }
        ensures some { 1 ≤ result.streams }
        ensures few { result.streams ≤ 4 }
        ensures labels { AreLabelledFrom (λ p. unwrap_or (label_of modulation p) 0) (jobs_of self.now) at result }
        ensures other { modulation_of self.now.head.rate ≢ modulation → IsUnsure result }
    {
        let symbol: &SharedSymbol = &self.symbol;
        symbol.labels(modulation, usize::from(self.first + at))
    }

    /// The same block, which shares the symbol. The only error is lack of memory.
    pub fn copy(&self) -> Result<SymbolBlock, AllocError>
        ensures { IfOk result (λ copy. copy ≡ self.now) }
    {
        Ok(SymbolBlock {
            symbol: Arc::try_clone(&self.symbol)?,
            first: self.first,
            count: self.count,
        })
    }

    /// Whether both blocks have the same head, symbol, numbers, subcarriers, triangles and samples. Then they stand for the
    /// same jobs. It compares the octets of the samples, and makes no job.
    pub fn same(&self, other: &SymbolBlock) -> bool
        ensures { IsTrue result ↔ (self.now ≡ other.now) }
    {
        self.count == other.count
            && self.symbol.same(
                usize::from(self.first),
                &other.symbol,
                usize::from(other.first),
                usize::from(self.count),
            )
    }
}

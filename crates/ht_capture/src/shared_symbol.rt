//! Symbols whose jobs are shared.
ghost use Rattle.std.specs.Prelude.{◌≡◌, ◌≢◌, ◌+◌, ◌*◌, ◌^◌, ◌<◌, ◌≤◌, ◌↔◌, ℕ, length, get_or, slice_index, unwrap_or, IfOk, IsTrue};
ghost use Rattle.ht_map.specs.Gray.{label_of};
ghost use Rattle.ht_rate.specs.Rates.{modulation_of};
ghost use Rattle.ht_rounding.specs.Labels.{IsLabelled, IsUnsure};
ghost use Rattle.ht_capture.specs.declared.places.Present.{Present as PresentValue};
ghost use Rattle.ht_capture.specs.Frames.{carrier_octets};
ghost use Rattle.ht_capture.specs.Parts.{IsSymbol, job_in, moved, part_of};

use crate::items::FrameHead;
use crate::parts::width;
use crate::shape::Shape;
use ht_metric::{Job, Place};
use ht_rate::Modulation;
use ht_rounding::Labelled;
use std::alloc::{AllocError, Global};
use std::marker::Model;
use std::sync::Arc;

/// A symbol that was read: the shape of its frame, its number in the frame, the number of its first job, and the octets of
/// its samples. Contracts see it as the part of a symbol that has all of its subcarriers.
#[derive(Debug, Drop)]
pub struct SharedSymbol {
    shape: Arc<Shape, Global>,
    symbol: u32,
    number: u64,
    octets: Vec<u8>,
}

impl Model for SharedSymbol {
    ghost use Rattle.std.specs.Arc.{arc_value};
    ghost use Rattle.ht_capture.specs.Parts.{IsSymbol, SymbolPart};

    ghost Value = { SymbolPart };

    ghost view = { λ s. record {
      head = (arc_value s.shape).head;
      symbol = s.symbol;
      number = s.number;
      present = (arc_value s.shape).present;
      octets = s.octets.items;
    } };

    ghost invariant = { λ s. IsSymbol (record {
      head = (arc_value s.shape).head;
      symbol = s.symbol;
      number = s.number;
      present = (arc_value s.shape).present;
      octets = s.octets.items;
    }) };
}

// Octets in memory of their own.
fn copied(alloc: Global, octets: &[u8]) -> Result<Vec<u8>, AllocError>
    ensures { IfOk result (λ own. own.items ≡ octets.now) }
{
    let mut own = vec![in alloc; 0u8; octets.len()]?;
    own.copy_from_slice(octets);
    Ok(own)
}

impl SharedSymbol {
    /// The symbol of a frame of this shape, with the octets of its samples, which are copied. The only error is lack of
    /// memory.
    pub fn new(
        alloc: Global,
        shape: Shape,
        symbol: u32,
        number: u64,
        octets: &[u8],
    ) -> Result<SharedSymbol, AllocError>
        requires { IsSymbol (record { head = shape.head; symbol = symbol; number = number; present = shape.present; octets = octets.now }) }
        ensures { IfOk result (λ s. s ≡ record { head = shape.head; symbol = symbol; number = number; present = shape.present; octets = octets.now }) }
    {
        Ok(SharedSymbol {
            shape: Arc::new(alloc, shape)?,
            symbol,
            number,
            octets: copied(alloc, octets)?,
        })
    }

    /// Another symbol of the same frame, in memory of its own. The only error is lack of memory.
    pub fn another(
        &self,
        alloc: Global,
        symbol: u32,
        number: u64,
        octets: &[u8],
    ) -> Result<SharedSymbol, AllocError>
        requires size { length octets.now ≡ length self.now.present * carrier_octets self.now.head.rate }
        requires numbers { number + length self.now.present < 2 ^ 64 }
        ensures { IfOk result (λ s. s ≡ moved self.now symbol number octets.now) }
    {
        Ok(SharedSymbol {
            shape: Arc::try_clone(&self.shape)?,
            symbol,
            number,
            octets: copied(alloc, octets)?,
        })
    }

    /// Makes it another symbol of the same frame, in the same memory.
    pub fn hear(&mut self, symbol: u32, number: u64, octets: &[u8])
        requires size { length octets.now ≡ length self.old.present * carrier_octets self.old.head.rate }
        requires numbers { number + length self.old.present < 2 ^ 64 }
        ensures { self.new ≡ moved self.old symbol number octets.now }
    {
        self.symbol = symbol;
        self.number = number;
        self.octets.copy_from_slice(octets);
    }

    /// The head of its frame.
    #[inline]
    pub fn head(&self) -> &FrameHead
        ensures { result.now ≡ self.now.head }
    {
        self.shape.head()
    }

    /// The place of a subcarrier's job.
    #[inline]
    pub fn place(&self, k: usize) -> Place
        requires { k < length self.now.present }
        ensures { (d : PresentValue) → result
            ≡ record { frame = self.now.head.frame; symbol = self.now.symbol; carrier = (get_or self.now.present k d).carrier } }
    {
        Place {
            frame: self.shape.head().frame,
            symbol: self.symbol,
            carrier: self.shape.carrier(k),
        }
    }

    /// The job of a subcarrier.
    #[inline]
    pub fn job(&self, k: usize) -> Job
        requires { k < length self.now.present }
        ensures { (d : PresentValue) → result ≡ job_in self.now k d }
    {
        let at = width(k, self.shape.head().rate.streams());
        self.shape
            .job(k, self.symbol, self.number + k as u64, &self.octets, at)
    }

    /// The labels of the jobs of eight subcarriers from one on, in the lanes that are sure. Where the frame's modulation is another
    /// one, none is.
    #[inline]
    pub fn labels(&self, modulation: Modulation, k: usize) -> Labelled
        requires { k + 8 ≤ length self.now.present }
        ensures some { 1 ≤ result.streams }
        ensures few { result.streams ≤ 4 }
        ensures labels { (j : ℕ) (d : PresentValue) → j < 8 → 0 < slice_index result.sure j
            → IsLabelled (λ p. unwrap_or (label_of modulation p) 0) result j (job_in self.now (k + j) d) }
        ensures other { modulation_of self.now.head.rate ≢ modulation → IsUnsure result }
    {
        let at = width(k, self.shape.head().rate.streams());
        self.shape.labels(modulation, k, &self.octets, at)
    }

    // The octets of the samples of a number of subcarriers from one on.
    fn octets(&self, from: usize, count: usize) -> &[u8]
        requires { from + count ≤ length self.now.present }
        ensures { result.now ≡ (part_of self.now from count).octets }
    {
        let streams = self.shape.head().rate.streams();
        let start = width(from, streams);
        &self.octets[start..start + width(count, streams)]
    }

    /// Whether a number of subcarriers from one on are the same as those of another symbol from another one on: they have
    /// the same head, symbol, numbers, triangles and samples.
    pub fn same(&self, from: usize, other: &SharedSymbol, other_from: usize, count: usize) -> bool
        requires within { from + count ≤ length self.now.present }
        requires other_within { other_from + count ≤ length other.now.present }
        ensures { IsTrue result ↔ (part_of self.now from count ≡ part_of other.now other_from count) }
    {
        let heads = self.shape.head().same(other.shape.head());
        let symbols = self.symbol == other.symbol;
        let numbers = self.number + from as u64 == other.number + other_from as u64;
        let octets = self.octets(from, count) == other.octets(other_from, count);
        let shapes = self.shape.same(from, &other.shape, other_from, count);
        heads & symbols & numbers & octets & shapes
    }
}

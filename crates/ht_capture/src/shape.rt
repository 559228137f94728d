//! What the symbols of a frame share.
ghost use Rattle.std.specs.Prelude.{◌≡◌, ◌≢◌, ◌+◌, ◌*◌, ◌<◌, ◌≤◌, ◌↔◌, ℕ, length, take, drop, get_or, slice_index, unwrap_or, IfOk, IsTrue};
ghost use Rattle.ht_map.specs.Constellation.{grid_of};
ghost use Rattle.ht_map.specs.Gray.{label_of};
ghost use Rattle.ht_rate.specs.Rates.{modulation_of};
ghost use Rattle.ht_rounding.specs.Labels.{IsLabelled, IsUnsure};
ghost use Rattle.ht_capture.specs.declared.places.Present.{Present as PresentValue};
ghost use Rattle.ht_capture.specs.Frames.{carrier_octets, job_at};
ghost use Rattle.ht_capture.specs.InColumns.{HasColumns};
ghost use Rattle.ht_capture.specs.Parts.{AreTemplates, presents_of};
ghost use Rattle.ht_capture.specs.Reading.{AreSeen};

use crate::items::FrameHead;
use crate::jobs;
use crate::lanes::samples_of;
use crate::places::Present;
use crate::template::Template;
use ht_metric::Job;
use ht_pam::Grid;
use ht_rate::Modulation;
use ht_rounding::{Columns, Labelled};
use std::alloc::{AllocError, Global};
use std::marker::Model;

/// The head of a frame, and for each subcarrier that is present what its jobs share; their channels stand in columns, too.
#[derive(Debug, Drop)]
pub struct Shape {
    head: FrameHead,
    templates: Vec<Template>,
    columns: Columns,
}

impl Model for Shape {
    ghost use Rattle.ht_capture.specs.Parts.{AreTemplates, ShapeView, presents_of};
    ghost use Rattle.ht_capture.specs.InColumns.{HasColumns};

    ghost Value = { ShapeView };

    ghost view = { λ s. record { head = s.head; present = presents_of s.templates.items } };

    ghost invariant = { λ s. AreTemplates s.head s.templates.items × HasColumns s.head s.templates.items s.columns };
}

// The templates of subcarriers, in order.
fn templates(
    alloc: Global,
    head: &FrameHead,
    present: &[Present],
    full: &Grid,
) -> Result<Vec<Template>, AllocError>
    requires few { length present.now ≤ 114 }
    requires seen { AreSeen head.now.rate (length present.now) present.now }
    requires full { full.now ≡ grid_of head.now.rate }
    ensures present { IfOk result (λ templates. presents_of templates.items ≡ present.now) }
    ensures templates { IfOk result (λ templates. AreTemplates head.now templates.items) }
{
    let mut templates = Vec::with_capacity(alloc, present.len())?;
    for at in 0..present.len() {
        templates.push_reserved(jobs::template(head, &present[at], full));
    }
    Ok(templates)
}

// The channels of subcarriers as columns.
fn columns(alloc: Global, head: &FrameHead, templates: &[Template]) -> Result<Columns, AllocError>
    requires { AreTemplates head.now templates.now }
    ensures { IfOk result (λ columns. HasColumns head.now templates.now columns) }
{
    let rate = &head.rate;
    let mut columns = Columns::new(alloc, rate.modulation(), rate.streams(), templates.len())?;
    for at in 0..templates.len() {
        columns.push(&templates[at].job)?;
    }
    Ok(columns)
}

impl Shape {
    /// The shape of a frame with these subcarriers. `full` is the grid of its data subcarriers. The only error is lack of memory.
    pub fn of(
        alloc: Global,
        head: &FrameHead,
        present: &[Present],
        full: &Grid,
    ) -> Result<Shape, AllocError>
        requires few { length present.now ≤ 114 }
        requires seen { AreSeen head.now.rate (length present.now) present.now }
        requires full { full.now ≡ grid_of head.now.rate }
        ensures { IfOk result (λ shape. shape ≡ record { head = head.now; present = present.now }) }
    {
        let templates = templates(alloc, head, present, full)?;
        let columns = columns(alloc, head, &templates)?;
        Ok(Shape {
            head: *head,
            templates,
            columns,
        })
    }

    /// The frame's head.
    #[inline]
    pub fn head(&self) -> &FrameHead
        ensures head { result.now ≡ self.now.head }
        ensures few { length self.now.present ≤ 114 }
    {
        &self.head
    }

    /// A subcarrier's number among those of its frame.
    #[inline]
    pub fn carrier(&self, k: usize) -> u8
        requires { k < length self.now.present }
        ensures { (d : PresentValue) → result ≡ (get_or self.now.present k d).carrier }
    {
        self.templates[k].job.place().carrier
    }

    /// The job of a subcarrier in a symbol, whose samples stand in octets from a place on.
    #[inline]
    pub fn job(&self, k: usize, symbol: u32, number: u64, octets: &[u8], at: usize) -> Job
        requires inside { k < length self.now.present }
        requires whole { at + carrier_octets self.now.head.rate ≤ length octets.now }
        ensures { (d : PresentValue) → result ≡ job_at self.now.head symbol number (get_or self.now.present k d) octets.now at }
    {
        jobs::heard(&self.head, symbol, number, &self.templates[k], octets, at)
    }

    /// The labels of the jobs of eight subcarriers from one on, in a symbol whose samples stand in octets from a place on, in the
    /// lanes that are sure. Where the frame's modulation is another one, none is.
    #[inline]
    pub fn labels(&self, modulation: Modulation, k: usize, octets: &[u8], at: usize) -> Labelled
        requires inside { k + 8 ≤ length self.now.present }
        requires whole { at + 8 * carrier_octets self.now.head.rate ≤ length octets.now }
        ensures some { 1 ≤ result.streams }
        ensures few { result.streams ≤ 4 }
        ensures labels { (j symbol number : ℕ) (d : PresentValue) → j < 8 → 0 < slice_index result.sure j
            → IsLabelled (λ p. unwrap_or (label_of modulation p) 0) result j
            (job_at self.now.head symbol number (get_or self.now.present (k + j) d) octets.now (at + j * carrier_octets self.now.head.rate)) }
        ensures other { modulation_of self.now.head.rate ≢ modulation → IsUnsure result }
    {
        let samples = samples_of(octets, at, self.head.rate.streams());
        self.columns.labels(modulation, k, &samples)
    }

    /// Whether a number of subcarriers from one on are the same as those of another shape from another one on, and have the
    /// same triangles.
    pub fn same(&self, from: usize, other: &Shape, other_from: usize, count: usize) -> bool
        requires within { from + count ≤ length self.now.present }
        requires other_within { other_from + count ≤ length other.now.present }
        ensures { IsTrue result ↔ (take count (drop from self.now.present) ≡ take count (drop other_from other.now.present)) }
    {
        let mut same = true;
        for at in 0..count {
            let one = &self.templates[from + at];
            let another = &other.templates[other_from + at];
            same = same & one.is_like(another);
        }
        same
    }
}

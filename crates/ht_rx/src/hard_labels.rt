//! Frames of captures, of which labels are kept.
ghost use Rattle.std.specs.Prelude.{◌≡◌, ◌≤◌, ◌++◌, map, length, refl, IfOk, OnOk};
ghost use Rattle.ht_rate.specs.Rates.{modulation_of};
ghost use Rattle.ht_inverse.specs.Received.{labels_in_frame};
ghost use Rattle.ht_results.specs.Folding.{label_at, label_plan, result_of, with_octets};

use crate::data_runs::data_run;
use ht_capture::FrameHead;
use ht_eights::{LabelKind, found_by};
use ht_feed::Gate;
use ht_frames::{Kind, TogetherKind};
use ht_inverse::{Alone, Decoder, Together as TwoThreads};
use ht_metric::{Job, Vector};
use ht_rate::{Carrier, Modulation};
use ht_results::{FrameResult, jobs_in, kind, label_for, no_head, same_head, same_labels};
use std::alloc::{AllocError, Global};
use std::thread::Threads;

/// Frames of captures by hard decisions: of each job on a data subcarrier the labels of its first nearest vector are kept,
/// one octet each, and what they are decoded to is a [`FrameResult`].
#[derive(Clone, Copy, Debug, Drop)]
pub struct HardLabels;

// Puts the labels of a vector's points behind others, stream by stream.
#[inline(always)]
fn push_labels(
    labels: &mut Vec<u8>,
    modulation: Modulation,
    vector: &Vector,
) -> Result<(), AllocError>
    ensures { OnOk result (labels.new.items ≡ labels.old.items ++ map (label_at modulation) vector.now) }
{
    for k in 0..vector.len() {
        labels.push(label_for(modulation, vector.point(k + 1)))?;
    }
    Ok(())
}

// The result of a frame with these sums and labels (IEEE Std 802.11-2012, clauses 20.3.11.2 to 20.3.11.9 backwards).
fn result_by<D: Decoder>(
    alloc: Global,
    head: &FrameHead,
    data_sum: u128,
    pilot_sum: u128,
    labels: &[u8],
    decoder: &mut D,
) -> Result<FrameResult, AllocError>
    requires some { 1 ≤ head.now.length }
    requires labels { length labels.now ≡ labels_in_frame head.now.rate head.now.length }
    ensures { IfOk result (λ r. r ≡ result_of (record { head = head.now; data_sum = data_sum; pilot_sum = pilot_sum; labels = labels.now; left = 0 })) }
{
    let decoded = decoder.decode(alloc, &head.rate, head.length, head.erased, labels)?;
    Ok(FrameResult::of(head.frame, data_sum, pilot_sum, decoded))
}

impl Kind for HardLabels {
    type Head = FrameHead;

    type Value = u8;

    type Result = FrameResult;

    type Decoder = Alone;

    ghost plan = { label_plan };

    ghost begins = { with_octets };

    ghost fits = { λ head. 1 ≤ head.length };

    ghost result_of = { result_of };

    ghost length_of = { λ head. head.length };

    fn octets(head: &FrameHead) -> u16 {
        head.length
    }

    fn same_head(head: &FrameHead, other: &FrameHead) -> bool {
        same_head(head, other)
    }

    fn same_kept(kept: &[u8], other: &[u8]) -> bool {
        same_labels(kept, other)
    }

    /// Whether both have the same rate.
    #[tactic(auto, using(crate::proofs::Labelling::alike))]
    fn alike(head: &FrameHead, other: &FrameHead) -> bool {
        head.rate.same(&other.rate)
    }

    fn no_head() -> FrameHead {
        no_head()
    }

    fn none() -> u8 {
        0
    }

    /// A frame has an octet at least.
    fn begin(head: &FrameHead) -> FrameHead {
        FrameHead {
            length: head.length.max(1),
            ..*head
        }
    }

    fn width(head: &FrameHead) -> u8 {
        head.rate.streams()
    }

    fn values(head: &FrameHead) -> usize {
        let symbols = head.rate.symbols(head.length) as usize;
        symbols * (usize::from(head.rate.data_carriers()) * usize::from(head.rate.streams()))
    }

    fn jobs(head: &FrameHead) -> u64 {
        jobs_in(head).max(1)
    }

    fn carries(head: &FrameHead, carrier: u8) -> Carrier {
        kind(&head.rate, carrier)
    }

    fn place(head: &FrameHead, symbol: u32, m: u8) -> usize {
        let carriers = usize::from(head.rate.data_carriers());
        (symbol as usize * carriers + usize::from(m)) * usize::from(head.rate.streams())
    }

    #[inline(always)]
    fn find<G: Gate>(
        head: &FrameHead,
        job: &Job,
        carrier: Carrier,
        gate: &G,
        values: &mut Vec<u8>,
    ) -> Result<u128, AllocError> {
        let found = found_by(gate, job);
        match carrier {
            Carrier::Data(_) => push_labels(values, head.rate.modulation(), &found.vector)?,
            Carrier::Pilot(_) => {}
        }
        Ok(found.distance)
    }

    fn decoder(_: Global) -> Alone {
        Alone::new()
    }

    fn decode(
        alloc: Global,
        head: &FrameHead,
        data_sum: u128,
        pilot_sum: u128,
        kept: &[u8],
        decoder: &mut Alone,
    ) -> Result<FrameResult, AllocError> {
        result_by(alloc, head, data_sum, pilot_sum, kept, decoder)
    }
}

impl LabelKind for HardLabels {
    ghost modulation_in = { λ head. modulation_of head.rate };

    fn modulation(head: &FrameHead) -> Modulation {
        head.rate.modulation()
    }

    fn data_run(head: &FrameHead, carrier: u8) -> u8 {
        data_run(&head.rate, carrier)
    }

    ghost labels = { λ head job as_many. refl };
}

impl TogetherKind for HardLabels {
    /// The codewords of two encoders are decoded in two threads.
    fn decode_together<R: Threads>(
        rt: &R,
        alloc: Global,
        head: &FrameHead,
        data_sum: u128,
        pilot_sum: u128,
        kept: &[u8],
    ) -> Result<FrameResult, AllocError> {
        let mut decoder = TwoThreads::new(rt);
        result_by(alloc, head, data_sum, pilot_sum, kept, &mut decoder)
    }
}

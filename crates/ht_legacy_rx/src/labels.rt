//! Labels of clause 18 frames, as what is kept of their jobs.
ghost use Rattle.std.specs.Prelude.{◌≡◌, ◌^◌, ◌<◌, ◌≤◌, IsTrue};
ghost use Rattle.ht_clause18.specs.Carriers.{carrier_of};
ghost use Rattle.ht_clause18.specs.Rates.{modulation_of};
ghost use Rattle.ht_legacy_rx.specs.Folding.{IsWithinLimits, with_octets};
ghost use Rattle.ht_legacy_rx.specs.Results.{first_label, legacy_plan, result_of};
ghost use Rattle.ht_legacy_rx.specs.Labelling.{one_label};

use crate::data_runs::data_run;
use ht_clause18::{LegacyRate, legacy_carrier};
use ht_eights::{LabelKind, found_by};
use ht_feed::Gate;
use ht_frames::{Kind, TogetherKind};
use ht_legacy_blocks::LegacyFrameHead;
use ht_legacy_inverse::legacy_decode_frame;
use ht_metric::{Job, Vector};
use ht_rate::{Carrier, Modulation};
use ht_results::{FrameResult, label_for, same_labels};
use std::alloc::{AllocError, Global};

/// The most octets of a frame.
const MOST: u16 = 4095;

/// The subcarriers of a symbol.
const CARRIERS: u8 = 52;

/// The labels of a symbol.
const LABELS: u8 = 48;

/// The kind of clause 18 frames whose labels are kept, one octet for each job on a data subcarrier.
#[derive(Clone, Copy, Debug, Drop)]
pub struct LegacyLabels;

// What a subcarrier carries. Behind those of a symbol there would be data.
#[tactic(auto, using(crate::proofs::Indices::beyond))]
fn kind(carrier: u8) -> Carrier
    ensures { result ≡ carrier_of carrier }
{
    if carrier < CARRIERS {
        legacy_carrier(carrier)
    } else {
        Carrier::Data(carrier - 4)
    }
}

// The label of the one stream of a vector.
fn vector_label(modulation: Modulation, vector: &Vector) -> u8
    ensures { result ≡ first_label modulation vector.now }
{
    if vector.len() == 0 {
        return 0;
    }
    label_for(modulation, vector.point(1))
}

// Whether both heads are the same, as `==` says too.
fn same_heads(head: &LegacyFrameHead, other: &LegacyFrameHead) -> bool
    ensures { IsTrue result → head.now ≡ other.now }
{
    *head == *other
}

// Whether both rates are the same, as `==` says too.
fn same_rates(rate: LegacyRate, other: LegacyRate) -> bool
    ensures { IsTrue result → rate ≡ other }
{
    rate == other
}

impl Kind for LegacyLabels {
    type Head = LegacyFrameHead;

    type Value = u8;

    type Result = FrameResult;

    // Nothing stays from one frame to the next.
    type Decoder = ();

    ghost plan = { legacy_plan };

    ghost begins = { with_octets };

    ghost fits = { IsWithinLimits };

    ghost result_of = { result_of };

    ghost length_of = { λ head. head.length };

    fn octets(head: &LegacyFrameHead) -> u16 {
        head.length
    }

    fn same_head(head: &LegacyFrameHead, other: &LegacyFrameHead) -> bool {
        same_heads(head, other)
    }

    fn same_kept(kept: &[u8], other: &[u8]) -> bool {
        same_labels(kept, other)
    }

    #[tactic(auto, using(crate::proofs::Taking::alike))]
    fn alike(head: &LegacyFrameHead, other: &LegacyFrameHead) -> bool {
        same_rates(head.rate, other.rate)
    }

    fn no_head() -> LegacyFrameHead {
        LegacyFrameHead {
            frame: 0,
            rate: LegacyRate::Mbit6,
            length: 1,
        }
    }

    fn none() -> u8 {
        0
    }

    fn begin(head: &LegacyFrameHead) -> LegacyFrameHead {
        LegacyFrameHead {
            length: head.length.min(MOST).max(1),
            ..*head
        }
    }

    fn width(_: &LegacyFrameHead) -> u8 {
        1
    }

    fn values(head: &LegacyFrameHead) -> usize {
        head.rate.symbols(head.length) as usize * usize::from(LABELS)
    }

    fn jobs(head: &LegacyFrameHead) -> u64 {
        u64::from(head.rate.symbols(head.length)) * u64::from(CARRIERS)
    }

    fn carries(_: &LegacyFrameHead, carrier: u8) -> Carrier {
        kind(carrier)
    }

    fn place(_: &LegacyFrameHead, symbol: u32, m: u8) -> usize {
        symbol as usize * usize::from(LABELS) + usize::from(m)
    }

    #[inline(always)]
    fn find<G: Gate>(
        head: &LegacyFrameHead,
        job: &Job,
        carrier: Carrier,
        gate: &G,
        values: &mut Vec<u8>,
    ) -> Result<u128, AllocError> {
        let found = found_by(gate, job);
        if let Carrier::Data(_) = carrier {
            values.push(vector_label(head.rate.modulation(), &found.vector))?;
        }
        Ok(found.distance)
    }

    fn decoder(_: Global) {}

    fn decode(
        alloc: Global,
        head: &LegacyFrameHead,
        data_sum: u128,
        pilot_sum: u128,
        kept: &[u8],
        _: &mut (),
    ) -> Result<FrameResult, AllocError> {
        let decoded = legacy_decode_frame(alloc, head.rate, head.length, kept)?;
        Ok(FrameResult::of(head.frame, data_sum, pilot_sum, decoded))
    }
}

impl LabelKind for LegacyLabels {
    ghost modulation_in = { λ head. modulation_of head.rate };

    fn modulation(head: &LegacyFrameHead) -> Modulation {
        head.rate.modulation()
    }

    fn data_run(_: &LegacyFrameHead, carrier: u8) -> u8 {
        data_run(carrier)
    }

    ghost labels = { one_label };
}

/// One codeword, decoded in one thread.
impl TogetherKind for LegacyLabels {}

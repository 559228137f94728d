//! The weights of frames, as a kind of frames.
ghost use Rattle.std.specs.Prelude.{◌≡◌, ◌*◌, ◌≤◌, length, IfOk, IsTrue};
ghost use Rattle.ht_results.specs.Captured.{with_octets};
ghost use Rattle.ht_results.specs.Plans.{SoFar};
ghost use Rattle.ht_rate.specs.Rates.{label_bits_of};
ghost use Rattle.ht_inverse.specs.Received.{labels_in_frame};
ghost use Rattle.ht_soft_rx.specs.Jobs.{weight_plan, weights_come_to};
ghost use Rattle.ht_soft_rx.specs.Results.{result_of};

use crate::near_kind::NearKind;
use crate::soft_result::SoftResult;
use crate::weighing::{push_weights, weights_of_job};
use ht_capture::FrameHead;
use ht_feed::{Gate, detect};
use ht_frames::{Kind, TogetherKind};
use ht_metric::Job;
use ht_rate::Carrier;
use ht_results::{jobs_in, kind, no_head, same_head as same_heads};
use ht_soft::soft_frame;
use std::alloc::{AllocError, Global};

/// The weights of the label bits of a capture's frames, four octets each, in the order symbol, data subcarrier, stream, bit.
#[derive(Clone, Copy, Debug, Drop)]
pub struct Weights;

// Whether two lists have the same weights.
fn same_weights(weights: &[i32], other: &[i32]) -> bool
    ensures { IsTrue result → weights.now ≡ other.now }
{
    weights == other
}

// What a frame with these weights comes to. The only error is lack of memory.
#[tactic(auto, unfolding(crate::specs::Results::result_of))]
fn decoded(alloc: Global, head: &FrameHead, weights: &[i32]) -> Result<SoftResult, AllocError>
    requires some { 1 ≤ head.now.length }
    requires all { length weights.now ≡ labels_in_frame head.now.rate head.now.length * label_bits_of head.now.rate }
    ensures { IfOk result (λ r. r ≡ result_of head.now weights.now) }
{
    let decoded = soft_frame(alloc, &head.rate, head.length, head.erased, weights)?;
    Ok(SoftResult {
        frame: head.frame,
        cost: decoded.cost,
        outcome: decoded.outcome,
    })
}

impl Kind for Weights {
    type Head = FrameHead;

    type Value = i32;

    type Result = SoftResult;

    // Nothing stays from one frame to the next.
    type Decoder = ();

    ghost plan = { weight_plan };

    ghost begins = { with_octets };

    ghost fits = { λ head. 1 ≤ head.length };

    ghost result_of = { weights_come_to };

    ghost length_of = { λ head. head.length };

    fn octets(head: &FrameHead) -> u16 {
        head.length
    }

    fn same_head(head: &FrameHead, other: &FrameHead) -> bool {
        same_heads(head, other)
    }

    fn same_kept(kept: &[i32], other: &[i32]) -> bool {
        same_weights(kept, other)
    }

    fn alike(head: &FrameHead, other: &FrameHead) -> bool {
        head.rate.same(&other.rate)
    }

    fn no_head() -> FrameHead {
        no_head()
    }

    fn none() -> i32 {
        0
    }

    fn begin(head: &FrameHead) -> FrameHead {
        FrameHead {
            length: head.length.max(1),
            ..*head
        }
    }

    fn width(head: &FrameHead) -> u8 {
        weights_of_job(head)
    }

    fn values(head: &FrameHead) -> usize {
        let symbols = head.rate.symbols(head.length) as usize;
        let of_job = usize::from(weights_of_job(head));
        symbols * (usize::from(head.rate.data_carriers()) * of_job)
    }

    fn jobs(head: &FrameHead) -> u64 {
        jobs_in(head).max(1)
    }

    fn carries(head: &FrameHead, carrier: u8) -> Carrier {
        kind(&head.rate, carrier)
    }

    fn place(head: &FrameHead, symbol: u32, m: u8) -> usize {
        let carriers = usize::from(head.rate.data_carriers());
        (symbol as usize * carriers + usize::from(m)) * usize::from(weights_of_job(head))
    }

    fn find<G: Gate>(
        head: &FrameHead,
        job: &Job,
        carrier: Carrier,
        gate: &G,
        values: &mut Vec<i32>,
    ) -> Result<u128, AllocError> {
        let number = job.number();
        gate.enter(number);
        let distance = match carrier {
            Carrier::Data(_) => push_weights(head, job, None, values),
            Carrier::Pilot(_) => Ok(detect(job).distance),
        };
        gate.leave(number);
        distance
    }

    fn decoder(_: Global) {}

    #[tactic(auto, using(crate::proofs::Widths::weights_count))]
    fn decode(
        alloc: Global,
        head: &FrameHead,
        _: u128,
        _: u128,
        kept: &[i32],
        _: &mut (),
    ) -> Result<SoftResult, AllocError> {
        decoded(alloc, head, kept)
    }
}

impl TogetherKind for Weights {}

impl NearKind for Weights {
    fn find_near(
        head: &FrameHead,
        job: &Job,
        carrier: Carrier,
        least: Option<u64>,
        values: &mut Vec<i32>,
    ) -> Result<u128, AllocError> {
        match carrier {
            Carrier::Data(_) => push_weights(head, job, least, values),
            Carrier::Pilot(_) => Ok(detect(job).distance),
        }
    }
}

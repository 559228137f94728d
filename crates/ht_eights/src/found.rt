//! What is found for a job by itself.
ghost use Rattle.std.specs.Prelude.{◌≡◌, ◌^◌, ◌<◌};
ghost use Rattle.ht_metric.specs.Jobs.{near};

use ht_feed::Gate;
use ht_frames::run_gated;
use ht_metric::{Found, Job};
use ht_rounding::find_only;

/// The first nearest vector of a job, and its squared distance, below 2^66: found between the two calls of the gate, or at once
/// where neither does anything and the job has one vector, as on a pilot (IEEE Std 802.11-2012, clause 20.3.11.10).
#[inline(always)]
pub fn found_by<G: Gate>(gate: &G, job: &Job) -> Found
    ensures found { result ≡ near job.now }
    ensures below { result.distance < 2 ^ 66 }
{
    if gate.is_open() {
        if let Some(found) = find_only(job) {
            return found;
        }
    }
    run_gated(gate, job)
}

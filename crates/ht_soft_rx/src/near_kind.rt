//! Kinds of frames that find a job's values sooner where its least distance is known.
ghost use Rattle.std.specs.Prelude.{◌≡◌, ◌^◌, ◌<◌, ◌++◌, IfOk, IfSome, OnOk};
ghost use Rattle.ht_metric.specs.Jobs.{near};
ghost use Rattle.ht_frames.specs.Tallies.{kept_as};

use ht_frames::Kind;
use ht_metric::Job;
use ht_rate::Carrier;
use std::alloc::AllocError;

/// A kind whose values of a job take a search for its nearest vectors first.
pub(crate) trait NearKind: Kind {
    /// Does as [`Kind::find`], without a gate: `least` is the squared distance of the job's first nearest vector, where that is
    /// known.
    fn find_near(
        head: &Self::Head,
        job: &Job,
        carrier: Carrier,
        least: Option<u64>,
        values: &mut Vec<Self::Value>,
    ) -> Result<u128, AllocError>
        requires least { IfSome least (λ d. d ≡ (near job.now).distance) }
        ensures distance { IfOk result (λ d. d ≡ (near job.now).distance) }
        ensures below { IfOk result (λ d. d < 2 ^ 66) }
        ensures kept { OnOk result (values.new.items ≡ values.old.items ++ kept_as Self.plan head.now job.now carrier) };
}

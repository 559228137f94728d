//! Blocks of one job.
ghost use Rattle.std.specs.Prelude.{[], ◌∷◌};
ghost use Rattle.ht_feed.specs.Dues.{AreHits};

use crate::answer::Answer;
use crate::jobs::Jobs;
use ht_metric::{Found, Job, Place};

/// A block of one job.
#[derive(Debug, Drop)]
pub struct OneJob {
    /// The job.
    pub job: Job,
}

impl Jobs for OneJob {
    ghost jobs = { λ b. b.job ∷ [] };

    fn size(&self) -> u16 {
        1
    }

    fn place(&self) -> Place {
        self.job.place()
    }

    fn place_at(&self, _: u16) -> Place {
        self.job.place()
    }

    fn job(&self, _: u16) -> Job {
        self.job.copy()
    }
}

/// The hit of a block of one job: its first nearest vector, with that vector's distance, which is below 2^66. It takes no
/// memory, so none is ever lacking.
#[derive(Clone, Copy, Debug)]
pub struct OneHit {
    /// What was found for the job.
    pub found: Found,
}

impl Answer for OneHit {
    ghost answers = { λ hit jobs. AreHits (hit.found ∷ []) jobs };

    ghost may_lack = { ⊥ };
}

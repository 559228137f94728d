//! A feed that goes over the same jobs again and again.
ghost use Rattle.std.specs.Prelude.{◌≡◌, ◌*◌, ◌+◌, ◌-◌, ◌<◌, length, false, Some};
ghost use Rattle.ht_bench.specs.Rounds.{fresh, shown};

use crate::jobs::JOBS;
use crate::sums::with_hit;
use ht_crew::Feed;
use ht_metric::{Hit, Job};
use std::convert::Infallible;
use std::marker::Model;

/// The same jobs in rounds, numbered through, with a checksum over their hits.
#[derive(Drop)]
pub struct Rounds {
    jobs: Vec<Job>,
    given: u64,
    taken: u64,
    all: u64,
    ended: bool,
    checksum: u64,
}

impl Model for Rounds {
    ghost use Rattle.ht_bench.specs.Rounds.{RoundsView, IsRounds, rounds};

    ghost Value = { RoundsView };

    ghost view = { λ f. rounds f.jobs.items f.given f.taken f.all f.ended };

    ghost invariant = { λ f. IsRounds (rounds f.jobs.items f.given f.taken f.all f.ended) };
}

impl Rounds {
    /// So many rounds of 256 jobs.
    pub fn new(jobs: Vec<Job>, count: u32) -> Rounds
        requires round { length jobs.items ≡ 256 }
        ensures { result ≡ fresh jobs.items (256 * count) }
    {
        Rounds {
            jobs,
            given: 0,
            taken: 0,
            all: JOBS * u64::from(count),
            ended: false,
            checksum: 0,
        }
    }

    /// The checksum over all hits taken, which depends on their order.
    pub fn checksum(&self) -> u64 {
        self.checksum
    }
}

impl Feed for Rounds {
    type Fault = Infallible;

    ghost shown = { shown };

    ghost leads = { λ _ _. Unit {0} };

    fn next(&mut self) -> Result<Option<Job>, Infallible> {
        if self.given == self.all {
            self.ended = true;
            return Ok(None);
        }
        let job = &self.jobs[(self.given % JOBS) as usize];
        let given = Job::new(self.given, job.place(), *job.grid(), *job.system());
        self.given += 1;
        Ok(Some(given))
    }

    fn take(&mut self, hit: Hit) -> Result<(), Infallible> {
        self.checksum = with_hit(self.checksum, &hit);
        self.taken += 1;
        Ok(())
    }

    ghost stays = { λ _. tt };

    ghost goes_on = { λ _ _ _ _ _. tt };
}

//! A feed over a list of jobs, for tests: it fails at the calls that are named, and keeps the hits.
ghost use Rattle.std.specs.Prelude.{◌≡◌, ◌+◌, ◌-◌, ◌^◌, ◌<◌, ◌≤◌};
ghost use Rattle.std.specs.Prelude.{length, take, true, false, Some, slice_get};
ghost use Rattle.std.specs.Prelude.{IfOk, IfErr, IfSome, IfNone, OnOk, OnSome};
ghost use Rattle.ht_crew.specs.Feeds.{GivesJob, EndsJobs, TakesHit, Fails, GivesAsBefore};
ghost use Rattle.ht_crew.specs.Lists.{AreNumbered, FailsAsNamed, Listed, IsListed, fresh, called, gave, ended, took, shown, TakesInTurn};
ghost use Rattle.ht_crew.specs.Turns.{stays, goes_on};

use crate::feed::Feed;
use crate::list_fault::ListFault;
use ht_metric::{Hit, Job};
use std::alloc::{AllocError, Global};
use std::marker::Model;

/// Jobs in memory. The calls of `next` and `take` are counted together from 0; those that are named to fail change
/// neither list and answer their number.
#[derive(Drop)]
pub struct ListFeed {
    jobs: Vec<Job>,
    given: usize,
    hits: Vec<Hit>,
    failing: Vec<u64>,
    calls: u64,
    ended: bool,
    faults: u64,
    failed: Option<ListFault>,
}

impl Model for ListFeed {
    ghost use Rattle.std.specs.Prelude.{◌≤◌, vec_len, vec_capacity};
    ghost use Rattle.ht_crew.specs.Lists.{Listed, IsListed, listed};

    ghost Value = { Listed };

    ghost view = { λ s. listed s.jobs.items s.given s.hits.items s.failing.items s.calls s.ended s.faults s.failed };

    ghost invariant = { λ s. IsListed (listed s.jobs.items s.given s.hits.items s.failing.items s.calls s.ended s.faults s.failed)
        × (vec_len s.jobs ≤ vec_capacity s.hits) };
}

impl ListFeed {
    /// A feed of these jobs, of which job k has the number k, whose calls of these numbers fail. It takes the
    /// memory for all hits, so that no later call takes any.
    pub fn new(alloc: Global, jobs: Vec<Job>, failing: Vec<u64>) -> Result<ListFeed, AllocError>
        requires numbered { AreNumbered jobs.items }
        ensures { IfOk result (λ feed. feed ≡ fresh jobs.items failing.items) }
    {
        let hits = Vec::with_capacity(alloc, jobs.len())?;
        Ok(ListFeed {
            jobs,
            given: 0,
            hits,
            failing,
            calls: 0,
            ended: false,
            faults: 0,
            failed: None,
        })
    }

    /// The hits taken, in the order of the jobs.
    pub fn hits(&self) -> &[Hit]
        ensures { result.now ≡ self.now.hits }
    {
        self.hits.as_slice()
    }

    // Counts a call, and refuses it where its number is to fail.
    fn call(&mut self) -> Result<(), ListFault>
        ensures fails { FailsAsNamed result self.old self.new }
        ensures counted { OnOk result (self.new ≡ called self.old) }
        ensures later { self.old.faults ≤ self.new.faults }
        ensures listed { IsListed self.new }
        ensures few { length self.new.jobs < 2 ^ 63 }
    {
        let call = self.calls;
        self.calls = call.saturating_add(1);
        if !self.failing.contains(&call) {
            return Ok(());
        }
        let fault = ListFault { call };
        self.faults = self.faults.saturating_add(1);
        self.failed = Some(fault);
        Err(fault)
    }
}

impl Feed for ListFeed {
    type Fault = ListFault;

    ghost shown = { shown };

    ghost leads = { TakesInTurn };

    fn next(&mut self) -> Result<Option<Job>, ListFault>
        requires running { (shown self.old).ended ≡ false }
        requires few { length (shown self.old).due < 4096 }
        ensures job { IfOk result (λ given. IfSome given (GivesJob (shown self.old) (shown self.new))) }
        ensures none { IfOk result (λ given. IfNone given (EndsJobs (shown self.old) (shown self.new))) }
        ensures fault { IfErr result (Fails (shown self.old) (shown self.new)) }
        ensures later { (shown self.old).faults ≤ (shown self.new).faults }
        ensures bound { (shown self.new).count + (shown self.new).more < 2 ^ 64 - 1 }
        ensures leads { TakesInTurn self.old self.new }

        ensures fails { FailsAsNamed result self.old self.new }
        ensures gave { IfOk result (λ given. OnSome given (self.new ≡ gave self.old)) }
        ensures ended { IfOk result (λ given. IfNone given (self.new ≡ ended self.old)) }
    {
        self.call()?;
        let Some(job) = self.jobs.get(self.given) else {
            self.ended = true;
            return Ok(None);
        };
        self.given += 1;
        Ok(Some(job.copy()))
    }

    fn take(&mut self, hit: Hit) -> Result<(), ListFault>
        requires first { slice_get (shown self.old).due 0 ≡ Some hit.job }
        ensures takes { OnOk result (TakesHit (shown self.old) (shown self.new)) }
        ensures fault { IfErr result (Fails (shown self.old) (shown self.new)) }
        ensures as_before { GivesAsBefore (shown self.old) (shown self.new) }
        ensures later { (shown self.old).faults ≤ (shown self.new).faults }
        ensures leads { TakesInTurn self.old self.new }

        ensures fails { FailsAsNamed result self.old self.new }
        ensures took { OnOk result (self.new ≡ took self.old hit) }
    {
        self.call()?;
        match self.hits.push(hit) {
            Ok(()) => Ok(()),
            Err(_) => unreachable!(),
        }
    }

    ghost stays = { stays };

    ghost goes_on = { goes_on };
}

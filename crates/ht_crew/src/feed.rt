//! Where jobs come from and hits go.
ghost use Rattle.std.specs.Prelude.{◌≡◌, ◌+◌, ◌-◌, ◌^◌, ◌<◌, ◌≤◌, length, false, Some};
ghost use Rattle.std.specs.Prelude.{slice_get, IfOk, IfErr, IfSome, IfNone, OnOk};
ghost use Rattle.ht_crew.specs.Feeds.{FeedView, GivesJob, EndsJobs, TakesHit, Fails, GivesAsBefore};

use ht_metric::{Hit, Job};

/// A source of jobs that takes back their hits, in the order of the jobs.
///
/// Jobs are numbered from 0. A job that was given is due until its hit is taken. What each call did shows in
/// one record, [`shown`](Feed): how many jobs were given, which are due, which are still to come where this
/// is known, a number of jobs beyond which none comes, whether it has ended, how often it failed and what it
/// answered last when it failed.
///
/// Beyond this a feed says by a relation of its own, `leads`, what it does with the hits and with the devices behind
/// it: every call leads from the state before it to the state after it. So whoever hands a feed to a drive knows
/// afterwards that the state at the call leads to the one that comes back.
pub trait Feed {
    /// What a call that fails answers.
    type Fault: Drop;

    /// What is seen of the feed.
    ghost shown: { Self → FeedView Self.Fault };

    /// The calls of the feed may lead from the one state to the other.
    ghost leads: { Self → Self → Type 0 };

    /// Gives the next job, or none where no job comes any more. The feed hasn't ended, and fewer than 4096 jobs
    /// are due. A call that fails is counted and gives nothing.
    fn next(&mut self) -> Result<Option<Job>, Self::Fault>
        requires running { (shown self.old).ended ≡ false }
        requires few { length (shown self.old).due < 4096 }
        ensures job { IfOk result (λ given. IfSome given (GivesJob (shown self.old) (shown self.new))) }
        ensures none { IfOk result (λ given. IfNone given (EndsJobs (shown self.old) (shown self.new))) }
        ensures fault { IfErr result (Fails (shown self.old) (shown self.new)) }
        ensures later { (shown self.old).faults ≤ (shown self.new).faults }
        ensures bound { (shown self.new).count + (shown self.new).more < 2 ^ 64 - 1 }
        ensures leads { leads self.old self.new };

    /// Takes the hit of the first job due. A call that fails is counted and leaves the job due.
    fn take(&mut self, hit: Hit) -> Result<(), Self::Fault>
        requires first { slice_get (shown self.old).due 0 ≡ Some hit.job }
        ensures takes { OnOk result (TakesHit (shown self.old) (shown self.new)) }
        ensures fault { IfErr result (Fails (shown self.old) (shown self.new)) }
        ensures as_before { GivesAsBefore (shown self.old) (shown self.new) }
        ensures later { (shown self.old).faults ≤ (shown self.new).faults }
        ensures leads { leads self.old self.new };

    /// Every state leads to itself.
    ghost stays: { (a : Self) → leads a a };

    /// What a state leads to leads on.
    ghost goes_on: { (a b c : Self) → leads a b → leads b c → leads a c };
}

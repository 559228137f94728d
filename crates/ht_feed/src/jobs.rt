//! What stands for a list of jobs.
ghost use Rattle.std.specs.Prelude.{◌≡◌, ◌^◌, ◌<◌, ◌≤◌, List, Some, length, slice_get};
ghost use Rattle.ht_metric.specs.Jobs.{JobView};
ghost use Rattle.ht_feed.specs.Dues.{IsPlaceAt, StartsAt};

use ht_metric::{Job, Place};

/// What stands for a list of jobs, such as those of some subcarriers of one symbol.
///
/// Whoever runs a block asks it for one job after another; a block whose jobs share most of what they hold, as those of
/// a frame share its triangles, need not keep any of them whole.
pub trait Jobs {
    /// The jobs that it stands for, in their order.
    ghost jobs: { Self → List JobView };

    /// How many they are.
    fn size(&self) -> u16
        requires { length (jobs self.now) < 2 ^ 16 }
        ensures { result ≡ length (jobs self.now) };

    /// Where in the input the first of them comes from.
    fn place(&self) -> Place
        requires { 1 ≤ length (jobs self.now) }
        ensures { StartsAt result (jobs self.now) };

    /// Where in the input the job comes from that has `at` others before it.
    fn place_at(&self, at: u16) -> Place
        requires { at < length (jobs self.now) }
        ensures { IsPlaceAt result (jobs self.now) at }
    {
        self.job(at).place()
    }

    /// The job that has `at` others before it.
    fn job(&self, at: u16) -> Job
        requires { at < length (jobs self.now) }
        ensures { Some result ≡ slice_get (jobs self.now) at };
}

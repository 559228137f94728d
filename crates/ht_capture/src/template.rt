//! Jobs without samples.
ghost use Rattle.std.specs.Prelude.{◌≡◌, ◌↔◌, IsTrue};
ghost use Rattle.ht_capture.specs.Presents.{present_of};

use ht_metric::Job;
use ht_rate::Carrier;

/// What the jobs of a subcarrier share in all symbols of its frame.
#[derive(Debug, Drop)]
pub struct Template {
    /// The subcarrier's job before anything was heard on it: its number, its symbol and its samples are 0.
    pub job: Job,
    /// What the subcarrier carries.
    pub kind: Carrier,
}

impl Template {
    /// Whether both are of the same subcarrier, with the same triangle.
    #[inline]
    pub fn is_like(&self, other: &Template) -> bool
        ensures { IsTrue result ↔ (present_of self.now.job ≡ present_of other.now.job) }
    {
        let same = self.job.place().carrier == other.job.place().carrier;
        same & self
            .job
            .system()
            .triangle()
            .same(other.job.system().triangle())
    }
}

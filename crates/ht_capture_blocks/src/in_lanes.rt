//! Blocks whose jobs are labelled eight at a time.
ghost use Rattle.std.specs.Prelude.{◌+◌, ◌≤◌, length, unwrap_or};
ghost use Rattle.ht_map.specs.Gray.{label_of};
ghost use Rattle.ht_rounding.specs.Labels.{AreLabelledFrom};

use ht_feed::Jobs;
use ht_rate::Modulation;
use ht_rounding::Labelled;

/// A block that says the labels of eight of its jobs at once.
pub trait InLanes: Jobs {
    /// The labels of the first nearest vectors of eight jobs, from the one on that has `at` others before it, and their squared
    /// distances, in the lanes that are sure (IEEE Std 802.11-2012, clause 20.3.11.9). No clause tells which lanes are: a body that
    /// is never sure would be proved too, and only be slow.
    fn labels(&self, modulation: Modulation, at: u16) -> Labelled
        requires { at + 8 ≤ length (Self.jobs self.now) }
        ensures some { 1 ≤ result.streams }
        ensures few { result.streams ≤ 4 }
        ensures labels { AreLabelledFrom (λ p. unwrap_or (label_of modulation p) 0) (Self.jobs self.now) at result };
}

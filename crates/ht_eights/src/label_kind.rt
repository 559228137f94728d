//! Kinds of frames whose labels lanes can say.
ghost use Rattle.std.specs.Prelude.{◌≡◌, length, map};
ghost use Rattle.ht_metric.specs.Jobs.{JobView, near};
ghost use Rattle.ht_rate.specs.declared.kinds.Modulation.{Modulation as ModulationValue};
ghost use Rattle.ht_results.specs.Folding.{label_at};
ghost use Rattle.ht_eights.specs.DataRuns.{IsDataRun};

use ht_frames::Kind;
use ht_rate::Modulation;

/// A kind of frames of which labels are kept, one for each point of a job's first nearest vector.
pub trait LabelKind: Kind<Value = u8> {
    /// The modulation of the data subcarriers.
    ghost modulation_in: { Self.Head → ModulationValue };

    /// The modulation of a frame's data subcarriers.
    fn modulation(head: &Self::Head) -> Modulation
        ensures { result ≡ modulation_in head.now };

    /// How many data subcarriers stand one behind another from this one on, numbered one after another. No clause says that there
    /// are no more: a body that tells of one at most would be proved too, and only be slow.
    fn data_run(head: &Self::Head, carrier: u8) -> u8
        ensures { IsDataRun (Self.plan.kind head.now) carrier result };

    /// What is kept of a job are the labels of its first nearest vector, where that has as many points as labels are kept.
    ghost labels: { (head : Self.Head) (job : JobView) → length (near job).vector ≡ Self.plan.width head
        → Self.plan.values head job ≡ map (label_at (modulation_in head)) (near job).vector };
}

//! The marks of a walk.
ghost use Rattle.std.specs.Prelude.{◌≡◌, [], ◌++◌, ⊤, List, Bool, OnOk};
ghost use Rattle.ht_metric.specs.Jobs.{IsJob};
ghost use Rattle.ht_sphere.specs.Coordinates.{from_last};
ghost use Rattle.ht_witness.specs.Marking.{marks_of, marks_through};

use crate::marks::Marks;
use crate::visitor::Visitor;
use crate::walk::walk;
use ht_metric::Job;
use std::alloc::AllocError;

// Puts the marks of a job's walk in the place of those that are there, in their memory. A level is cut where its partial
// distance is above this one.
pub(crate) fn write(job: &Job, distance: u128, marks: &mut Marks) -> Result<(), AllocError>
    ensures written { OnOk result (marks.new ≡ marks_of distance (from_last job.now.system job.now.grid) [] 0) }
    ensures job { IsJob job.now }
{
    marks.clear();
    walk(job, &Marking { distance }, marks)?;
    Ok(())
}

// What marks each suffix, where those are cut whose partial distance is above this one.
#[derive(Drop)]
pub(crate) struct Marking {
    pub(crate) distance: u128,
}

impl Visitor for Marking {
    // The marks so far.
    type State = Marks;

    type Break = AllocError;

    ghost Outcome = { List Bool };

    ghost outcome = { λ marking marks todo. marks ++ marks_through marking.distance todo };

    ghost stops = { λ _ _ _. ⊤ };

    fn visit(
        &self,
        _ahead: usize,
        _levels: &[i8],
        partial: u128,
        marks: &mut Marks,
    ) -> Result<bool, AllocError> {
        if partial > self.distance {
            marks.push(false)?;
            return Ok(false);
        }
        marks.push(true)?;
        Ok(true)
    }
}

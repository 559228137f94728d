//! What follows from the definitions, for every job. None of these functions does anything.
ghost use Rattle.std.specs.Prelude.{◌≡◌, IsTrue, List, length};
ghost use Rattle.ht_nearest.specs.Nearest.{Enumerates};
ghost use Rattle.ht_pam.specs.Grids.{IsGrid};
ghost use Rattle.ht_pam.specs.declared.axes.Axes.{Axes};
ghost use Rattle.ht_pam.specs.declared.point.Point.{Point};
ghost use Rattle.ht_metric.specs.Jobs.{JobView, IsNear, found_at, near};
ghost use Rattle.ht_metric.specs.Noiseless.{IsNoiseless, IsRegular};
ghost use Rattle.ht_metric.specs.Vectors.{is_in, vectors};

/// A vector that is first nearest is the one that a trial of all vectors gives.
pub fn near_is()
    ensures { (job : JobView) (vector : List Point) → IsNear job vector → near job ≡ found_at job vector }
{}

/// What a trial of all vectors gives is first nearest.
pub fn is_near()
    ensures { (job : JobView) → IsGrid job.grid → IsNear job (near job).vector }
{}

/// The vectors that are tried are those of the grid.
pub fn enumerates()
    ensures { (grid : List Axes) → Enumerates (is_in grid) (vectors grid) }
{}

/// What is received without noise is detected as it was sent, at distance 0, where no diagonal is 0.
pub fn noiseless_is_near()
    ensures near { (job : JobView) (vector : List Point) → length job.grid ≡ length job.system
        → IsRegular job.system → IsNoiseless job.system vector → IsTrue (is_in job.grid vector) → IsNear job vector }
    ensures found { (job : JobView) (vector : List Point) → length job.grid ≡ length job.system
        → IsRegular job.system → IsNoiseless job.system vector → IsTrue (is_in job.grid vector)
        → near job ≡ record { vector = vector; distance = 0 } }
{}

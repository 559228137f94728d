//! What a detector answers.
ghost use Rattle.std.specs.Prelude.{◌≡◌, ◌^◌, ◌<◌};
ghost use Rattle.ht_metric.specs.Distance.{distance_of};
ghost use Rattle.ht_metric.specs.Jobs.{IsNear, near};

use crate::found::Found;
use crate::job::Job;
use crate::metric;
use crate::vector::Vector;

/// A job with its first nearest vector and that vector's distance.
///
/// No vector of the job's grid is nearer, and none that comes before it is as near. The distance is below 2^66.
#[derive(Debug, Drop)]
pub struct Hit {
    /// The job.
    pub job: Job,
    /// Its first nearest vector, a point for each spatial stream.
    pub vector: Vector,
    /// The squared distance of that vector.
    pub distance: u128,
    pub ghost near: { IsNear job vector },
    pub ghost far: { distance ≡ distance_of job.system vector },
    pub ghost below: { distance < 2 ^ 66 },
}

impl Hit {
    /// The hit of a job whose first nearest vector is this one, at this distance.
    pub fn of(job: Job, vector: Vector, distance: u128) -> Hit
        requires near { IsNear job vector }
        requires distance { distance ≡ distance_of job.system vector }
        ensures job { result.job ≡ job }
        ensures vector { result.vector ≡ vector }
        ensures distance { result.distance ≡ distance }
    {
        prove_eq!(distance, metric::distance(job.system(), &vector));
        Hit {
            job,
            vector,
            distance,
        }
    }

    /// The hit of a job with what was found for it.
    pub fn join(job: Job, found: Found) -> Hit
        requires found { found ≡ near job }
        ensures job { result.job ≡ job }
        ensures vector { result.vector ≡ found.vector }
        ensures distance { result.distance ≡ found.distance }
    {
        let _grid = job.grid(); // at least one level on each ladder, which only the proof asks for
        Hit::of(job, found.vector, found.distance)
    }

    /// The job that was run.
    pub fn job(&self) -> &Job
        ensures { result.now ≡ self.now.job }
    {
        &self.job
    }

    /// What was found for the job.
    pub fn found(&self) -> Found
        ensures { result ≡ near self.now.job }
    {
        Found {
            vector: self.vector,
            distance: self.distance,
        }
    }

    /// The first nearest vector of the job's grid.
    pub fn vector(&self) -> &Vector
        ensures { result.now ≡ self.now.vector }
    {
        &self.vector
    }

    /// The distance of that vector, below 2^66.
    pub fn distance(&self) -> u128
        ensures value { result ≡ self.now.distance }
        ensures bound { result < 2 ^ 66 }
    {
        self.distance
    }
}

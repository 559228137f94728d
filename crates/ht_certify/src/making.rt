//! The record of a job.
ghost use Rattle.std.specs.Prelude.{◌≡◌, ◌≤◌, ◌-◌, length, take, drop, replicate, OnOk};
ghost use Rattle.ht_pam.specs.Grids.{IsGrid};
ghost use Rattle.ht_metric.specs.Rows.{no_sample};
ghost use Rattle.ht_certify.specs.Certifying.{certificate_of};
ghost use Rattle.ht_certify.specs.Making.{job_on};

use ht_cert::Record;
use ht_metric::{Job, Place, Sample, System, Triangle};
use ht_pam::Grid;
use ht_witness::certify_into;
use std::alloc::AllocError;

const NO_SAMPLE: Sample = Sample { re: 0, im: 0 };

// The samples of one to four rows, in an array whose other places are zero.
fn received(samples: &[Sample]) -> [Sample; 4]
    requires { length samples.now ≤ 4 }
    ensures front { take (length samples.now) result ≡ samples.now }
    ensures unused { drop (length samples.now) result ≡ replicate (4 - length samples.now) no_sample }
{
    match samples {
        [a] => [*a, NO_SAMPLE, NO_SAMPLE, NO_SAMPLE],
        [a, b] => [*a, *b, NO_SAMPLE, NO_SAMPLE],
        [a, b, c] => [*a, *b, *c, NO_SAMPLE],
        [a, b, c, d] => [*a, *b, *c, *d],
        _ => [NO_SAMPLE; 4],
    }
}

/// The job of a triangle with what was received on its rows. It has the number 0, and no place.
pub fn job(grid: &Grid, triangle: &Triangle, samples: &[Sample]) -> Job
    requires good { IsGrid grid.now }
    requires grid { length grid.now ≡ length triangle.now }
    requires rows { length samples.now ≡ length triangle.now }
    ensures { result ≡ job_on grid.now triangle.now samples.now }
{
    let system = System::new(*triangle, received(samples));
    let place = Place {
        frame: 0,
        symbol: 0,
        carrier: 0,
    };
    Job::new(0, place, *grid, system)
}

/// Makes the record of a job in the place of another one, whose modulation it keeps, and in the memory of its marks.
pub fn make(recorded: &mut Record, job: Job) -> Result<(), AllocError>
    ensures made { OnOk result (recorded.new ≡ record { modulation = recorded.old.modulation; job = job; certificate = certificate_of job }) }
    ensures modulation { recorded.new.modulation ≡ recorded.old.modulation }
{
    recorded.job = job;
    certify_into(&recorded.job, &mut recorded.certificate)
}

//! A job with its certificate.
ghost use Rattle.std.specs.Prelude.{◌≡◌, []};

use ht_metric::{Job, Place, Sample, System, Tap, Triangle, Vector};
use ht_pam::{Grid, Ladder};
use ht_rate::Modulation;
use ht_witness::{Certificate, Marks};
use std::alloc::Global;

/// What a record of a file of certificates has.
#[derive(Debug, Drop)]
pub struct Record {
    /// The constellation of each stream of the job.
    pub modulation: Modulation,
    /// The job. It has the number of its record in the file, counted from 0, and no place.
    pub job: Job,
    /// What is claimed for it.
    pub certificate: Certificate,
}

impl Record {
    /// A record into which others are read: any job, and no marks. It takes no memory.
    pub fn empty(alloc: Global) -> Record
        ensures { result.certificate.marks ≡ [] }
    {
        let zero = Ladder::of(1, 0b1);
        let triangle = Triangle::new(1, [0; 4], [Tap { re: 0, im: 0 }; 6]);
        let system = System::new(triangle, [Sample { re: 0, im: 0 }; 4]);
        Record {
            modulation: Modulation::Bpsk,
            job: Job::new(0, Place::default(), Grid::one(zero, zero), system),
            certificate: Certificate {
                vector: Vector::new(),
                distance: 0,
                marks: Marks::from(Vec::new(alloc)),
            },
        }
    }
}

//! The making of a certificate.
ghost use Rattle.std.specs.Prelude.{◌≡◌, ◌<◌, [], length, IfOk, OnOk};
ghost use Rattle.ht_metric.specs.Jobs.{IsNear, near};
ghost use Rattle.ht_sphere.specs.Coordinates.{from_last};
ghost use Rattle.ht_witness.specs.Certificates.{Checked};
ghost use Rattle.ht_witness.specs.Marking.{marks_of};

use crate::certificate::Certificate;
use crate::marking::write;
use crate::marks::Marks;
use ht_metric::{Found, Job, Vector};
use ht_pam::Steps;
use std::alloc::{AllocError, Global};
use std::marker::Brand;
use std::sync::ledger::{Blank, Ledger};

/// Makes the certificate of a job: its first nearest vector, that vector's distance, and the marks of a walk that cuts a
/// level exactly where its partial distance is above that distance.
///
/// The check accepts it. The only refusal is lack of memory.
pub fn certify(job: &Job, alloc: Global) -> Result<Certificate, AllocError>
    ensures found { IfOk result (λ certificate. near job.now ≡ record { vector = certificate.vector; distance = certificate.distance }) }
    ensures marks { IfOk result (λ certificate. certificate.marks
        ≡ marks_of certificate.distance (from_last job.now.system job.now.grid) [] 0) }
    ensures checked { IfOk result (λ certificate. Checked job.now certificate) }
    ensures streams { IfOk result (λ certificate. length certificate.vector ≡ length job.now.system) }
{
    let mut certificate = Certificate {
        vector: Vector::new(),
        distance: 0,
        marks: Marks::from(Vec::new(alloc)),
    };
    certify_into(job, &mut certificate)?;
    Ok(certificate)
}

/// Does as [`certify`], in the place of another certificate and with the memory of its marks: so the marks of one job
/// after another take memory only where there are more of them than ever before. Where memory lacks, nothing is known of
/// what is left there.
pub fn certify_into(job: &Job, certificate: &mut Certificate) -> Result<(), AllocError>
    ensures found { OnOk result (near job.now ≡ record { vector = certificate.new.vector; distance = certificate.new.distance }) }
    ensures marks { OnOk result (certificate.new.marks
        ≡ marks_of certificate.new.distance (from_last job.now.system job.now.grid) [] 0) }
    ensures checked { OnOk result (Checked job.now certificate.new) }
    ensures streams { OnOk result (length certificate.new.vector ≡ length job.now.system) }
{
    let Found { vector, distance } = find::<Brand>(job, Blank::new(1));
    write(job, distance, &mut certificate.marks)?;
    certificate.vector = vector;
    certificate.distance = distance;
    Ok(())
}

// What is found for a job, with the steps of a counter of its own.
fn find<L: Ledger>(job: &Job, blank: Blank) -> Found
    requires name { blank.name ≡ L.name }
    requires parts { blank.parts ≡ L.parts }
    requires some { 0 < blank.parts }
    ensures found { result ≡ near job.now }
    ensures near { IsNear job.now result.vector }
{
    let mut steps = Steps::<L>::new(blank);
    ht_sphere::find(job, &mut steps)
}

//! The check of a certificate.
ghost use Rattle.std.specs.Prelude.{◌≡◌, None, Some, MatchResult, OnOk, OnErr, length};
ghost use Rattle.ht_metric.specs.Distance.{distance_of};
ghost use Rattle.ht_metric.specs.Jobs.{IsJob, IsNear};
ghost use Rattle.ht_witness.specs.Walks.{walk_fault};
ghost use Rattle.ht_witness.specs.Walking.{fault_at};
ghost use Rattle.ht_witness.specs.Certificates.{Checked, claim_of, fault_of, roots};

use crate::certificate::Certificate;
use crate::check_fault::CheckFault;
use crate::claim::Claim;
use crate::flaw::Flaw;
use crate::levels::levels_of;
use crate::off_grid::off_grid;
use crate::walk::walk;
use ht_metric::{Job, distance};

/// Checks a certificate of a job: that its vector is of the grid, that the distance is its own, and that the marks are
/// those of a walk which leaves no better vector out. No search is made and no memory is taken; a mark costs about one
/// level of a search.
///
/// The certificate has as many points as the job has streams. A certificate that is accepted has the job's first nearest
/// vector, whoever made it. Otherwise the fault is that of the lowest stream off the grid, else that of the distance, else
/// the first one of the walk.
pub fn check(job: &Job, certificate: &Certificate) -> Result<(), CheckFault>
    requires { length certificate.now.vector ≡ length job.now.system }
    ensures checked { OnOk result (Checked job.now certificate.now) }
    ensures refused { OnErr result (Checked job.now certificate.now → ⊥) }
    ensures fault { MatchResult result (λ _. fault_of job.now certificate.now ≡ None) (λ fault. fault_of job.now certificate.now ≡ Some fault) }
    ensures near { OnOk result (IsNear job.now certificate.now.vector) }
    ensures distance { OnOk result (certificate.now.distance ≡ distance_of job.now.system certificate.now.vector) }
{
    match fault(job, certificate) {
        None => Ok(()),
        Some(fault) => Err(fault),
    }
}

// The first fault of a certificate.
fn fault(job: &Job, certificate: &Certificate) -> Option<CheckFault>
    requires { length certificate.now.vector ≡ length job.now.system }
    ensures fault { result ≡ fault_of job.now certificate.now }
    ensures job { IsJob job.now }
{
    if let Some(stream) = off_grid(job.grid(), &certificate.vector) {
        return Some(CheckFault::OffGrid(stream));
    }
    let distance = distance(job.system(), &certificate.vector);
    if distance != certificate.distance {
        return Some(CheckFault::WrongDistance(distance));
    }
    fault_of_walk(job, certificate)
}

// The first fault of a certificate's marks.
fn fault_of_walk(job: &Job, certificate: &Certificate) -> Option<CheckFault>
    requires { length certificate.now.vector ≡ length job.now.system }
    ensures { result ≡ walk_fault (claim_of certificate.now) (roots job.now) 0 certificate.now.marks }
{
    let levels = 2 * usize::from(certificate.vector.len());
    let claimed = levels_of(&certificate.vector);
    let marks = certificate.marks.as_slice();
    let claim = Claim {
        claimed: &claimed[..levels],
        distance: certificate.distance,
        marks,
    };
    let mut at = 0;
    if let Err(stop) = walk(job, &claim, &mut at) {
        return Some(fault_at(stop, at as u64));
    }
    if at < marks.len() {
        return Some(CheckFault::Long(at as u64));
    }
    None
}

// The fault of a walk that stops at a mark.
fn fault_at(stop: Flaw, at: u64) -> CheckFault
    ensures { result ≡ fault_at stop at }
{
    match stop {
        Flaw::Ended => CheckFault::Short(at),
        Flaw::Cut => CheckFault::Early(at),
        Flaw::Beaten => CheckFault::Better(at),
    }
}

//! What follows from the definitions, for every job and every certificate. None of these functions does anything.
ghost use Rattle.std.specs.Prelude.{◌≡◌, ◌↔◌, None, length};
ghost use Rattle.ht_metric.specs.Distance.{distance_of};
ghost use Rattle.ht_metric.specs.Jobs.{JobView, IsJob, IsNear};
ghost use Rattle.ht_witness.specs.declared.certificate.Certificate.{Certificate};
ghost use Rattle.ht_witness.specs.Certificates.{Checked, fault_of};

/// A certificate that holds has the first nearest vector of its job, and the distance of that vector.
pub fn checked_is_near()
    ensures near { (job : JobView) (certificate : Certificate) → IsJob job → Checked job certificate → IsNear job certificate.vector }
    ensures distance { (job : JobView) (certificate : Certificate) → Checked job certificate
        → certificate.distance ≡ distance_of job.system certificate.vector }
{}

/// A certificate of as many points as streams holds exactly where it has no fault.
pub fn checked_has_no_fault()
    ensures { (job : JobView) (certificate : Certificate) → length certificate.vector ≡ length job.grid
        → (Checked job certificate ↔ (fault_of job certificate ≡ None)) }
{}

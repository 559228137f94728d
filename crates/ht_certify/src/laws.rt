//! What holds of the certificates of a capture. The function does nothing.
ghost use Rattle.std.specs.Prelude.{ℕ, List, All};
ghost use Rattle.ht_metric.specs.Jobs.{IsJob};
ghost use Rattle.ht_witness.specs.Certificates.{Checked};
ghost use Rattle.ht_certify.specs.Certifying.{certified};

/// The check finds each record of the file good: its job, a grid and a system of as many streams, has the certificate that
/// the record claims for it, so the claimed vector is the job's first nearest one.
pub fn checked()
    ensures { (octets : List ℕ) → All (λ r. IsJob r.job → Checked r.job r.certificate) (certified octets) }
{}

//! What holds of the text of a check. The function does nothing.
ghost use Rattle.std.specs.Prelude.{◌≡◌, ℕ, List, All, length};
ghost use Rattle.ht_fields.specs.Cases.{IsFile};
ghost use Rattle.ht_witness.specs.Certificates.{Checked};
ghost use Rattle.ht_cert.specs.declared.record.Record.{Record};
ghost use Rattle.ht_cert.specs.Formats.{certificates};
ghost use Rattle.ht_certify.specs.Checks.{all_yes_text, check_text};

/// The text of a file whose certificates all hold is `job K yes` for each, and then `end J jobs yes J`.
pub fn accepted()
    ensures { (octets : List ℕ) (records : List Record) → IsFile certificates octets records
        → All (λ r. Checked r.job r.certificate) records → check_text octets ≡ all_yes_text (length records) }
{}

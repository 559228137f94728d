//! The line of a record.
ghost use Rattle.std.specs.Prelude.{◌≡◌, ◌<◌, ◌++◌, IfOk, OnErr, OnOk, if◌then◌else◌, length, string_bytes};
ghost use Rattle.ht_certify.specs.Checks.{check_line, yes_count};

use ht_cert::Record;
use ht_text::{push_no_line, push_yes_line};
use ht_witness::check;
use std::alloc::AllocError;

/// Appends the line of a record with this number to lines that wait, which are fewer octets than a block has, and answers
/// whether its certificate holds.
///
/// Only memory can fail; `text` is then as it was.
#[tactic(auto, unfolding(crate::specs::Checks::check_line, crate::specs::Checks::yes_count))]
pub(crate) fn push_line(
    text: &mut String,
    number: u64,
    recorded: &Record,
) -> Result<bool, AllocError>
    requires points { length recorded.now.certificate.vector ≡ length recorded.now.job.system }
    requires few { length (string_bytes text.old) < 16384 }
    ensures line { OnOk result (string_bytes text.new ≡ string_bytes text.old ++ check_line number recorded.now) }
    ensures right { IfOk result (λ is_right. (if is_right then 1 else 0) ≡ yes_count recorded.now) }
    ensures err { OnErr result (string_bytes text.new ≡ string_bytes text.old) }
{
    match check(&recorded.job, &recorded.certificate) {
        Ok(()) => {
            push_yes_line(text, number)?;
            Ok(true)
        }
        Err(fault) => {
            push_no_line(text, number, fault.name(), fault.at())?;
            Ok(false)
        }
    }
}

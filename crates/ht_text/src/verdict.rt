//! The lines of certificates that were checked.
ghost use Rattle.std.specs.Prelude.{◌≡◌, ◌+◌, ◌++◌, IfOk, OnErr, OnOk, length, string_bytes};
ghost use Rattle.ht_text.specs.Lines.{checked_text, no_text, yes_text};

use crate::room::{push, push_with};
use std::alloc::AllocError;

/// Room for a line with the largest numbers, but for the name of what is wrong.
const LONGEST: usize = 72;

/// Appends to `text` the line `job N yes`: the certificate with this number holds.
///
/// Only memory can fail; `text` is then as it was.
#[tactic(auto, unfolding(crate::specs::Lines::yes_text))]
pub fn push_yes_line(text: &mut String, number: u64) -> Result<(), AllocError>
    ensures ok { OnOk result (string_bytes text.new ≡ string_bytes text.old ++ yes_text number) }
    ensures err { OnErr result (string_bytes text.new ≡ string_bytes text.old) }
{
    text.reserve(LONGEST)?;
    push_with(text, "job ", number);
    push(text, " yes\n");
    Ok(())
}

/// Appends to `text` the line `job N no NAME at M`: the certificate with this number doesn't hold. `name` says what is
/// wrong with it, and `at` is the number that goes with that.
///
/// Only memory can fail; `text` is then as it was.
#[tactic(auto, unfolding(crate::specs::Lines::no_text))]
pub fn push_no_line(text: &mut String, number: u64, name: &str, at: u128) -> Result<(), AllocError>
    ensures ok { OnOk result (string_bytes text.new ≡ string_bytes text.old ++ no_text number name.now at) }
    ensures err { OnErr result (string_bytes text.new ≡ string_bytes text.old) }
{
    text.reserve(room_for(name)?)?;
    push_with(text, "job ", number);
    push(text, " no ");
    push(text, name);
    push_with(text, " at ", at);
    push(text, "\n");
    Ok(())
}

// Room for a line with this name. A name whose line is longer than a number can count has no room in any memory.
fn room_for(name: &str) -> Result<usize, AllocError>
    ensures { IfOk result (λ room. room ≡ LONGEST + length name.now) }
{
    match name.len().checked_add(LONGEST) {
        Some(room) => Ok(room),
        None => Err(AllocError),
    }
}

/// Appends to `text` the line `end J jobs yes Y`: the input was a whole file of J certificates, of which Y hold.
///
/// Only memory can fail; `text` is then as it was.
#[tactic(auto, unfolding(crate::specs::Lines::checked_text))]
pub fn push_checked_line(text: &mut String, jobs: u64, right: u64) -> Result<(), AllocError>
    ensures ok { OnOk result (string_bytes text.new ≡ string_bytes text.old ++ checked_text jobs right) }
    ensures err { OnErr result (string_bytes text.new ≡ string_bytes text.old) }
{
    text.reserve(LONGEST)?;
    push_with(text, "end ", jobs);
    push_with(text, " jobs yes ", right);
    push(text, "\n");
    Ok(())
}

//! The lines that begin an output, end it, or stand for it.
ghost use Rattle.std.specs.Prelude.{◌≡◌, IfOk};
ghost use Rattle.ht_text.specs.Lines.{capture_text, end_text, refused_text, usage_text};

use std::alloc::{AllocError, Global};

/// The line `capture K`: what follows is of the capture with this number, counted from 0. The only error is lack of memory.
#[tactic(auto, unfolding(crate::specs::Lines::capture_text))]
pub fn capture_line(alloc: Global, number: u8) -> Result<Vec<u8>, AllocError>
    ensures { IfOk result (λ v. v.items ≡ capture_text number) }
{
    let text = format!(in alloc; "capture {number}\n")?;
    Ok(text.into_bytes())
}

/// The line `end N frames`: the input was a whole capture with this number of frames. The only error is lack of memory.
#[tactic(auto, unfolding(crate::specs::Lines::end_text))]
pub fn end_line(alloc: Global, frames: u64) -> Result<Vec<u8>, AllocError>
    ensures { IfOk result (λ v. v.items ≡ end_text frames) }
{
    let text = format!(in alloc; "end {frames} frames\n")?;
    Ok(text.into_bytes())
}

/// The line `refused NAME at OFFSET`: the kind of the input's first fault, and its offset in octets. The only error is
/// lack of memory.
#[tactic(auto, unfolding(crate::specs::Lines::refused_text))]
pub fn refused_line(alloc: Global, name: &str, offset: u64) -> Result<Vec<u8>, AllocError>
    ensures { IfOk result (λ v. v.items ≡ refused_text name.now offset) }
{
    let text = format!(in alloc; "refused {name} at {offset}\n")?;
    Ok(text.into_bytes())
}

/// The line that says how the program is called. The only error is lack of memory.
#[tactic(auto, unfolding(crate::specs::Lines::usage_text))]
pub fn usage_line(alloc: Global) -> Result<Vec<u8>, AllocError>
    ensures { IfOk result (λ v. v.items ≡ usage_text) }
{
    let text = String::from_str(
        alloc,
        "usage: radio COMMAND then options as --NAME DIGITS\n",
    )?;
    Ok(text.into_bytes())
}

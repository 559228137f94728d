//! The encoder: a register that runs over the input, and the puncturing of what it gives.
ghost use Rattle.std.specs.Prelude.{◌≡◌, ◌+◌, ◌%◌, ◌<◌, ◌≤◌, ◌++◌, IfOk, vec_len, vec_capacity};
ghost use Rattle.ht_conv.specs.Code.{sent_bits};
ghost use Rattle.ht_conv.specs.Puncturing.{kept_bits, kept_count};

use crate::puncture::{Kept, kept_of_steps, period};
use crate::register::Register;
use ht_rate::Pattern;
use std::alloc::{AllocError, Global};

/// Encodes input bits from a register of zeros, and punctures what comes out (clauses 18.3.5.6 and 20.3.11.6).
///
/// The result has, step after step, A and then B as far as the pattern keeps them: `sent` gives the number of
/// these bits. The only refusal is lack of memory.
pub fn encode(alloc: Global, input: &[bool], pattern: Pattern) -> Result<Vec<bool>, AllocError>
    ensures { IfOk result (λ coded. coded.items ≡ sent_bits pattern input.now) }
{
    let period = period(pattern);
    let mut coded = Vec::with_capacity(alloc, kept_of_steps(pattern, input.len()))?;
    let mut register = Register::new();
    let mut phase = 0usize;
    for bit in input {
        let (a, b) = register.enter(*bit);
        push_kept(&mut coded, period[phase], a, b);
        phase = phase_after(phase, period.len());
    }
    Ok(coded)
}

// Appends those of a step's two bits that are kept.
fn push_kept(coded: &mut Vec<bool>, kept: Kept, a: bool, b: bool)
    requires { vec_len coded.old + kept_count kept ≤ vec_capacity coded.old }
    ensures items { coded.new.items ≡ coded.old.items ++ kept_bits kept a b }
    ensures len { vec_len coded.new ≡ vec_len coded.old + kept_count kept }
    ensures capacity { vec_capacity coded.new ≡ vec_capacity coded.old }
{
    match kept {
        Kept::Both => {
            coded.push_reserved(a);
            coded.push_reserved(b);
        }
        Kept::A => coded.push_reserved(a),
        Kept::B => coded.push_reserved(b),
    }
}

// The place of the next step in its period.
fn phase_after(phase: usize, period: usize) -> usize
    requires { phase < period }
    ensures { result ≡ (phase + 1) % period }
{
    if phase + 1 == period { 0 } else { phase + 1 }
}

//! The line of a demonstration over sample frames.
ghost use Rattle.std.specs.Prelude.{◌≡◌, IfOk};
ghost use Rattle.ht_text.specs.Lines.{demo_text};

use crate::sums::{LONGEST, push_sums};
use std::alloc::{AllocError, Global};

/// The line `demo frames F symbols S jobs J matched M data D pilot P code C`.
///
/// `symbols` and `jobs` count the OFDM symbols and the detection jobs of all frames, `matched` the frames whose octets
/// are those that were sent. The sums are those of the frames' lines, over all frames. The only error is lack of
/// memory.
#[tactic(auto, unfolding(crate::specs::Lines::demo_text))]
pub fn demo_line(
    alloc: Global,
    frames: u16,
    symbols: u64,
    jobs: u64,
    matched: u16,
    data_sum: u128,
    pilot_sum: u128,
    code: u64,
) -> Result<Vec<u8>, AllocError>
    ensures { IfOk result (λ v.
        v.items ≡ demo_text frames symbols jobs matched data_sum pilot_sum code) }
{
    let mut text = format!(in alloc;
        "demo frames {frames} symbols {symbols} jobs {jobs} matched {matched}"
    )?;
    text.reserve(LONGEST)?;
    push_sums(&mut text, data_sum, pilot_sum, code);
    text.push_str("\n")?;
    Ok(text.into_bytes())
}

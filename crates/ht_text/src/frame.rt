//! The line of a received frame.
ghost use Rattle.std.specs.Prelude.{◌≡◌, ◌+◌, ◌*◌, ◌<◌, ◌≤◌, ◌++◌, [], ◌∷◌, IfOk, OnErr, OnOk};
ghost use Rattle.std.specs.Prelude.{codes, decimal, length, string_bytes, string_len, string_capacity};
ghost use Rattle.std.specs.Option.{option_copied};
ghost use Rattle.ht_text.specs.Lines.{frame_text, hex, hex_digit, line_feed, outcome_room, outcome_text, soft_text, sums_text};

use crate::room::{push, push_ascii, push_with};
use crate::sums::{LONGEST as SUMS, push_sums};
use std::alloc::{AllocError, Global};

static HEX_DIGITS: [u8; 16] = *b"0123456789abcdef";

/// Room for what stands before the sums.
const HEAD: usize = 11;

/// Room for what stands before the octets in the line of soft decoding.
const SOFT: usize = 55;

/// Room for what stands behind the sums, but for the digits of the octets.
const REST: usize = 11;

/// The line `frame N data D pilot P code C octets HEX`, or `frame N data D pilot P code C seed zero`.
///
/// `frame` is the frame's number in the capture from 0. `data_sum` and `pilot_sum` are the sums of the distances of its
/// jobs on data and on pilot subcarriers, and `code` is the sum of the Hamming distances of its codewords from the
/// detected bits. `octets` is the PSDU, two lower-case digits per octet, or `None` where the descrambler found no seed.
/// The only error is lack of memory.
pub fn frame_line(
    alloc: Global,
    frame: u16,
    data_sum: u128,
    pilot_sum: u128,
    code: u32,
    octets: Option<&[u8]>,
) -> Result<Vec<u8>, AllocError>
    ensures { IfOk result (λ v.
        v.items ≡ frame_text frame data_sum pilot_sum code (option_copied octets.entry)) }
{
    let mut text = String::new(alloc);
    push_frame_line(&mut text, frame, data_sum, pilot_sum, code, octets)?;
    Ok(text.into_bytes())
}

/// Appends to `text` the line that `frame_line` makes, so that one text serves for the lines of many frames.
///
/// Only memory can fail; `text` is then as it was.
#[tactic(auto, unfolding(crate::specs::Lines::frame_text, crate::specs::Lines::outcome_text))]
pub fn push_frame_line(
    text: &mut String,
    frame: u16,
    data_sum: u128,
    pilot_sum: u128,
    code: u32,
    octets: Option<&[u8]>,
) -> Result<(), AllocError>
    ensures ok { OnOk result (string_bytes text.new
        ≡ string_bytes text.old ++ frame_text frame data_sum pilot_sum code (option_copied octets.entry)) }
    ensures err { OnErr result (string_bytes text.new ≡ string_bytes text.old) }
{
    text.reserve(room_for(SUMS + HEAD, octets)?)?;
    push_head(text, frame, data_sum, pilot_sum, code);
    push_outcome(text, octets);
    Ok(())
}

/// Appends the line `soft N cost C octets HEX`, or `soft N cost C seed zero`.
///
/// `frame` is the frame's number in the capture from 0, and `cost` what the codewords cost that were decoded from its
/// weights. `octets` is the PSDU, or `None` where the descrambler found no seed. Only memory can fail; `text` is then as it
/// was.
#[tactic(auto, unfolding(crate::specs::Lines::soft_text))]
pub fn push_soft_line(
    text: &mut String,
    frame: u16,
    cost: u128,
    octets: Option<&[u8]>,
) -> Result<(), AllocError>
    ensures ok { OnOk result (string_bytes text.new ≡ string_bytes text.old ++ soft_text frame cost (option_copied octets.entry)) }
    ensures err { OnErr result (string_bytes text.new ≡ string_bytes text.old) }
{
    text.reserve(room_for(SOFT, octets)?)?;
    push_with(text, "soft ", frame);
    push_with(text, " cost ", cost);
    push_outcome(text, octets);
    Ok(())
}

// Appends what a frame came to, which ends its line, to a text that has room for it.
#[tactic(auto, unfolding(crate::specs::Lines::outcome_text))]
fn push_outcome(text: &mut String, octets: Option<&[u8]>)
    requires room { string_len text.old + outcome_room (option_copied octets) ≤ string_capacity text.old }
    ensures { string_bytes text.new ≡ string_bytes text.old ++ outcome_text (option_copied octets.entry) ++ line_feed }
{
    let Some(octets) = octets else {
        push(text, " seed zero\n");
        return;
    };
    push(text, " octets ");
    push_hex(text, octets);
    push(text, "\n");
}

// Room for a line of these octets behind this number of characters. Octets whose line is longer than a number can count have
// no room in any memory.
fn room_for(front: usize, octets: Option<&[u8]>) -> Result<usize, AllocError>
    requires { front ≤ 256 }
    ensures { IfOk result (λ room. front + outcome_room (option_copied octets.entry) ≤ room) }
{
    let Some(octets) = octets else {
        return Ok(front + REST);
    };
    let Some(digits) = octets.len().checked_mul(2) else {
        return Err(AllocError);
    };
    match digits.checked_add(front + REST) {
        Some(room) => Ok(room),
        None => Err(AllocError),
    }
}

// Appends the frame's number and the sums, for which the text has room.
fn push_head(text: &mut String, frame: u16, data_sum: u128, pilot_sum: u128, code: u32)
    requires room { string_len text.old + (11 + SUMS) ≤ string_capacity text.old }
    ensures bytes { string_bytes text.new ≡ string_bytes text.old ++ codes "frame " ++ decimal frame ++ sums_text data_sum pilot_sum code }
    ensures room { string_len text.new + string_capacity text.old ≤ string_len text.old + (11 + SUMS) + string_capacity text.new }
{
    push_with(text, "frame ", frame);
    push_sums(text, data_sum, pilot_sum, u64::from(code));
}

// Appends two lower-case digits for each octet, for which the text has room.
fn push_hex(text: &mut String, octets: &[u8])
    requires room { string_len text.old + 2 * length octets.now ≤ string_capacity text.old }
    ensures bytes { string_bytes text.new ≡ string_bytes text.old ++ hex octets.now }
    ensures room { string_len text.new + string_capacity text.old ≤ string_len text.old + 2 * length octets.now + string_capacity text.new }
{
    for octet in octets {
        push_digit(text, *octet / 16);
        push_digit(text, *octet % 16);
    }
}

// Appends the lower-case digit of half an octet, for which the text has room.
fn push_digit(text: &mut String, half: u8)
    requires half { half < 16 }
    requires room { string_len text.old + 1 ≤ string_capacity text.old }
    ensures bytes { string_bytes text.new ≡ string_bytes text.old ++ hex_digit half ∷ [] }
    ensures len { string_len text.new ≡ string_len text.old + 1 }
    ensures capacity { string_capacity text.old ≤ string_capacity text.new }
{
    push_ascii(text, digit(half));
}

// The lower-case digit of half an octet.
fn digit(half: u8) -> char
    requires { half < 16 }
    ensures value { result ≡ hex_digit half }
    ensures ascii { result < 128 }
{
    char::from(HEX_DIGITS[usize::from(half)])
}

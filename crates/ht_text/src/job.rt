//! The line of a detection job.
ghost use Rattle.std.specs.Prelude.{◌≡◌, ◌+◌, ◌*◌, ◌≤◌, ◌++◌, [], ◌∷◌, length, codes, IfOk, OnErr, OnOk, string_bytes, string_len, string_capacity};
ghost use Rattle.std.specs.Prelude.{◌<ℤ◌, ◌≤ℤ◌, pos};
ghost use Rattle.ht_text.specs.Lines.{job_text, spaced};

use crate::room::{push, push_ascii, push_with};
use std::alloc::{AllocError, Global};

/// Room for the line of a job of no streams with the largest numbers.
const LONGEST: usize = 65;

/// The line `job FRAME SYMBOL CARRIER DISTANCE I Q`, with a further ` I Q` per further stream.
///
/// `place_frame`, `symbol` and `carrier` are the job's place: the frame in the capture, the OFDM symbol in the frame
/// and the subcarrier's index from the lowest, pilots counted, each from 0. `distance` is the squared distance of the
/// nearest vector, and `points` are its levels: I and then Q of the first spatial stream, I and Q of the second, and so
/// on. The only error is lack of memory.
pub fn job_line(
    alloc: Global,
    place_frame: u16,
    symbol: u32,
    carrier: u8,
    distance: u128,
    points: &[i8],
) -> Result<Vec<u8>, AllocError>
    ensures { IfOk result (λ v. v.items ≡ job_text place_frame symbol carrier distance points.now) }
{
    let mut text = String::new(alloc);
    push_job_line(&mut text, place_frame, symbol, carrier, distance, points)?;
    Ok(text.into_bytes())
}

/// Appends to `text` the line that `job_line` makes, so that the lines of many jobs are one text.
///
/// Only memory can fail; `text` is then as it was.
#[tactic(auto, unfolding(crate::specs::Lines::job_text))]
pub fn push_job_line(
    text: &mut String,
    place_frame: u16,
    symbol: u32,
    carrier: u8,
    distance: u128,
    points: &[i8],
) -> Result<(), AllocError>
    ensures ok { OnOk result (string_bytes text.new ≡ string_bytes text.old ++ job_text place_frame symbol carrier distance points.now) }
    ensures err { OnErr result (string_bytes text.new ≡ string_bytes text.old) }
{
    text.reserve(room_for(points)?)?;
    push_with(text, "job ", place_frame);
    push_with(text, " ", symbol);
    push_with(text, " ", carrier);
    push_with(text, " ", distance);
    push_points(text, points);
    push(text, "\n");
    Ok(())
}

// Room for the line of a job with these levels, each with its space and its sign. Levels whose line has more octets than
// a number can count have no room in any memory.
fn room_for(points: &[i8]) -> Result<usize, AllocError>
    ensures { IfOk result (λ room. room ≡ LONGEST + 5 * length points.now) }
{
    let Some(levels) = points.len().checked_mul(5) else {
        return Err(AllocError);
    };
    match levels.checked_add(LONGEST) {
        Some(room) => Ok(room),
        None => Err(AllocError),
    }
}

// Appends a space and the number, for each number.
fn push_points(text: &mut String, points: &[i8])
    requires room { string_len text.old + 5 * length points.now ≤ string_capacity text.old }
    ensures bytes { string_bytes text.new ≡ string_bytes text.old ++ spaced points.now }
    ensures room { string_len text.new + string_capacity text.old ≤ string_len text.old + 5 * length points.now + string_capacity text.new }
{
    for point in points {
        push_level(text, *point);
    }
}

// Appends a space and the number. One of a single digit, as the level of a constellation is, is put without a choice among
// pieces: a jump on random levels is mostly guessed wrong.
#[tactic(auto, unfolding(crate::specs::Lines::spaced))]
fn push_level(text: &mut String, level: i8)
    requires room { string_len text.old + 5 ≤ string_capacity text.old }
    ensures bytes { string_bytes text.new ≡ string_bytes text.old ++ spaced (level ∷ []) }
    ensures room { string_len text.new + string_capacity text.old ≤ string_len text.old + 5 + string_capacity text.new }
{
    let size = level.unsigned_abs();
    if size > 9 {
        push_with(text, " ", level);
        return;
    }
    push(text, before_digits(level));
    push_ascii(text, char::from(b'0' + size));
}

// The space before a number, and the minus of a negative one.
fn before_digits(level: i8) -> &'static str
    ensures negative { level <ℤ pos 0 → result.now ≡ codes " -" }
    ensures other { pos 0 ≤ℤ level → result.now ≡ codes " " }
    ensures length { length result.now ≤ 2 }
{
    if level < 0 { " -" } else { " " }
}

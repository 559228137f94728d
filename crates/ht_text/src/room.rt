//! Pieces of a line, put into a text that has room for them.
ghost use Rattle.std.specs.Prelude.{◌≡◌, ◌+◌, ◌<◌, ◌≤◌, ◌++◌, [], ◌∷◌, length, string_bytes, string_len, string_capacity};

use itoa::{Buffer, Integer};

/// Appends a piece, for which the text has room.
pub(crate) fn push(text: &mut String, piece: &str)
    requires room { string_len text.old + length piece.now ≤ string_capacity text.old }
    ensures bytes { string_bytes text.new ≡ string_bytes text.old ++ piece.now }
    ensures len { string_len text.new ≡ string_len text.old + length piece.now }
    ensures capacity { string_capacity text.old ≤ string_capacity text.new }
{
    match text.push_str(piece) {
        Ok(()) => {}
        Err(_) => unreachable!(),
    }
}

/// Appends a character of one octet, for which the text has room.
pub(crate) fn push_ascii(text: &mut String, character: char)
    requires ascii { character < 128 }
    requires room { string_len text.old + 1 ≤ string_capacity text.old }
    ensures bytes { string_bytes text.new ≡ string_bytes text.old ++ character ∷ [] }
    ensures len { string_len text.new ≡ string_len text.old + 1 }
    ensures capacity { string_capacity text.old ≤ string_capacity text.new }
{
    match text.push(character) {
        Ok(()) => {}
        Err(_) => unreachable!(),
    }
}

/// Appends a piece and the number behind it, for which the text has room.
// Inlined, the length of the piece is known.
#[inline(always)]
pub(crate) fn push_with<I: Integer>(text: &mut String, piece: &str, number: I)
    requires room { string_len text.old + (length piece.now + I.MAX_STR_LEN) ≤ string_capacity text.old }
    ensures bytes { string_bytes text.new ≡ string_bytes text.old ++ piece.now ++ I.text number }
    ensures room { string_len text.new + string_capacity text.old
        ≤ string_len text.old + (length piece.now + I.MAX_STR_LEN) + string_capacity text.new }
{
    let mut buffer = Buffer::new();
    push(text, piece);
    push(text, buffer.format(number));
}

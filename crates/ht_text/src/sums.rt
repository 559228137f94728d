//! The sums that the lines of frames and of demonstrations share.
ghost use Rattle.std.specs.Prelude.{◌≡◌, ◌+◌, ◌≤◌, ◌++◌, string_bytes, string_len, string_capacity};
ghost use Rattle.ht_text.specs.Lines.{sums_text};

use crate::room::push_with;

/// Room for the sums where all numbers are the largest.
pub(crate) const LONGEST: usize = 117;

/// Appends ` data D pilot P code C` to a text that has room for it.
#[tactic(auto, unfolding(crate::specs::Lines::sums_text))]
pub(crate) fn push_sums(text: &mut String, data_sum: u128, pilot_sum: u128, code: u64)
    requires room { string_len text.old + LONGEST ≤ string_capacity text.old }
    ensures bytes { string_bytes text.new ≡ string_bytes text.old ++ sums_text data_sum pilot_sum code }
    ensures room { string_len text.new + string_capacity text.old ≤ string_len text.old + LONGEST + string_capacity text.new }
{
    push_with(text, " data ", data_sum);
    push_with(text, " pilot ", pilot_sum);
    push_with(text, " code ", code);
}

//! Results that have a line of text.
ghost use Rattle.std.specs.Prelude.{◌≡◌, ℕ, ◌++◌, List, OnErr, OnOk, string_bytes};
ghost use Rattle.ht_results.specs.Texts.{result_line};

use crate::frame_result::FrameResult;
use ht_inverse::Outcome;
use ht_text::push_frame_line;
use std::alloc::AllocError;

/// A result that has a line of text.
pub trait Line {
    /// The octets of its line, with the line's end.
    ghost line: { Self → List ℕ };

    /// Appends its line. The only error is lack of memory, and then the text is as it was.
    fn push_line(&self, text: &mut String) -> Result<(), AllocError>
        ensures ok { OnOk result (string_bytes text.new ≡ string_bytes text.old ++ line self.now) }
        ensures err { OnErr result (string_bytes text.new ≡ string_bytes text.old) };
}

impl Line for FrameResult {
    ghost line = { result_line };

    #[tactic(auto, unfolding(crate::specs::Texts::result_line))]
    fn push_line(&self, text: &mut String) -> Result<(), AllocError> {
        let octets = match &self.outcome {
            Outcome::Octets(octets) => Some(octets.as_slice()),
            Outcome::SeedZero => None,
        };
        push_frame_line(
            text,
            self.frame,
            self.data_sum,
            self.pilot_sum,
            self.code,
            octets,
        )
    }
}

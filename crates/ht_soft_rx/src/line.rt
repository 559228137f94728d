//! The line of a frame.
ghost use Rattle.ht_soft_rx.specs.Texts.{soft_line};

use crate::soft_result::SoftResult;
use ht_frames::Line;
use ht_inverse::Outcome;
use ht_text::push_soft_line;
use std::alloc::AllocError;

impl Line for SoftResult {
    ghost line = { soft_line };

    #[tactic(auto, unfolding(crate::specs::Texts::soft_line))]
    fn push_line(&self, text: &mut String) -> Result<(), AllocError> {
        let octets = match &self.outcome {
            Outcome::Octets(octets) => Some(octets.as_slice()),
            Outcome::SeedZero => None,
        };
        push_soft_line(text, self.frame, self.cost, octets)
    }
}

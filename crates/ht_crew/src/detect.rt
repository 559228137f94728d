//! Detection as the work on a block of one job.
use ht_feed::{Gate, OneHit, OneJob, Work, detect};
use std::alloc::AllocError;

/// Finds the hit of a job. The gate is called before and after.
#[derive(Drop)]
pub(crate) struct Detect<'a, G> {
    pub(crate) gate: &'a G,
}

impl<'a, G: Gate> Work<OneJob> for Detect<'a, G> {
    type Answer = OneHit;

    /// Takes no memory.
    fn answer_to(&self, block: &OneJob) -> Result<OneHit, AllocError> {
        let number = block.job.number();
        self.gate.enter(number);
        let found = detect(&block.job);
        self.gate.leave(number);
        Ok(OneHit { found })
    }

    /// Always, since no block has two jobs: so a drive fills its whole window, and waits for room for none but the next.
    fn is_hard(&self, _block: &OneJob, _answer: &OneHit) -> bool {
        true
    }
}

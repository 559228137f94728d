//! What is answered of the jobs of a block.
ghost use Rattle.std.specs.Prelude.{◌^◌, ◌<◌, ⊤, List, length, IfOk, OnErr};
ghost use Rattle.ht_metric.specs.Jobs.{JobView};

use crate::jobs::Jobs;
use std::alloc::AllocError;
use std::sync::Wait;

/// What is found for the jobs of a block, in the form in which a consumer takes it.
pub trait Answer {
    /// It is the answer to these jobs.
    ghost answers: { Self → List JobView → Type 0 };

    /// An answer may be lacking where there was no memory for it. Of an answer that takes none its type says that none
    /// is ever lacking.
    ghost may_lack: { Type 0 } = { ⊤ };
}

/// What finds the answers to the jobs of a block.
pub trait Work<B: Jobs> {
    /// What it answers.
    type Answer: Answer + Drop;

    /// The answer to the jobs of a block. The only error is lack of memory.
    fn answer_to(&self, block: &B) -> Result<Self::Answer, AllocError>
        requires few { length (B.jobs block.now) < 2 ^ 16 }
        ensures right { IfOk result (λ answer. Self.Answer.answers answer (B.jobs block.now)) }
        ensures lacks { OnErr result Self.Answer.may_lack };

    /// Whether the block of this answer took so long that the next ones are better given job by job. Only the size of
    /// blocks depends on it.
    fn is_hard(&self, _block: &B, _answer: &Self::Answer) -> bool
        requires few { length (B.jobs _block.now) < 2 ^ 16 }
    {
        false
    }

    /// Does what else is waiting for a worker, if anything is, and answers whether it did. A drive's workers do so before
    /// each block, and its caller never does.
    fn help<R: Wait>(&self, _rt: &R) -> bool {
        false
    }
}

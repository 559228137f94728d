//! Blocks that know their frame.
use crate::jobs::Jobs;

/// A block whose jobs are all of one frame, and which keeps the frame's head.
pub trait InFrame: Jobs {
    /// The head of a frame.
    type Head: Copy + Drop;

    /// The head of the frame. No clause says that it is the one that came before the block: whoever takes what was made
    /// by it sees whether it fits the frame, from the rate that it was made by and the number of its jobs.
    fn head(&self) -> &Self::Head;
}

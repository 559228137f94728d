//! Captures of 802.11n frames as blocks of jobs.
//!
//! [`CaptureReader`] reads a capture of either version, and gives the head of each frame and behind it the frame's jobs in
//! blocks of at most the size that it is asked for. A [`CaptureBlock`] is some of the subcarriers of one symbol: triangles
//! and samples stay where the symbol lies, and each job is made when it is asked for.
//!
//! Whatever the blocks are, their jobs, behind one another, are the jobs of the capture: each answer is the first of what
//! the octets mean that still come, and a block counts as the list of its jobs.
//!
//! A capture of two symbols with 56 subcarriers comes, in blocks of at most 50 jobs, as one of 50 and one of 6 for each
//! symbol.
#![tactic(auto)]

mod block;
mod in_lanes;
mod reader;

pub use block::CaptureBlock;
pub use in_lanes::InLanes;
pub use reader::CaptureReader;

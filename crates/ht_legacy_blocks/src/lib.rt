//! Captures of clause 18 frames (LGCP) as blocks of jobs.
//!
//! [`LegacyReader`] reads a capture from any source, in any division into reads, and gives the head of each frame and
//! behind it the frame's jobs in blocks of at most the size that it is asked for. A [`LegacyBlock`] is some of the
//! subcarriers of one symbol: diagonals and samples stay where the symbol lies, and each job is made when it is asked
//! for.
//!
//! The job of subcarrier c of symbol n has a system of one row, the subcarrier's diagonal and its sample. Its grid is
//! the constellation of the frame's rate where the subcarrier carries data, and the one point (v, 0) of the symbol's
//! pilot where it is a pilot (IEEE Std 802.11-2012, clause 18.3.5.9). Frames and jobs are numbered from 0 over the
//! capture.
//!
//! Whatever the blocks are, their jobs, behind one another, are the jobs of the capture: each answer is the first of
//! what the octets mean that still come, and a block counts as the list of its jobs. `specs/Frames.antt` says which
//! heads and jobs a capture has.
//!
//! A capture of one frame at 6 Mbit/s with one octet has two symbols. In blocks of at most 50 jobs it comes as its
//! head, and then one block of 50 jobs and one of 2 for each symbol.
#![tactic(auto)]

mod block;
mod fields;
mod grids;
mod head;
mod lanes;
mod reader;
mod stage;
mod symbol;
mod words;

pub use block::LegacyBlock;
pub use head::LegacyFrameHead;
pub use reader::LegacyReader;

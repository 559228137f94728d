//! Frames received from an input, of whatever kind.
//!
//! A kind of frames is a `Kind` of crate `ht_frames`: it says what a frame's head is, what is kept of its jobs, and what its
//! result is; `Frame` is such a frame under way. Any reader of blocks whose heads are of that kind gives the jobs, and any work
//! whose answers are tallies of that kind runs them, as `TallyWork` does. [`receive_alone`] books the result of each whole frame, and runs every block in the
//! calling thread; [`receive`] promises the same, and has the blocks run and whole frames decoded by workers, where the kind
//! is `Together`.
//!
//! What is booked for an input is defined by the jobs that its reader gives: `booked_in` of crate `ht_frames`, of the
//! results that the frame under way makes of them. The caller says which results of the octets these are. Where a `TextBook`
//! puts their lines, and [`put_end`] the end line after them, `streams` in `proofs/Streaming.antt` shows
//! that all that was put is the text of a format (`StreamsText` in `specs/Ends.antt`).
//!
//! Say a frame is whole with its second job, its result is the sum of the two distances, and its line is that number. Of an
//! input of two frames, whose jobs have the distances 7, 7, 4 and 0, the text is
//!
//! ```text
//! 14
//! 4
//! end 2 frames
//! ```
//!
//! Any run over blocks that puts lines while it reads ends so, lists of jobs too. A run of `tell_alone` of crate `ht_feed`, or
//! of a drive, answers how it ended, and its consumer put the lines of what is whole. [`put_last`] puts the last line then,
//! that of the end or that of the first fault. [`put_end`] puts it if the input was whole, and answers the number of its
//! frames; if the input has a fault nothing more is put, and the caller puts the line of the fault. What a run and [`put_end`]
//! promise together is said once for every format, every reader of blocks and every consumer: it is `Streamed` of crate
//! `ht_runs` of the format's filter (`IsTold` of `specs/Endings.antt`, and `ends` of `proofs/Endings.antt`).
#![tactic(auto)]

mod putting;
mod receiving;

pub use putting::{put_end, put_last};
pub use receiving::{receive, receive_alone};

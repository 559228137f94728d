//! The lines of text that `radio` prints, octet for octet.
//!
//! Each call makes one line with its line feed: what a detection job found, what a frame decoded to, whether a
//! certificate holds, which capture follows, how an output ends, how the program is called, or the sums of a demonstration.
//! Numbers are decimal without leading zeros, a negative number begins with a minus, and one space sets words apart. The
//! texts are this receiver's own; the standard has none.
//!
//! A job at the first data subcarrier of the first symbol, in BPSK on one spatial stream, whose
//! nearest point is I = -1 at a squared distance of 100, and a frame of one octet without bit errors:
//!
//! ```text
//! job 0 0 0 100 -1 0
//! frame 0 data 0 pilot 0 code 0 octets a5
//! ```
//!
//! A line is made in memory, so the only error is a lack of it.
#![tactic(auto)]

mod demo;
mod ends;
mod frame;
mod job;
mod room;
mod sums;
mod verdict;

pub use demo::demo_line;
pub use ends::{capture_line, end_line, refused_line, usage_line};
pub use frame::{frame_line, push_frame_line, push_soft_line};
pub use job::{job_line, push_job_line};
pub use verdict::{push_checked_line, push_no_line, push_yes_line};

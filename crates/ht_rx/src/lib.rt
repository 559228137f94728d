//! Captures received: a line for each job, or a result for each frame.
//!
//! A job is a present subcarrier of a symbol (IEEE Std 802.11-2012, clause 20.3.11), for which the first nearest vector is
//! found; crate `ht_inverse` decodes the labels of a frame's data subcarriers.
//!
//! [`list_jobs`] and [`receive`] read a capture from any source, and a crew of workers runs its jobs; [`list_jobs_alone`] and
//! [`receive_alone`] promise the same, and run every job in the calling thread. [`list_text`], [`receive_text`], and those
//! that end in `_alone`, put the whole text of a capture into a sink: the line of each job or frame, and the last line.
//!
//! A drive of crate `ht_drive` takes blocks of jobs from a capture's reader, and hands the answers in order to a consumer
//! (`Consumer` of crate `ht_feed`): a [`Lister`] puts the lines of each block; the receivers of crate `ht_frames` book a
//! [`FrameResult`] once the tally with the last job of its frame came. [`HardLabels`] says what they keep of a job, its labels,
//! and how these are decoded; a tally has the labels of a block's jobs, with the distances summed. `LaneWork` of crate
//! `ht_eights` makes tallies.
//!
//! Crate `ht_results` defines what must be put, over the octets alone: `lines_of`, and with the last line `detect_text`, in
//! `specs/JobTexts.antt`; `frame_lines_of` and `rx_text` in `specs/Texts.antt`. What a consumer puts is a function of the jobs
//! that come, so one set of lemmas says for all consumers what is put of a whole capture, at a fault, where a source fails and
//! where memory runs out (`specs/Outcomes.antt`).
//!
//! The capture `examples/z.htcp` has one frame of two symbols, each of 56 jobs; its lines are
//!
//! ```text
//! job 0 0 0 100 -1 0
//! job 0 0 1 100 -1 0
//! ```
//!
//! and 110 more, and `list_jobs` answers `Ended { frames: 1, jobs: 112 }`. The line of its frame is
//! `frame 0 data 10400 pilot 800 code 0 seed zero`: 104 data jobs and 8 pilot jobs, each at 100. Behind either
//! `list_text` and `receive_text` put `end 1 frames`, and answer 1.
//!
//! Without its last octet no frame is whole, and only the first symbol. Each of these calls, as `receive` does, refuses with
//! the fault Truncated at 1018.
#![tactic(auto)]

mod block_lines;
mod carrier_text;
mod data_runs;
mod hard_labels;
mod lane_lines;
mod line_start;
mod line_texts;
mod lines;
mod lister;
mod listing;
mod listing_text;
mod pieces;
mod point_text;
mod receiving;
mod receiving_text;

pub use block_lines::Lines;
pub use hard_labels::HardLabels;
pub use ht_feed::{BookFault, Ended};
pub use ht_results::FrameResult;
pub use lister::Lister;
pub use listing::{list_jobs, list_jobs_alone};
pub use listing_text::{list_text, list_text_alone};
pub use receiving::{receive, receive_alone};
pub use receiving_text::{receive_text, receive_text_alone};

//! Captures of clause 18 frames received: a result and a line for each frame.
//!
//! [`LegacyLabels`] is a kind of frames of `ht_frames`: of each job on a data subcarrier the label is kept, and the distances
//! go into a sum of data subcarriers and one of pilots. With the last job the frame is whole, and `ht_legacy_inverse` decodes its
//! labels (IEEE Std 802.11-2012, clause 18.3.5 backwards).
//!
//! The results of the frames in a list of octets are defined over the octets alone: `legacy_results_of`, and with their
//! lines and the last line `legacy_text`, in `specs/Texts.antt`. The definition looks labels up place by place; the module
//! [`laws`] says that the jobs of a capture, one after another, give the same results.
//!
//! A capture of one frame at 6 Mbit/s with the octet a5, sent with seed 127 over samples that are exactly its points, has
//! the text
//!
//! ```text
//! frame 0 data 0 pilot 0 code 0 octets a5
//! end 1 frames
//! ```
#![tactic(auto)]

mod data_runs;
mod labels;
pub mod laws;
mod receiving;

pub use labels::LegacyLabels;
pub use receiving::{legacy_receive, legacy_receive_alone};

//! Captures of 802.11n frames (HTCP files, versions 1 and 2), read as they come from any source.
//!
//! A capture is what the front end of a receiver hands on. For each frame it has the bandwidth, the MCS and the length
//! of the PSDU, and for each subcarrier the channel as an upper triangular matrix of whole numbers; then, for each
//! symbol and subcarrier, the received vector. In version 2 each subcarrier has a flag, and one that is erased has
//! neither triangle nor samples (IEEE Std 802.11-2012, clause 20.3.11, for the subcarriers and the number of symbols).
//!
//! `Reader` gives the head of each frame, and then a job for each subcarrier that is present in each symbol: the system
//! of triangle and received vector, and the grid of the vectors that may have been sent, which is the full
//! constellation on a data subcarrier and one point on each stream on a pilot. Jobs are numbered from 0 over the whole
//! capture.
//!
//! `48 54 43 50 01 00 01 00 00 00 01` begins a capture of one frame at 20 MHz, MCS 0, of one octet. 56 diagonals follow,
//! and the samples of two symbols: 1,019 octets in all, of which the reader makes a head and 112 jobs. With a 2 in
//! octet 7 it answers BadBandwidth at 7, and without its last octet Truncated at 1018.
//!
//! `read_captures` reads a capture of either version whole, and gives its frames as values. `write_captures` puts the
//! file of frames in version 1, and `write_captures_2` in version 2; neither takes memory. What was written is a
//! capture of these frames, and equal files have equal frames, so that reading it gives the frames again.
#![tactic(auto)]

mod block;
mod block_item;
mod carriers;
mod fields;
mod frames;
mod heads;
mod items;
mod jobs;
mod lanes;
pub mod laws;
mod lent;
pub mod numbers;
mod parts;
mod places;
mod reader;
mod reading;
mod shape;
mod shared_symbol;
mod stage;
mod template;
mod writing;

pub use block::SymbolBlock;
pub use block_item::BlockItem;
pub use frames::{CaptureFrame, Samples, Triangles};
pub use items::{FrameHead, Item};
pub use reader::Reader;
pub use reading::read_captures;
pub use writing::{write_captures, write_captures_2};

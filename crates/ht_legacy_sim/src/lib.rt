//! The channel simulator for clause 18 frames: from the frames that are to be sent to what is received of them.
//!
//! `legacy_channel` reads a file of frames (LGTX, crate `ht_legacy_files`) to its end. It sends each frame (crate
//! `ht_clause18`), and passes its points through the channel that a seed makes: each of the 52 subcarriers gets a diagonal
//! from 64 to 255, and a sample is the diagonal times the point, with noise whose parts are at most a given number. It puts
//! the capture of them (LGCP, crate `ht_legacy_files`), frame after frame.
//!
//! The words are those of crate `ht_sim`, in its order for one stream: for each frame a word for each diagonal, the lowest
//! subcarrier's first, and then for each sample, in the order symbol, subcarrier, a word for the real part of its noise and
//! one for the imaginary part. One generator serves the whole file.
//!
//! With the seed 42 the first diagonals are 247, 73, 240 and 83. So at 6 Mbit/s, where the octet a5 with seed 127 begins
//! with the points (-1, 0), (1, 0), (1, 0), the first samples are (-247, 0), (73, 0) and (240, 0) without noise.
#![tactic(auto)]

mod drawing;
pub mod laws;
mod passing;
mod putting;

pub use passing::legacy_channel;

//! A channel simulator for 802.11n frames, in whole numbers, and whole files made of other files: the bodies of the commands
//! `tx`, `upgrade` and `channel`.
//!
//! [`send`] reads a file of frames (HTTX) to its end, and puts the file of the symbols (HTSY) that are sent for them (IEEE Std
//! 802.11-2012, clause 20.3.11). [`upgrade`] reads a capture (HTCP) of either version, and puts the capture of version 2 of the
//! same frames: that of no frames, `48 54 43 50 01 00 00`, becomes `48 54 43 50 02 00 00`. [`channel`] reads a file of symbols,
//! and puts the capture that they pass to. All put nothing before they have read all.
//!
//! Each subcarrier of a frame gets an upper triangular channel of its own: diagonals from 64 to 255 and entries with
//! parts from -64 to 64. What is received on a row is the row times the vector of points that is sent, and noise whose
//! parts are at most a given number. All of it is drawn from one generator that a seed starts, word after word in the
//! order of the capture's fields, so that everybody who has the seed makes the same capture.
//!
//! The seed 42 gives the words a15c02b7, 7b47f409, ba1d3330 and so on, and on one stream the diagonals 247, 73, 240, 83.
#![tactic(auto)]

mod captures;
pub mod laws;
mod passing;
mod rows;
mod samples;
mod sending;
mod triangles;
mod upgrading;
mod words;

pub use captures::through_channel;
pub use passing::channel;
pub use rows::stretched;
pub use samples::sample_frames;
pub use sending::send;
pub use upgrading::upgrade;
pub use words::Words;

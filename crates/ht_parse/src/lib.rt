//! The parsers of the HT PHY (IEEE Std 802.11-2012, clauses 20.3.11.5 and 20.3.11.8.2): which encoder gets a data
//! bit, and which spatial stream gets a coded bit.
//!
//! With N_ES encoders, scrambled bit N_ES * i + j is bit i of encoder j's input. Within a symbol the coded bits go
//! to the streams in groups of s = max(1, N_BPSCS / 2) bits, the bits of one axis of the constellation: in each round
//! every stream in turn takes a group from every encoder. So bit k of stream iss, iss from 1 on, is bit
//! (iss - 1) * s + N_SS * s * floor(k / (N_ES * s)) + k mod s of encoder floor(k / s) mod N_ES.
//!
//! At 40 MHz, MCS 31 (four streams of 64-QAM, two encoders, s = 3), bit 3 of stream 2 is bit 3 of encoder 1, and
//! bit 7 of stream 2 is bit 16 of encoder 0. The bits 0110 are split into 01 and 10.
//!
//! `split_encoders` and `to_streams` are the transmitter's calls, `join_encoders` and `from_streams` their inverses.
//! A symbol is a list of N_CBPS bits, those of stream 1 first.
#![tactic(auto)]

pub mod encoders;
pub mod laws;
mod layout;
pub mod pair;
pub mod streams;

pub use encoders::{join_encoders, split_encoders};
pub use pair::Pair;
pub use streams::{from_streams, to_streams};

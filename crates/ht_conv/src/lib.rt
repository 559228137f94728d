//! The binary convolutional encoder of the OFDM PHYs and its puncturing (IEEE Std 802.11-2012, clauses 18.3.5.6
//! and 20.3.11.6).
//!
//! An encoder takes input bits, starting from a register of zeros. Each step gives two coded bits: A, the sum
//! modulo 2 of the input at the delays 0, 2, 3, 5 and 6 (generator 133 in octal), and B, the sum at the delays
//! 0, 1, 2, 3 and 6 (generator 171 in octal). Puncturing then leaves out some of them, in a pattern that repeats:
//! all are sent at rate 1/2, A0 B0 A1 at 2/3, A0 B0 A1 B2 at 3/4, and A0 B0 A1 B2 A3 B4 at 5/6.
//!
//! So the input 1000000 gives `11 01 11 11 00 10 11` at rate 1/2 and `1101 1100 11` at rate 3/4.
//!
//! `encode` gives the bits that are sent; `sent` and `kept_at` give their number and their places, without the
//! input. `laws` says that nothing is lost: inputs of one length that send the same bits are equal.
#![tactic(auto)]

pub mod encoder;
pub mod laws;
pub mod puncture;
mod register;

pub use encoder::encode;
pub use puncture::{Kept, kept_at, period, sent};

//! Gray mapping of the HT PHY (IEEE Std 802.11-2012, clause 20.3.11.9, with the tables of clause 18.3.5.8).
//!
//! A data subcarrier of a spatial stream takes N_BPSCS bits as its label: 1 in BPSK, 2 in QPSK, 4 in 16-QAM and
//! 6 in 64-QAM. The first bit is the label's most significant one. The first half of the label names the level of
//! I and the second half that of Q; in BPSK the one bit names I, and Q is 0. Neighbouring levels differ in one bit.
//!
//! Points lie on the whole-number grid, with the levels -7, -5, -3, -1, 1, 3, 5 and 7 in 64-QAM: the normalizing factor
//! K_MOD is left to the channel. [`point`] maps a label, [`label`] finds it again and says which points are on the
//! constellation, and [`grid`] has all points of all streams of a rate, for a detector to search.
//!
//! In 16-QAM label 0111 is I = -1 by its first half 01, and Q = 1 by its second half 11:
//!
//! ```text
//! point(Modulation::Qam16, 0b0111) == Point { i: -1, q: 1 }
//! label(Modulation::Qam16, Point { i: -1, q: 1 }) == Some(0b0111)
//! label(Modulation::Qam16, Point { i: 0, q: 1 }) == None
//! ```
#![tactic(auto)]

mod axis;
mod constellation;
pub mod laws;
mod mapping;

pub use constellation::grid;
pub use mapping::{label, point};

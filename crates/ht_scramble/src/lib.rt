//! The scrambler.
//!
//! All DATA bits are scrambled: bit t has s(t) added modulo 2, where `s(t) = s(t - 7) xor s(t - 4)` (IEEE Std
//! 802.11-2012, clause 18.3.5.5). The seven bits before the start are those of the [`Seed`], a number from 1 to 127:
//! bit i of the seed, of value 2^i, is s(-1 - i). So seed 127 is the all-ones state, from which the sequence begins
//! `00001110 11110010 11001001 ...`; it repeats after 127 bits.
//!
//! [`scramble`] scrambles in place, and a second call gives back what was there. A receiver gets the seed from the
//! seven bits of SERVICE that were sent as zeros, by [`recover`]: `0000111` gives 127. The sequence of seed 127 also
//! gives the signs of the pilots, by [`polarity`].
#![tactic(auto)]

pub mod laws;
mod polarity_signs;
mod scrambler;
mod seed;

pub use polarity_signs::polarity;
pub use scrambler::{recover, scramble};
pub use seed::Seed;

//! Codewords with few wrong places, decoded without the trellis (IEEE Std 802.11-2012, clauses 18.3.5.6 and 20.3.11.6).
//!
//! Most codewords come with no wrong place or with single ones, far from each other. [`decode_sparse`] takes the places of
//! such a word, 60 to a word of 64 bits, and answers with the first nearest terminated input and its distance, as
//! [`decode_packed`](ht_viterbi::decode_packed) does; of any other word it answers None, which says nothing. [`decode_words`]
//! goes on with the trellis there, and answers for every word.
//!
//! 1. The input is guessed: each bit is a sum of received places of its step and of some before it, so that one wrong place
//!    misleads the guess for at most 27 steps.
//! 2. What the guess sends differs from what was received in a pattern that tells a single wrong place. Such places are
//!    taken out of the guess one by one.
//! 3. The guess that is left is checked: its last six bits are 0, and wherever a place differs from what it sends, 480 pour
//!    into a bucket, out of which 73 leak at each step at rate 1/2, 32 at 2/3, 21 at 3/4 and 10 at 5/6. Where the bucket never
//!    comes to its brim, 1201, 1120, 651 or 660, every other input is farther away, and the guess is the answer.
//!
//! Only the third part is proved, and only it counts. The difference of two inputs runs through the same trellis, since the
//! code is linear. Where it leaves state 0 it is on a detour, until it comes back; each place at which the two codewords
//! differ there is wrong for one of them. A table says of each state and phase what a detour has gained by then, and a test of
//! all 64 states, both bits and all phases shows that each step pays for its leak, and each return for a full bucket. So a
//! detour over which the bucket never comes to its brim makes the distance greater. [`laws`] says so of all words.
//!
//! With 7 steps at rate 1/2 the input 1000000 sends `11 01 11 11 00 10 11`. With its sixth place wrong that word is decoded to
//! 1000000 at distance 1. The word `11 01 11 00 00 00 00` lies at distance 5 from 0000000 and from 1000000, and the answer is
//! None.
#![tactic(auto)]

mod bucket;
mod check;
mod decoder;
mod guess;
mod input;
pub mod laws;
mod layout;
mod peel;
mod planes;
#[cfg(test)]
mod tests;

pub use decoder::{decode_sparse, decode_sparse_words, decode_words};
pub use input::{PackedInput, eight_bits};

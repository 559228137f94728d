//! The Viterbi decoder of the convolutional code (IEEE Std 802.11-2012, clauses 18.3.5.6 and 20.3.11.6).
//!
//! The decoder takes the coded bits that one encoder sent, as they were received. Of each there is a [`CodedPlace`], which
//! says what a 0 and what a 1 cost there. It answers with the encoder's input that explains them best: of all inputs
//! that end with the tail of six zeros the one whose coded bits cost least, and among those that cost the same the first
//! one, which has 0 at the first place where two of them differ.
//!
//! 1. A hard decision is `Some(bit)`, where the other bit costs 1, or `None` where the bit was lost. The cost is then the
//!    Hamming distance: at how many places that aren't erased the bits differ. With 7 steps at rate 1/2 the word
//!    `11 01 11 00 00 00 00` is decoded to 0000000 at distance 5: the input 1000000 sends `11 01 11 11 00 10 11` and lies
//!    at distance 5 too, but comes later.
//! 2. A weight is an `i32`: positive where a 1 is likelier, negative where a 0 is, and of the size that the other bit
//!    costs. With weights of 9 at the five ones of that word, and of -1 at its nine zeros, 1000000 costs 5 and 0000000
//!    costs 45.
//!
//! [`decode`] keeps the costs of all 64 states, modulo 256, in the lanes of one vector, from the last step to the
//! first, so that one way forwards gives the first of the nearest inputs. [`decode_received`] does the same with an
//! octet for each hard decision, a [`ReceivedBit`], and [`decode_packed`] with words of 60 of them. All three decode a
//! codeword that came as it was sent in one pass, without
//! the trellis. [`decode_weights`] keeps whole costs in lanes of 32 bits.
//! [`decode_places`] answers for any places, one state after the other, and [`plain_decode`] is its form for hard
//! decisions. The definitions are in `specs/Inputs.antt`: a minimum over all inputs, with no trellis in it.
//! `specs/Decoded.antt` has the same as a function of what is received, over the list of all inputs. The laws that
//! follow from them are in [`laws`].
#![tactic(auto)]

mod backwards;
mod bit_costs;
mod branches;
mod clean;
mod coded_place;
mod codeword;
mod cost_lanes;
mod decoder;
mod lanes;
pub mod laws;
mod lookup;
mod packed;
mod pairs;
mod plain;
mod received_bit;
mod rows;
mod walk;
mod weights;
mod words;

pub use coded_place::CodedPlace;
pub use codeword::{Cheapest, Codeword};
pub use decoder::{decode, decode_packed, decode_received};
pub use packed::WORD_PLACES;
pub use plain::{decode_places, plain_decode};
pub use received_bit::ReceivedBit;
pub use weights::decode_weights;

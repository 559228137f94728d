//! From the labels of a frame to its octets: the coding chain of the HT PHY backwards (IEEE Std 802.11-2012, clause
//! 20.3.11).
//!
//! In go a rate, the number of octets of the PSDU, the subcarriers that are erased, and a label for each symbol, data
//! subcarrier and stream. Out come the octets, or that there is no seed, and at how many places the coded bits of the
//! answer differ from those of the labels.
//!
//! 1. Each encoder's coded bits are gathered from the labels, each from the place where it lands. On an erased
//!    subcarrier there is none. Where nothing is erased they are packed into words of 60.
//! 2. `ht_clean`, or `ht_viterbi` where something is erased, gives the first of the inputs that are nearest to them and end
//!    with the tail.
//! 3. The inputs without their tails are put together. The first seven bits give the seed of the scrambler; seven zeros
//!    are the beginning of no sequence, and the outcome is [`Outcome::SeedZero`].
//! 4. What stands behind the 16 bits of SERVICE, descrambled, are the octets, the least significant bit of each first.
//!
//! At 20 MHz, MCS 0 and one octet there are 104 labels of one bit, 60 of which count. Those of the octet a5 with seed 127
//! begin 0110 0000 and come to a5, with no place that differs; `docs/RECEIVER.md` has this frame whole.
//!
//! [`decode_frame`] works out for each frame where the labels have the coded bits. [`Alone`], a [`Decoder`], keeps that
//! while rate and erased subcarriers stay. [`Together`] does so too, and decodes the codewords of two encoders in two
//! threads, as [`decode_frame_together`] does. All answer `decoded_frame` of `specs/Decoding.antt`, a function with no
//! loop of the code in it. The laws of [`laws`] say that what was sent comes back.
//!
//! The inputs stay in words up to the octets: eight bits are read at a time, of two inputs in turns, and the next octet of the
//! scrambling sequence is added. [`input_comes_to`] does so for the only input of a clause 18 frame.
//!
//! A decoder that knows more of a label bit than the label says has the same parts: a [`Share`] gathers what is known of
//! an encoder's coded bits from any values, one for each label bit, a [`Table`] has the shares of all encoders, and
//! [`inputs_come_to`] takes their inputs to octets, as lists of bits.
#![tactic(auto)]

mod bits;
mod decoded;
mod decoder;
mod erasures;
mod frame_labels;
mod inputs;
mod label_bit;
mod label_values;
pub mod laws;
mod octets;
mod outcome;
mod share;
mod table;
mod together;
mod words;

pub use bits::inputs_come_to;
pub use decoded::Decoded;
pub use decoder::{Alone, Decoder, decode_frame};
pub use inputs::input_comes_to;
pub use octets::Octets;
pub use outcome::Outcome;
pub use share::Share;
pub use table::Table;
pub use together::{Together, decode_frame_together};
pub use words::packed_words;

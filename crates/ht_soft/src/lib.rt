//! Soft values: how much each label bit of a subcarrier weighs, and decoding by these weights.
//!
//! A label bit cuts the vectors of a job in two halves (IEEE Std 802.11-2012, clause 20.3.11.9). [`half`] makes the job
//! of one of them, [`half_grid`] its grid alone, and a detector finds its least distance. [`weight`] takes the two
//! distances: the one with 0 less the one with 1, exact, and cut to the range from -65535 to 65535. A weight is positive
//! where a 1 is likelier.
//!
//! In BPSK with diagonal 10, the sample 3 - 4i lies at the distance 185 from the point of 0 and at 65 from that of 1, so
//! the bit weighs 120.
//!
//! [`soft_decode`] finds the first of the inputs of an encoder that cost least at the weights of its coded bits, where a
//! bit costs the size of a weight that speaks against it. [`soft_frame`] does so for all encoders of a frame, and has what
//! they come to, as `ht_inverse` has it of hard decisions. An erased subcarrier weighs 0 and costs nothing.
//!
//! `specs/Halves.antt` says which vectors a half has, `specs/Weights.antt` what a bit weighs, and `specs/Frames.antt` what
//! the weights of a frame are decoded to.
#![tactic(auto)]

mod frames;
mod halves;
mod soft_decoded;
mod weights;

pub use frames::soft_frame;
pub use halves::{half, half_axes, half_grid, half_of_any};
pub use ht_viterbi::decode_weights as soft_decode;
pub use soft_decoded::SoftDecoded;
pub use weights::weight;

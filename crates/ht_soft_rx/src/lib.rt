//! Captures received by soft decisions: what frames are decoded to by the weights of their label bits (IEEE Std
//! 802.11-2012, clause 20.3.11 backwards).
//!
//! [`receive_soft`] reads a capture from a source, and puts a line for each frame that is whole, and an end line, into a
//! sink; [`receive_soft_alone`] does so in one thread. A label bit weighs the least distance of the vectors where it is 0, less
//! the least one where it is 1, cut to the range from -65535 to 65535; on an erased subcarrier it weighs 0. The octets and the
//! cost of a frame are those of the first of the inputs that cost least at these weights.
//!
//! `soft_results_of` in `specs/Results.antt` defines the results for any octets: the weights are looked up place by place
//! (`frame_weights` in `specs/Weights.antt`) and decoded (`soft_decoded_frame` of `ht_soft`). `soft_rx_text` in
//! `specs/Texts.antt` is their text.
//!
//! [`Weights`] is the kind of these frames: of each job on a data subcarrier all weights are found by one search (`ht_weigh`),
//! which begins with the least distance where lanes found it (`ht_rounding`), and kept by their places. `weight_fold` in
//! `specs/Jobs.antt` defines what jobs give so one after another, and [`laws`] says that both definitions give the same
//! results, for any octets.
//!
//! Take a frame at 20 MHz, MCS 0, of one octet, with the diagonal 10 and the sample 0 on each subcarrier. The distances of
//! both halves of each bit are 100, so each bit weighs 0, and every input costs nothing. The first one, all zeros, has no
//! seed:
//!
//! ```text
//! soft 0 cost 0 seed zero
//! end 1 frames
//! ```
#![tactic(auto)]

mod kind;
pub mod laws;
mod line;
mod near_kind;
mod near_work;
mod receiving;
mod soft_result;
mod weighing;

pub use kind::Weights;
pub use receiving::{receive_soft, receive_soft_alone};
pub use soft_result::SoftResult;

//! The results of a capture's frames, as a definition over its octets (IEEE Std 802.11-2012, clause 20.3.11
//! backwards).
//!
//! `results_of` in `specs/Results.antt` gives for any octets a [`FrameResult`] of each frame that is whole among them. Its
//! sums are those of the distances of the nearest vectors, over the data subcarriers and over the pilots (`data_sum_of`,
//! `pilot_sum_of`); its labels are looked up place by place (`frame_labels` in `specs/Labels.antt`) and decoded
//! (`decoded_frame` of `ht_inverse`). `rx_text` in `specs/Texts.antt` is the text of these results, and `detect_text` in
//! `specs/JobTexts.antt` that of a line for each job (`lines_of`), both with the same last line.
//!
//! These definitions don't take the jobs in the order in which they come. `results_from` in `specs/Folding.antt` does: each
//! job adds its distance to a sum of the frame under way and puts its labels on their places, and a frame's last job gives
//! its result. [`laws`] says that both give the same results, for any octets and any first part of their jobs. So a receiver
//! that follows the second meets the first.
//!
//! A lemma shows it for whatever is kept of a job. A `Plan` of `specs/Plans.antt` says which places a frame has and what is
//! kept, and a `Fold` what jobs give one after another; `specs/Captured.antt` has the plans of captures, and `ComesTo`,
//! what such a fold has to meet. Labels are one instance, and the distances of `specs/Distances.antt` another.
//!
//! Take a capture in version 2 of one frame at 20 MHz, MCS 0, of one octet, so of two symbols, in which only the subcarriers 0
//! (data) and 7 (a pilot) are present, each with a channel of 10. Of the samples -7 and 11 in the first symbol and
//! 12 + j and 11 in the second one the sums are 9 + 5 = 14 and 1 + 441 = 442, and the labels of subcarrier 0 are 0 and 1.
//! `proofs/Worked.antt` computes them.
#![tactic(auto)]

mod frame_places;
mod frame_result;
mod labels;
pub mod laws;
mod line;
mod placing;

pub use frame_places::{jobs_in, kind, no_head, same_head};
pub use frame_result::FrameResult;
pub use labels::{label_for, put_kept, same_labels};
pub use line::Line;
pub use placing::KeptPlaces;

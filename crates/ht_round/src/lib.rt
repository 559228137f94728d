//! The law of return: why the receiver is right.
//!
//! `ht_tx` says what is sent of frames, `ht_capture` which octets a capture of samples has, and `ht_results` what the
//! receiver makes of any octets. The laws of [`laws`] join the three definitions: where each sample is exactly what a
//! triangle makes of the points that were sent, and no diagonal of a triangle is 0, the receiver gives each frame's own
//! octets, at distance 0, and no bit of a codeword differs.
//!
//! They rest on two facts. A triangle without a 0 on its diagonal makes different samples of different vectors, so the
//! vector that was sent is the only one at distance 0 (`ht_metric`). And the labels that are sent of a frame are decoded to its
//! octets, and no place differs, at all 64 rates ([`laws::sent_comes_back`]): `ht_tx` says what they are, by where the coded
//! bits of its encoders land, and `ht_inverse` what labels are decoded to.
//!
//! `specs/Exact.antt` says what it means to be received exactly, and `specs/Returned.antt` which results and text frames
//! have that come back. `proofs/Worked.antt` works out the text of two frames, and a symbol of two streams: where 1 and -1 are sent over
//! a triangle with 2 and 1 - j in its first row and 3 in its second one, the samples are 1 + j and -3.
#![tactic(auto)]

pub mod laws;

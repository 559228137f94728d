//! The law of return for clause 18 frames (IEEE Std 802.11-2012): why their receiver is right.
//!
//! `ht_clause18` says which points are sent of a frame, `ht_legacy_files` which octets a capture of samples has,
//! and `ht_legacy_rx` what the receiver makes of any octets. The laws of [`laws`] join the three definitions: where
//! each sample is exactly a diagonal times the point that was sent, and no diagonal is 0, the receiver gives each
//! frame's own octets, at distance 0, and no bit of a codeword differs. The same holds for what passes the simulated
//! channel without noise.
//!
//! One frame at 6 Mbit/s with the octet a5 comes back as
//!
//! ```text
//! frame 0 data 0 pilot 0 code 0 octets a5
//! end 1 frames
//! ```
//!
//! `specs/Exact.antt` says what it means to be received exactly, and `specs/Returned.antt` which results and text frames
//! have that come back.
#![tactic(auto)]

pub mod laws;

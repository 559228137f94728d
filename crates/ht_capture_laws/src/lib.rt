//! What holds of captures (HTCP files), whatever reads or writes them.
//!
//! The crate has laws alone: each function is empty, and its contract is a theorem about the definitions of `ht_capture`
//! and `ht_fields`. It says nothing of a reader, so that a command's text can be defined, and its laws be proved, by
//! the items of octets alone.
//!
//! [`beginnings`]: good fields can always be continued to a capture. [`frames`]: the items of any octets are
//! those of whole frames and then of at most one that is cut off, with the numbers and the places of all jobs; more octets
//! take none of it back. [`files`]: each capture is the file of frames, and shows just these.
//!
//! Since no body does anything, no wrong body can be refused: the must-fail edits turn definitions, which the laws refuse.
//! That the definitions mean what they say is shown by a small capture that is worked out in proofs/Worked.antt.
#![tactic(auto)]

pub mod beginnings;
pub mod files;
pub mod frames;

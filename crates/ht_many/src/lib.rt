//! Several captures, received at the same time, in this thread or by one crew of workers, or each whole by one worker.
//!
//! A laboratory captures with several receivers at a time. [`many`] takes a source and a sink for each capture, receives all of
//! them by one crew, and answers one [`ManyEnd`] for each: `Done` with the number of frames, `Refused` with the first fault, or
//! that its source or its sink failed. Into its sink goes what the command `rx` writes for it: a line for each frame that is
//! whole, and a last line. [`many_alone`] promises the same, and runs every job in the calling thread. [`many_bundle`] and
//! [`many_bundle_alone`] receive the captures of a bundle (HTMB), and put their texts one after another.
//!
//! What is promised for a capture depends on its own octets and devices alone (`specs/Alone.antt`), so its text is the same
//! whatever the others hold, and whichever of their devices fail ([`laws`]). Only lack of memory ends all of them, and then a
//! part of each text was put.
//!
//! Each capture has a lane (crate `ht_lanes`): a reader, the blocks of jobs that are due, and a frame under way. The lanes
//! together are one feed, so the captures share the window and the workers block by block. With a crew each lane has a queue
//! of whole frames too, which the workers find in one place for all lanes. Once no lane gives a block any more, each puts the
//! lines that it kept back, and then each capture gets its last line.
//!
//! Where the captures of a bundle that are dealt to each worker have about the same number of octets, each worker receives its
//! own, one after the other.
//!
//! Three captures, say: a whole one of one frame without a seed, the two octets `HX`, and a whole one of one frame with the
//! octet `a5`. The first sink has `frame 0 data 10400 pilot 800 code 0 seed zero` and `end 1 frames`, the second
//! `refused BadMagic at 1`, the third `frame 0 data 0 pilot 0 code 0 octets a5` and `end 1 frames`, and the answers are
//! `Done(1)`, `Refused` and `Done(1)`. Of the bundle of `HX` alone, `48 54 4d 42 01 01 00 00 00 02 48 58`, the text is
//! `capture 0` and `refused BadMagic at 1`.
#![tactic(auto)]

mod alone;
mod apart;
mod bundle;
mod calls;
mod capture_lane;
mod crew;
mod ending;
mod finishing;
mod frame_lines;
mod gathered_lines;
mod keeping_lines;
pub mod laws;
mod many_end;

pub use calls::{many, many_alone, many_bundle, many_bundle_alone};
pub use many_end::ManyEnd;

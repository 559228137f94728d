//! What files of frames have in common: the magic in front, and the head of each frame.
//!
//! Each format of frames begins with a magic of four octets, a version and the number of frames, and each frame with
//! a head of four: the bandwidth (0 is 20 MHz, 1 is 40 MHz), the MCS (0 to 31) and the length of the PSDU in octets, 1 to
//! 65535, as a big-endian number of two (IEEE Std 802.11-2012, clause 20.6).
//!
//! `01 1f 05 dc` is the head of a frame at 40 MHz, MCS 31, with a PSDU of 1500 octets. With a 2 in front it is
//! BadBandwidth at its first octet, with 20 (32) behind that BadMcs at its second, and with 00 00 as the length
//! BadLength at its third.
//!
//! `magic` and `head` read these from any source or say at which field they stopped; `start_of` and `head_of` are the
//! octets to be written.
//!
//! Other formats begin with a magic, the version 1 and a count of one to eight octets between two limits, as
//! `48 54 43 54 01` and eight octets for a count of at most 2^37. `start` reads these for any such format, and the specs
//! have what is due there.
#![tactic(auto)]

mod reading;
mod starting;
mod writing;

pub use reading::{head, magic};
pub use starting::{Limits, count, start};
pub use writing::{head_of, start_of};

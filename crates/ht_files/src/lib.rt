//! Files of frames (HTTX) and of symbols (HTSY), read whole and written.
//!
//! A file of frames is what a transmitter is given. It begins with the octets `HTTX`, the version 1 and the number of
//! frames. For each frame the bandwidth follows (0 or 1), the MCS (0 to 31), the number of octets of the PSDU (1 to
//! 65535), the seed of the scrambler (1 to 127; IEEE Std 802.11-2012, clause 18.3.5.5) and the octets; and then nothing.
//! The two numbers of two octets are big-endian.
//!
//! `48 54 54 58 01 00 01 00 00 00 01 7f a5` is a file of one frame at 20 MHz, MCS 0, with seed 127 and the octet `a5`.
//! With a 0 in place of the seed it is BadSeed at 11, without its last octet Truncated at 12, and with an octet more
//! Trailing at 13.
//!
//! A file of symbols is what a transmitter sends. It begins with the octets `HTSY`, the version 1 and the number of
//! frames. For each frame bandwidth, MCS and length follow as above, and then its points, in the order symbol,
//! subcarrier from the lowest up, stream: I and Q of two octets, each in two's complement. The number of symbols is
//! that of the length and the rate (clause 20.3.11). A point of a data subcarrier is on the constellation of the MCS,
//! and a pilot is (v, 0) with its value v; `ff 00` is the point (-1, 0). A point that isn't is BadPoint or BadPilot at
//! its first octet.
//!
//! `read_frames` and `read_symbols` read a file to its end from any source, or answer its first fault. `write_frames`
//! and `write_symbols` put the file into any sink and take no memory. What was written is a file of these frames, no
//! file is a prefix of another, and frames of which the same file is written are the same, so that what is read of it
//! are the frames again.
//!
//! [`beginnings`] and [`files`] have laws of the formats, whatever reads or writes such files: good fields can always be
//! continued to a file, and each file is the one that is written of its frames, or of its symbols. So a law that speaks of
//! written files speaks of all files.
#![tactic(auto)]

pub mod beginnings;
pub mod files;
mod frames;
pub mod laws;
mod point;
mod points;
mod symbols;
mod writing;

pub use frames::{read_frames, write_frames};
pub use symbols::read_symbols;
pub use writing::write_symbols;

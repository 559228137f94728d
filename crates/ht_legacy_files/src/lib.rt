//! Files of clause 18 frames (LGTX), read whole and written, and captures of such frames (LGCP): their format, how one is
//! written, and the laws of the format.
//!
//! The file of frames is what a transmitter of the OFDM PHY is given. It begins with the octets `LGTX`, the version 1 and the
//! number of frames. For each frame the index of its rate follows (0 to 7, the rows of IEEE Std 802.11-2012, table 18-4),
//! the number of octets of the PSDU (1 to 4095), the seed of the scrambler (1 to 127) and the octets; and then nothing.
//! The two numbers of two octets are big-endian.
//!
//! `4c 47 54 58 01 00 01 00 00 01 7f a5` is a file of one frame at 6 Mbit/s, with seed 127 and the octet `a5`. With an 8 as
//! its rate it is BadMcs at 7, with no octets or with 4096 BadLength at 8, with seed 0 BadSeed at 10, without its last octet
//! Truncated at 11, and with an octet more Trailing at 12.
//!
//! `read_legacy_frames` reads a file to its end from any source, or answers its first fault. `rate` and `length` read the
//! two fields that captures of such frames have too. `write_legacy_frames` puts the file into any sink and takes no memory.
//! What was written is a file of these frames, no file is a prefix of another, and frames of which the same file is written
//! are the same, so that what is read of it are the frames again.
//!
//! A capture is what a receiver of the OFDM PHY has: the octets `LGCP`, the version 1 and the number of frames. For each
//! frame the index of its rate and the number of octets of the PSDU follow as above, and for each of the 52 subcarriers,
//! the lowest first, its channel, a diagonal of two octets. Then come the samples, symbol after symbol, one for each
//! subcarrier: the real part and the imaginary part, of four octets each in two's complement. Nothing follows the frames.
//! The number of symbols isn't stored: it follows from rate and length. Diagonals and samples are never at fault.
//!
//! `4c 47 43 50 01 00 01 00 00 01` begins a capture of one frame at 6 Mbit/s with one octet, which has 2 symbols and so 946
//! octets in all. With an 8 as its rate it is BadMcs at 7, with no octets or with 4096 BadLength at 8, without its last
//! octet Truncated at 945, and with an octet more Trailing at 946.
//!
//! `add_head` adds what stands in front of a frame's samples, and `add_sample` of `ht_capture::numbers` a sample. The format
//! is `captures` of `specs/CaptureFormats.antt`: it gives the head of each frame, and the samples of each of its symbols.
#![tactic(auto)]

pub mod capture_laws;
mod capture_writing;
mod frames;
pub mod laws;
mod reading;

pub use capture_writing::add_head;
pub use frames::{read_legacy_frames, write_legacy_frames};
pub use reading::{length, rate};

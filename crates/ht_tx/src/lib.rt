//! The transmit chain of a frame of the HT PHY (IEEE Std 802.11-2012, clause 20.3.11): from the octets of a PSDU to the
//! points of its subcarriers.
//!
//! A [`Frame`] is a rate, a seed of the scrambler and 1 to 65535 octets. [`transmit`] gives its [`Symbols`]: a point for
//! each symbol, subcarrier and spatial stream, in this order. The only refusal is lack of memory.
//!
//! 1. SERVICE, 16 zeros, the octets with the least significant bit first, 6 * N_ES tail zeros and the pad zeros are
//!    scrambled, and the places of the tail are set to zero again.
//! 2. The encoders take the bits in turn, code them and leave out what the coding rate's pattern punctures.
//! 3. Each symbol takes the next share of each encoder. The stream parser and the interleaver say which coded bit is
//!    which bit of which label. This is worked out once for a frame, so that no bit of its symbols takes a division.
//! 4. A data subcarrier has the point of its label, and a pilot its value (v, 0).
//!
//! At 20 MHz and MCS 0 the octet a5 with seed 127 takes 2 symbols. The coder's input begins 00001110 11110010 01101100
//! 00000010, the label bits of symbol 0 begin 0110 0000 and its points (-1, 0), (1, 0), (1, 0), (-1, 0); its pilots are
//! 1, 1, 1 and -1.
#![tactic(auto)]

mod coder;
mod frames;
pub mod laws;
mod mapper;
mod points;
mod sending;
mod sources;
mod symbols;
mod transmitter;

pub use frames::Frame;
pub use points::Points;
pub use sending::transmit_all;
pub use symbols::Symbols;
pub use transmitter::transmit;

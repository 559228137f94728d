//! What the transmit chains of both PHYs do alike (IEEE Std 802.11-2012, clauses 18.3.5 and 20.3.11): from octets to the
//! bits that the encoders take, and from coded bits to labels.
//!
//! [`scrambled_data`] makes the DATA bits of a PSDU: SERVICE, the octets with the least significant bit first, the tail
//! and the pads, scrambled, with the places of the tail zero again. [`label`] reads a label from the coded bits at the
//! places of its bits, the first one the most significant.
//!
//! The octet a5 with seed 127, six tail bits and 22 pads begins 00001110 11110010 01101100 00000010. The coded bits
//! 1, 0, 1 at the places of a label make it 5.
#![tactic(auto)]

mod data;
mod labels;

pub use data::scrambled_data;
pub use labels::label;

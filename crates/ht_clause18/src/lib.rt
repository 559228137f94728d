//! The transmit chain of clause 18, the OFDM PHY, at 20 MHz (IEEE Std 802.11-2012, clause 18.3.5): from the octets of a
//! PSDU to the points of its subcarriers, without preamble and SIGNAL.
//!
//! A [`LegacyFrame`] is one of the eight rates, a seed of the scrambler and 1 to 4095 octets. [`legacy_transmit`] gives its
//! points, 52 for each symbol, in the order symbol, subcarrier. The only refusal is lack of memory.
//!
//! 1. SERVICE, 16 zeros, the octets with the least significant bit first, six tail zeros and the pad zeros are scrambled,
//!    and the places of the tail are set to zero again.
//! 2. They are coded, and the coding rate's pattern leaves out some of the coded bits. Each symbol takes the next N_CBPS.
//! 3. The interleaver writes them into rows, reads them from 16 columns, and moves them round within groups of N_BPSC / 2.
//!    Each N_BPSC of them in turn are the label of the next of the 48 data subcarriers, which has the label's point.
//! 4. The four pilots have the polarity p[n + 1] in symbol n, and the highest one has the other sign.
//!
//! At 6 Mbit/s the octet a5 with seed 127 takes 2 symbols, with 18 pads. Symbol 0 is, interleaved, 011 010 011 011 001 000
//! and on, so its points begin (-1, 0), (1, 0), (1, 0), (-1, 0); its pilots are 1, 1, 1 and -1.
#![tactic(auto)]

mod carriers;
mod coder;
mod frames;
pub mod laws;
mod mapper;
mod pilots;
mod places;
pub mod rates;
mod transmitter;

pub use carriers::legacy_carrier;
pub use frames::LegacyFrame;
pub use pilots::legacy_pilot;
pub use places::{legacy_origin, legacy_place};
pub use rates::LegacyRate;
pub use transmitter::legacy_transmit;

//! From the labels of a clause 18 frame to its octets: the coding chain of the OFDM PHY at 20 MHz backwards (IEEE Std
//! 802.11-2012, clause 18.3.5).
//!
//! In go one of the eight rates, the number of octets of the PSDU, 1 to 4095, and a label for each symbol and data
//! subcarrier. Out come the octets, or that there is no seed, and at how many places the coded bits of the answer differ
//! from those of the labels.
//!
//! 1. Each symbol has the next N_CBPS coded bits, and each of them is taken from the label bit where the interleaver puts
//!    it.
//! 2. `ht_clean` gives the first of the inputs that are nearest to them and end with the tail of six zeros.
//! 3. The first seven bits of the input give the seed of the scrambler; seven zeros are the beginning of no sequence. What
//!    stands between SERVICE and the tail, descrambled, are the octets.
//!
//! At 6 Mbit/s one octet takes 2 symbols, so 96 labels of one bit, 60 of which count. Those of the octet a5 with seed 127
//! begin 0110 1001 1011 0010, and come to a5 with no place that differs.
//!
//! [`legacy_decode_frame`] answers `legacy_decoded_frame` of `specs/Decoding.antt`, a minimum over all inputs.
#![tactic(auto)]

mod decoder;
mod gather;
mod label_place;
mod places;

pub use decoder::legacy_decode_frame;

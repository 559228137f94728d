//! Where coded bits land in a frame of the HT PHY (IEEE Std 802.11-2012, clauses 20.3.11.8.2, 20.3.11.8.3 and 20.3.11.9).
//!
//! Between an encoder and a constellation a coded bit takes three steps. The stream parser gives every encoder's share
//! of N_CBPS / N_ES bits of a symbol to the spatial streams, s = max(1, N_BPSCS / 2) bits at a time. The interleaver
//! moves the N_CBPSS bits of each stream. Then N_BPSCS bits from place `carrier * N_BPSCS` on are the label of a data
//! subcarrier. So each coded bit lands at one bit of one label: a symbol, a stream, a data subcarrier and a label bit.
//!
//! [`Landing::of`] follows one coded bit. Transmitters and receivers move whole symbols, and meet the same definition:
//! what a transmitter puts where a bit lands is what a receiver finds for it. [`laws`] says that coded bits and label
//! bits are one to one, so that a frame's labels hold each coded bit once and nothing else.
//!
//! At 40 MHz and MCS 31, four streams of 64-QAM with two encoders, each encoder has a share of 1296 bits. Coded bit
//! 1303 = 1296 + 7 of encoder 0 is bit 1 of stream 3 in symbol 1; it stands at place 512 = 85 * 6 + 2:
//!
//! ```text
//! Landing::of(&rate, 0, 1303) == Landing { symbol: 1, stream: 3, carrier: 85, bit: 2 }
//! ```
#![tactic(auto)]

mod landings;
pub mod laws;
mod shares;

pub use landings::Landing;

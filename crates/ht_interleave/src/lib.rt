//! The HT interleaver, which spreads the coded bits of one symbol and spatial stream over subcarriers and over more and
//! less significant bits of the constellation (IEEE Std 802.11-2012, clause 20.3.11.8, table 20-17).
//!
//! In go the N_CBPSS bits that the stream parser gave to a stream; the same number comes out, of which each N_BPSCS in
//! turn are the label of the next data subcarrier. Bit k goes to the place of three steps: it is written into rows and
//! read from columns (13 columns at 20 MHz, 18 at 40 MHz), moved round within its group of N_BPSCS / 2 bits, and rotated
//! by 0, 2, 1 or 3 times N_ROT * N_BPSCS places on the streams 1 to 4. The receiver goes the same way back.
//!
//! On two streams of 64-QAM at 20 MHz (MCS 13) bit 1 goes to place 24 in the first step, to 26 in the second, and the
//! third leaves it there on stream 1 and takes it to 26 - 132 + 312 = 206 on stream 2. It is bit 2 of the label of data
//! subcarrier 4 on stream 1. Nothing here takes memory.
#![tactic(auto)]

mod blocks;
pub mod laws;
mod places;
mod table;

pub use blocks::{deinterleave, interleave};
pub use places::{origin, place};

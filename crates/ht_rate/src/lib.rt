//! The rates of the HT PHY and the numbers that follow from each: MCS 0 to 31, which have equal modulation on one to
//! four spatial streams and convolutional coding, at 20 MHz and at 40 MHz (IEEE Std 802.11-2012, clause 20.6, tables
//! 20-30 to 20-37; pilot subcarriers by clause 20.3.11.10).
//!
//! In goes the code of a bandwidth, 0 for 20 MHz or 1 for 40 MHz, and an MCS index. Out comes a [`Rate`], one of the
//! 64, or the reason why there is none. It tells its constellation and coding rate, its numbers of streams, encoders,
//! subcarriers and bits, the numbers of symbols and pad bits of a PSDU, and what each subcarrier carries. [`laws`] says
//! what holds of all of them: which index a subcarrier has, and that no frame has more than 1,048,896 labels.
//!
//! MCS 31 at 40 MHz is 64-QAM at rate 5/6 on four streams with two encoders: 108 data subcarriers of 6 bits make 648
//! coded bits a stream, 2592 a symbol, and 2160 data bits a symbol. A PSDU of 65535 octets needs 16 + 524280 + 12 =
//! 524308 bits, so it takes 243 symbols, the last with 572 pad bits, and each codeword has 262154 steps. Subcarrier 5 is
//! the first pilot, and subcarrier 6 the data subcarrier of number 5.
#![tactic(auto)]

mod carriers;
pub mod kinds;
pub mod laws;
mod lengths;
mod parts;
pub mod rates;

pub use kinds::{Bandwidth, Carrier, Modulation, Pattern};
pub use rates::{Rate, RateFault};

//! Octets and their bits.
//!
//! The bits of a PSDU go on the air octet after octet, the least significant bit of each octet
//! first (IEEE Std 802.11-2012, clause 18.3.5). [`octets_to_bits`] lists them in this order,
//! a `bool` for each bit, and [`bits_to_octets`] puts such a list together again:
//!
//! ```text
//! octets  a5                 03
//! bits    1 0 1 0 0 1 0 1    1 1 0 0 0 0 0 0
//! ```
//!
//! Bit `8 * m + i` of the list is the bit of value `2^i` of octet `m`. [`laws`] says that each
//! call undoes the other. [`octet_of`] reads up to eight bits as one number, and takes no memory.
//!
//! [`Bits`] is a list of bits inside a larger value, which a contract sees as that list.
#![tactic(auto)]

mod bits;
mod convert;
pub mod laws;

pub use bits::Bits;
pub use convert::{bits_to_octets, octet_of, octets_to_bits};

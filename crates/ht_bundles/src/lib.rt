//! Bundles of captures (HTMB), read whole.
//!
//! A bundle holds the octets of several files, as a laboratory hands over what it captured at the same time. It begins
//! with the octets `HTMB`, the version 1 and the number of captures, 1 to 16. For each capture the number of its octets
//! follows, as a big-endian number of four octets, and these octets; and then nothing. What a capture holds is never at
//! fault in the bundle.
//!
//! `48 54 4d 42 01 02 00 00 00 02 48 58 00 00 00 00` is a bundle of two captures, `48 58` and one of no octets. With no
//! captures or with 17 it is BadCount at 5, without its last octet Truncated at 15, and with an octet more Trailing
//! at 16.
//!
//! `read_bundle` reads a bundle to its end from any source, or answers its first fault. Memory is taken as octets come,
//! whatever size stands in front of them. No bundle is a prefix of another, equal bundles hold equal captures, and the
//! bundle that is made of captures holds these.
#![tactic(auto)]

mod bundled;
pub mod laws;
mod reading;

pub use bundled::Bundled;
pub use reading::read_bundle;

//! Files that count their entries: a magic, the version 1, the count, the entries one after another, and nothing more.
//!
//! Several formats differ in the magic, in how they count, and in what an entry is. `read_whole` reads any such
//! file to its end, or answers its first fault, given what reads one entry (`Entries`). `write_whole` puts such a file, given
//! what puts one entry (`Putter`). The specs have the grammar of such a format by that of an entry, and the proofs that the
//! file written of entries is a file, that each file is the one that is written of its entries, and that good fields can always
//! be continued to a file. `read_framed` and `write_framed` are these two for frames that have a seed and the octets of a PSDU behind
//! their heads, given what reads and puts a head (`Framed`). `put_packed` puts many items of few octets.
//!
//! With the magic `4c 47 54 58`, a count of two octets and entries of one octet, `4c 47 54 58 01 00 02 07 09` is the file of
//! the entries 7 and 9. Without its last octet it is Truncated at 8, and with an octet more Trailing at 9.
#![tactic(auto)]

mod framed;
mod limits;
mod packing;
mod psdu;
mod reading;
mod writing;

pub use framed::{Framed, read_framed, write_framed};
pub use limits::frame_limits;
pub use packing::{Packer, put_packed};
pub use psdu::{octets, seed};
pub use reading::{Entries, read_whole};
pub use writing::{Putter, write_whole};

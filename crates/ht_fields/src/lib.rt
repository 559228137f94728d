//! Files as lists of fields, where the next field depends on the fields before it.
//!
//! A format is a grammar: a state to begin in and, for each state, what is due: the end of the file, or a
//! field of a given number of octets. Once a field is whole it is judged. It is good, and then it leads to the next state
//! and gives the items that it completes, or it is bad, and then its kind of fault is named.
//!
//! Each list of octets meets exactly one of four cases. It is a file; or it is clean, good fields and then fewer octets
//! than the next field has (Truncated, at the length of the list); or an octet follows a file (Trailing, at that
//! octet); or good fields are followed by a bad one (its kind, at its first octet). The meaning of the octets is the
//! items of the good fields, in order, and this fault. No file is a prefix of another.
//!
//! Take the octet 77, a count of at most 3, and then that many records of two octets, the first below 4. Then
//! `77 2 1 9 3 8` is a file of two records. `77 2 1 9 3` gives the record `1 9` and is Truncated at 5,
//! `77 1 1 9 5` gives it and is Trailing at 4, and `77 3 1 9 4 8 0` gives it and has a bad record at 4.
//!
//! `read_field` reads one field from any source, in whatever pieces the source gives it, and takes no octet
//! behind the field; `read_front` tells how many octets came, also where the source failed. `octet`, `pair` and `number`
//! read a field or say why there is none, `one_octet` one that has a single value, `fill_low` many of one octet each that
//! none may be above a value, and `end` sees that nothing follows. What is at hand they take without asking the source.
//! The specs of this crate have the words for what a reader does and for how the reading of a whole file ends, and `laws`
//! what holds of every format.
#![tactic(auto)]

mod chunk;
pub mod fields;
pub mod laws;
pub mod low;
pub mod read;

pub use chunk::Chunk;
pub use fields::{bad, end, fill, number, octet, one_octet, pair};
pub use low::fill_low;
pub use read::{Field, read_field, read_front};

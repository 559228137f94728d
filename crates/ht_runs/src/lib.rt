//! Runs over one source and one sink: what they promise, and why one stops.
//!
//! A run reads a file of some format from a source and puts what it makes of it into a sink. Most write while they
//! read: a `Filter` in `specs/Filters.antt` says of a list of octets whether it is a whole input, which fault it has, and
//! what is written of it. Others read their input to its end first: a `Conversion` says what it then comes to. A call
//! keeps `Streamed` of its filter or `Converted` of its conversion: for each answer, the good one, the input's first
//! fault, a source or a sink that failed, and lack of memory, what was taken from the source and what was put.
//! It puts all of its output but the line of a fault, which whoever calls it may put: the answer carries the fault.
//!
//! So of a call that copies the octets of a file of `A`s, followed by a full stop, over the source `AAxA`: it answers
//! `Format` with the fault at 2, `AAx` was taken, and `AA` was put.
//!
//! The lemmas in `proofs/` lead there from what a reader gave (`Gives`, in crate `ht_fields`), for any format.
#![tactic(auto)]

pub mod faults;
pub mod laws;

pub use faults::RunFault;

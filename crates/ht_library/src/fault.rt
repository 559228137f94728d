//! Why a call did nothing. Where several faults are there, the answer is the first one that the call's clauses name.

/// The call did what it promises.
pub(crate) const DONE: u32 = 0;

/// Memory ran out.
pub(crate) const NO_MEMORY: u32 = 1;

/// The bandwidth and the MCS index name no rate.
pub(crate) const NO_RATE: u32 = 2;

/// The puncturing pattern is none of the four.
pub(crate) const NO_PATTERN: u32 = 3;

/// The seed is outside 1 to 127, or the bits are those of no seed.
pub(crate) const NO_SEED: u32 = 4;

/// An array has another length than the call asks for.
pub(crate) const BAD_LENGTH: u32 = 5;

/// The rate has no such stream.
pub(crate) const NO_STREAM: u32 = 6;

/// The output is longer than its room; its size is said.
pub(crate) const NO_ROOM: u32 = 7;

/// The input is refused; its first fault is said.
pub(crate) const REFUSED: u32 = 8;

/// There is no constellation whose labels have so many bits.
pub(crate) const NO_MODULATION: u32 = 9;

/// A label has more bits than the constellation's.
pub(crate) const NO_LABEL: u32 = 10;

/// A point is off the constellation.
pub(crate) const NO_POINT: u32 = 11;

/// A certificate doesn't hold; what is wrong with it is said.
pub(crate) const NOT_CERTIFIED: u32 = 12;

//! Where in a file a reader stands.
use ht_io::InFault;

/// How many records are due, the next one among them, and the number of the next one.
#[derive(Clone, Copy, Debug, PartialEq, Eq)]
pub struct Turn {
    /// The number of records that are due, the next one among them.
    pub left: u64,
    /// The number of the next record, counted from 0.
    pub number: u64,
}

/// What a reader does next.
#[derive(Clone, Copy, Debug, PartialEq, Eq)]
pub enum Stage {
    /// It reads what stands in front of the records.
    Begin,
    /// It reads the next record, or the end behind the last one.
    Next(Turn),
    /// It says that the file is whole.
    Ended,
    /// It says again why it stopped.
    Stopped(InFault),
}

//! How one capture among several ended.
use ht_io::FormatFault;

/// How the receiving of one capture ended, whatever became of the others.
#[derive(Clone, Copy, Debug, PartialEq, Eq)]
pub enum ManyEnd {
    /// It is whole, with this number of frames.
    Done(u64),
    /// It isn't whole; this is its first fault.
    Refused(FormatFault),
    /// Its source failed.
    Read,
    /// Its sink failed.
    Write,
}

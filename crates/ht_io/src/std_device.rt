//! A reader or a writer of std, and how often it failed.
ghost use Rattle.std.specs.Prelude.{◌≡◌, ◌≤◌, None, Some};
ghost use Rattle.ht_io.specs.Causes.{HasRisen, one_more};
ghost use Rattle.ht_io.specs.Standard.{inner_of, faults_of, error_of};

use crate::Failed;
use std::io::{self, BufReader};

// How often an interrupted call is tried again within one call of a source or a sink.
pub(crate) const RETRIES: u32 = 1_000;

/// A reader or a writer of std with a count of its failures. The last error of the system is kept.
#[derive(Drop)]
pub struct StdDevice<D> {
    pub(crate) inner: D,
    faults: u64,
    last: Option<io::Error>,
}

/// Reads from a reader of std through its buffer, whose octets are at hand. As a source it shows no octets. An
/// interrupted call is tried again, at most 1,000 times within one read, and then fails.
pub type StdSource<R> = StdDevice<BufReader<R>>;

/// Writes to a writer of std. As a sink it shows no octets. An interrupted call is tried again, at
/// most 1,000 times within one put, and then fails. A write that takes nothing is a failure, and its error is
/// `WriteZero`. Each put flushes at its end.
pub type StdSink<W> = StdDevice<W>;

impl<D> StdDevice<D> {
    /// A device over the reader or the writer. It takes no memory.
    pub fn new(inner: D) -> StdDevice<D>
        ensures device { inner_of result ≡ inner }
        ensures faults { faults_of result ≡ 0 }
        ensures error { error_of result ≡ None }
    {
        StdDevice {
            inner,
            faults: 0,
            last: None,
        }
    }

    /// The error of the system at the last call that failed, or `None` where none has failed.
    #[must_use]
    pub fn last_error(&self) -> Option<io::Error>
        ensures { result ≡ error_of self.now }
    {
        self.last
    }

    // Keeps the error of a call that failed, and counts it.
    pub(crate) fn fail(&mut self, error: io::Error) -> Failed
        ensures device { inner_of self.new ≡ inner_of self.old }
        ensures counted { faults_of self.new ≡ one_more (faults_of self.old) }
        ensures error { error_of self.new ≡ Some error }
        ensures cause { HasRisen (faults_of self.old) (faults_of self.new) }
        ensures later { faults_of self.old ≤ faults_of self.new }
    {
        self.last = Some(error);
        self.faults = self.faults.saturating_add(1);
        Failed
    }
}

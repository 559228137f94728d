//! What a worker passes on its way into a job and out of it.

/// What is called before and after each job, by whoever runs it. Threads may share one gate.
pub trait Gate {
    /// The job of this number is about to be run.
    fn enter(&self, number: u64);

    /// The job of this number was run.
    fn leave(&self, number: u64);

    /// Whether it does nothing, so that jobs may be run several at a time, without a call. Nothing but the order of work depends
    /// on it.
    fn is_open(&self) -> bool {
        false
    }
}

/// A gate that does nothing.
#[derive(Clone, Copy, Debug, Default, PartialEq, Eq)]
pub struct OpenGate;

impl Gate for OpenGate {
    fn enter(&self, _number: u64) {}

    fn leave(&self, _number: u64) {}

    fn is_open(&self) -> bool {
        true
    }
}

//! Counts of certificates.
ghost use Rattle.std.specs.Prelude.{◌≡◌, ◌≤◌, ◌<◌, ◌+◌, if◌then◌else◌};

/// How many certificates were checked, and how many of them hold.
#[derive(Clone, Copy, Debug, PartialEq, Eq)]
pub(crate) struct Score {
    /// The number that were checked.
    pub jobs: u64,
    /// The number of those that hold.
    pub right: u64,
}

impl Score {
    /// No certificates.
    pub(crate) fn new() -> Score
        ensures jobs { result.jobs ≡ 0 }
        ensures right { result.right ≡ 0 }
    {
        Score { jobs: 0, right: 0 }
    }

    /// Counts one certificate more.
    pub(crate) fn count(&mut self, is_right: bool)
        requires few { self.old.jobs < 137438953472 }
        requires right { self.old.right ≤ self.old.jobs }
        ensures jobs { self.new.jobs ≡ self.old.jobs + 1 }
        ensures right { self.new.right ≡ self.old.right + (if is_right then 1 else 0) }
    {
        self.jobs += 1;
        self.right += u64::from(is_right);
    }
}

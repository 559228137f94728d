//! Gates that watch who passes.
use ht_feed::Gate;
use std::sync::atomic::{AtomicU64, Ordering};
use std::thread;

/// What a gate asks of the jobs.
#[derive(Clone, Copy)]
pub(crate) enum Rule {
    /// One job after another.
    InTurn,
    /// Job 0 is held until this number of others have left.
    OthersFirst(u64),
    /// Each of the first to enter, as many as this number, is held until that many have entered.
    AtOnce(u64),
}

/// Counts who enters and who leaves, and those that break its rule: a job out of turn, or one that was held for a million
/// turns.
#[derive(Drop)]
pub(crate) struct Watch {
    rule: Rule,
    entered: AtomicU64,
    left: AtomicU64,
    strays: AtomicU64,
}

impl Watch {
    pub(crate) fn new(rule: Rule) -> Watch {
        Watch {
            rule,
            entered: AtomicU64::new(0),
            left: AtomicU64::new(0),
            strays: AtomicU64::new(0),
        }
    }

    /// How many entered, left, and broke the rule.
    pub(crate) fn counts(&self) -> [u64; 3] {
        [
            self.entered.load(Ordering::SeqCst),
            self.left.load(Ordering::SeqCst),
            self.strays.load(Ordering::SeqCst),
        ]
    }

    // Holds a job until this number of others have passed, or for a million turns.
    fn hold(&self, passed: &AtomicU64, count: u64) {
        for _ in 0..1_000_000u64 {
            if passed.load(Ordering::SeqCst) >= count {
                return;
            }
            thread::yield_now();
        }
        self.count_stray();
    }

    fn count_stray(&self) {
        self.strays.fetch_add(1, Ordering::SeqCst);
    }
}

impl Gate for Watch {
    fn enter(&self, number: u64) {
        let before = self.entered.fetch_add(1, Ordering::SeqCst);
        match self.rule {
            Rule::InTurn if before == number && self.left.load(Ordering::SeqCst) == number => {}
            Rule::InTurn => self.count_stray(),
            Rule::OthersFirst(others) if number == 0 => self.hold(&self.left, others),
            Rule::AtOnce(count) if before < count => self.hold(&self.entered, count),
            _ => {}
        }
    }

    fn leave(&self, number: u64) {
        let before = self.left.fetch_add(1, Ordering::SeqCst);
        if matches!(self.rule, Rule::InTurn) && before != number {
            self.count_stray();
        }
    }
}

//! How large blocks are.
ghost use Rattle.std.specs.Prelude.{◌≡◌, ◌*◌, ◌≤◌, min, if◌then◌else◌};
ghost use Rattle.ht_drive.specs.Paces.{most_for, pace_view};

use std::marker::Model;

/// The most jobs of a block: as many as a symbol at 40 MHz has subcarriers (IEEE Std 802.11-2012, table 20-6).
const LARGEST: u16 = 114;

/// How many jobs the next block is to have at most: one at first, twice as many with each answer, up to a limit, and
/// one again where jobs are hard.
#[derive(Debug, Drop)]
pub struct Pace {
    size: u16,
    most: u16,
}

impl Model for Pace {
    ghost use Rattle.ht_drive.specs.Paces.{IsPace, PaceView, pace_view};

    ghost Value = { PaceView };

    ghost view = { λ p. pace_view p.size p.most };

    ghost invariant = { λ p. IsPace (pace_view p.size p.most) };
}

impl Pace {
    /// The pace of 1 to 64 workers through a window of this number of jobs. A full window has two of the largest blocks
    /// for each worker at least, where it is wide enough.
    pub fn new(workers: u8, window: u16) -> Pace
        requires some { 1 ≤ workers }
        ensures { result ≡ pace_view 1 (most_for workers window) }
    {
        Pace {
            size: 1,
            most: (window / (2 * u16::from(workers))).clamp(1, LARGEST),
        }
    }

    /// Sees the answer to a block, whose jobs were hard or not.
    pub fn see(&mut self, hard: bool)
        ensures { self.new ≡ pace_view (if hard then 1 else min (2 * self.old.size) self.old.most) self.old.most }
    {
        self.size = if hard {
            1
        } else {
            self.size.saturating_mul(2).min(self.most)
        };
    }

    /// How many jobs the next block is to have at most.
    #[must_use]
    pub fn size(&self) -> u16
        ensures value { result ≡ self.now.size }
        ensures some { 1 ≤ result }
        ensures few { result ≤ 114 }
    {
        self.size
    }
}

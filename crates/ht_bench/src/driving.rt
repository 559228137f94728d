//! The drive over random jobs, by one worker or more.

use crate::jobs::JobKind;
use crate::rounds::Rounds;
use ht_crew::{OpenGate, drive};
use std::alloc::{AllocError, Global};
use std::sync::Wait;
use std::thread::Threads;

/// As many slots as the commands give their windows.
const WINDOW: u16 = 256;

/// Which jobs, how often all of them are detected, and by how many workers.
#[derive(Drop)]
pub struct Line {
    workers: u8,
    kind: JobKind,
    count: u32,
}

impl Line {
    /// The line that the words choose.
    pub fn from_words(words: &[String]) -> Option<Line> {
        let [drive, workers, streams, modulation, noise, diagonals, count] = words else {
            return None;
        };
        if drive.as_str() != "drive" {
            return None;
        }
        Some(Line {
            workers: workers.as_str().parse().ok()?,
            kind: JobKind::from_words(
                streams.as_str(),
                modulation.as_str(),
                noise.as_str(),
                diagonals.as_str(),
            )?,
            count: count.as_str().parse().ok()?,
        })
    }

    /// Runs all jobs as often as the line says. The checksum is over all vectors and distances in order, so it is that of
    /// `nearest` over the same jobs.
    pub fn run<R: Threads + Wait + Sync>(&self, rt: &R, alloc: Global) -> Result<u64, AllocError> {
        let workers = self.workers.clamp(1, 64);
        let mut feed = Rounds::new(self.kind.jobs(alloc)?, self.count);
        match drive(rt, alloc, workers, WINDOW, &OpenGate, &mut feed) {
            Ok(_) => Ok(feed.checksum()),
            Err(_) => Err(AllocError),
        }
    }
}

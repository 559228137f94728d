//! Detection of random jobs, one after another.
ghost use Rattle.std.specs.Prelude.{◌≡◌, ◌<◌};

use crate::jobs::JobKind;
use crate::sums::with_hit;
use ht_metric::Job;
use ht_pam::Steps;
use ht_sphere::{into_hit, nearest};
use std::alloc::{AllocError, Global};
use std::marker::Brand;
use std::sync::ledger::{Blank, Ledger};

/// Which call, which jobs, and how often all of them are detected.
#[derive(Drop)]
pub struct Line {
    detector: Detector,
    kind: JobKind,
    count: u32,
}

/// Which call of the detector is run.
#[derive(Clone, Copy)]
enum Detector {
    /// `nearest`, of jobs that stay where they are.
    Nearest,
    /// `into_hit`, of jobs that are given away: a copy of each.
    IntoHit,
}

impl Line {
    /// The line that the words choose.
    pub fn from_words(words: &[String]) -> Option<Line> {
        let [detector, streams, modulation, noise, diagonals, count] = words else {
            return None;
        };
        let detector = match detector.as_str() {
            "nearest" => Detector::Nearest,
            "into_hit" => Detector::IntoHit,
            _ => return None,
        };
        Some(Line {
            detector,
            kind: JobKind::from_words(
                streams.as_str(),
                modulation.as_str(),
                noise.as_str(),
                diagonals.as_str(),
            )?,
            count: count.as_str().parse().ok()?,
        })
    }

    /// Detects all jobs as often as the line says. The checksum is over all vectors and distances.
    pub fn run(&self, alloc: Global) -> Result<u64, AllocError> {
        let jobs = self.kind.jobs(alloc)?;
        let mut checksum = 0u64;
        for _ in 0..self.count {
            checksum = detected(self.detector, &jobs, checksum);
        }
        Ok(checksum)
    }
}

// A checksum that depends on each hit and its place.
fn detected(detector: Detector, jobs: &[Job], start: u64) -> u64 {
    counted::<Brand>(detector, jobs, start, Blank::new(1))
}

// The same, with steps of this blank's counter.
fn counted<L: Ledger>(detector: Detector, jobs: &[Job], start: u64, blank: Blank) -> u64
    requires name { blank.name ≡ L.name }
    requires parts { blank.parts ≡ L.parts }
    requires some { 0 < blank.parts }
{
    let mut steps = Steps::<L>::new(blank);
    let mut checksum = start;
    for job in jobs {
        let hit = match detector {
            Detector::Nearest => nearest(job, &mut steps),
            Detector::IntoHit => into_hit(job.copy(), &mut steps),
        };
        checksum = with_hit(checksum, &hit);
    }
    checksum
}

//! How hard a search was.
ghost use Rattle.std.specs.Prelude.{◌^◌, ◌<◌, length};

use crate::jobs::Jobs;
use ht_metric::{Found, Job};

/// A hard job has at least this number of streams.
const STREAMS: u8 = 3;

/// The distance of a hard job is at least this number of times its measure.
const FAR: u64 = 64;

/// Whether the search for a job whose hit has this distance may have looked at thousands of vectors: many are in the
/// grid, and the one that was found is far. Only the size of blocks depends on it.
pub fn is_hard(job: &Job, distance: u128) -> bool {
    let grid = job.grid();
    if grid.streams() < STREAMS || !grid.i_ladder(1).has(3) {
        return false;
    }
    u64::try_from(distance).unwrap_or(u64::MAX) / measure(job).max(1) >= FAR
}

/// Whether the last job of a block, which stands for all of them, was hard, given what was found for its jobs.
pub fn is_last_hard<B: Jobs>(block: &B, found: &[Found]) -> bool
    requires few { length (B.jobs block.now) < 2 ^ 16 }
{
    let size = block.size();
    match found.last() {
        Some(last) if size > 0 => is_hard(&block.job(size - 1), last.distance),
        _ => false,
    }
}

// Four times the square of the least diagonal of a job's system.
fn measure(job: &Job) -> u64 {
    let least = u64::from(least_diagonal(job));
    4 * least * least
}

// The least diagonal of a job's system.
fn least_diagonal(job: &Job) -> u16 {
    let system = job.system();
    let mut least = u16::MAX;
    for row in 0..system.streams() {
        least = least.min(system.diagonal(row + 1));
    }
    least
}

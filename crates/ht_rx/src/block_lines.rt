//! The lines of the jobs of a block.
ghost use Rattle.std.specs.Prelude.{◌≡◌, ◌*◌, ◌^◌, ◌<◌, ◌≤◌, drop, length, IfOk};
ghost use Rattle.ht_capture.specs.Parts.{jobs_of};
ghost use Rattle.ht_results.specs.JobTexts.{job_lines};

use crate::lane_lines::{LANES, Written, write_in_lanes};
use crate::line_start::LineStart;
use crate::line_texts::AllTexts;
use crate::lines::{LINE, write_line};
use ht_capture_blocks::CaptureBlock;
use ht_feed::{Answer, Gate, Jobs, Work, is_hard};
use ht_frames::run_gated;
use ht_metric::{Found, Job};
use std::alloc::{AllocError, Global};

/// How many zeros are put at once.
const ZEROS: usize = 2048;

/// The lines of the jobs of a block, in their order.
#[derive(Drop)]
pub struct Lines {
    // The lines, behind octets that are no part of them.
    octets: Vec<u8>,
    // Where the lines begin.
    start: usize,
    // Whether the last job was hard.
    hard: bool,
    ghost within: { start ≤ length octets.items },
}

impl Lines {
    /// The lines, each with its line end.
    pub(crate) fn text(&self) -> &[u8]
        ensures { result.now ≡ drop self.now.start self.now.octets.items }
    {
        &self.octets[self.start..]
    }
}

impl Answer for Lines {
    ghost answers = { λ lines jobs. drop lines.start lines.octets.items ≡ job_lines jobs };
}

/// Makes the lines of blocks of a capture. Where the gate is open, jobs are found eight at a time, in lanes (crate
/// `ht_rounding`); else each by itself, between the two calls of the gate. Memory is taken once a block, for lines of 105 octets,
/// and filled from its end: the last job is run first.
#[derive(Drop)]
pub(crate) struct LineWork<'g, G> {
    alloc: Global,
    /// What jobs go through.
    pub(crate) gate: &'g G,
    texts: AllTexts,
}

impl<'g, G> LineWork<'g, G> {
    /// What makes lines, for which `alloc` has memory, where jobs go through a gate. The only error is lack of memory.
    pub(crate) fn new(alloc: Global, gate: &'g G) -> Result<LineWork<'g, G>, AllocError>
        ensures { IfOk result (λ work. work.gate.now ≡ gate.now) }
    {
        let texts = AllTexts::new(alloc)?;
        Ok(LineWork { alloc, gate, texts })
    }
}

impl<'g, G: Gate> Work<CaptureBlock> for LineWork<'g, G> {
    type Answer = Lines;

    fn answer_to(&self, block: &CaptureBlock) -> Result<Lines, AllocError> {
        let mut octets = zeros(self.alloc, LINE * usize::from(block.size()))?;
        let written = write_block(&mut octets, &self.texts, block, self.gate);
        Ok(Lines {
            octets,
            start: written.start,
            hard: written.hard,
        })
    }

    /// Whether the last job, which speaks for all, was found by itself, and was hard.
    fn is_hard(&self, _: &CaptureBlock, lines: &Lines) -> bool {
        lines.hard
    }
}

// Writes the lines of a block's jobs to the end.
fn write_block<G: Gate>(
    into: &mut [u8],
    texts: &AllTexts,
    block: &CaptureBlock,
    gate: &G,
) -> Written
    requires few { length (jobs_of block.now.block) < 2 ^ 16 }
    requires room { LINE * length (jobs_of block.now.block) ≤ length into.old }
    ensures within { result.start ≤ length into.new }
    ensures lines { drop result.start into.new ≡ job_lines (jobs_of block.now.block) }
{
    if gate.is_open() && block.size() >= LANES {
        return write_in_lanes(into, texts, block);
    }
    write_lines(into, block, gate)
}

// Writes the lines of a block's jobs to the end, each job found by itself.
fn write_lines<B: Jobs, G: Gate>(into: &mut [u8], block: &B, gate: &G) -> Written
    requires few { length (B.jobs block.now) < 2 ^ 16 }
    requires room { LINE * length (B.jobs block.now) ≤ length into.old }
    ensures within { result.start ≤ length into.new }
    ensures lines { drop result.start into.new ≡ job_lines (B.jobs block.now) }
{
    let mut front = LineStart::of(0, 0);
    let mut start = into.len();
    let mut hard = false;
    let size = block.size();
    let mut left = size;
    while left > 0 {
        left -= 1;
        let job = block.job(left);
        let found = run_gated(gate, &job);
        hard = hard | is_hard_as_last(left + 1 == size, &job, &found);
        start = write_line(into, start, &mut front, job.place(), &found);
    }
    Written { start, hard }
}

/// Whether this is the last job of a block, and was hard.
#[inline(always)]
pub(crate) fn is_hard_as_last(is_last: bool, job: &Job, found: &Found) -> bool {
    is_last && is_hard(job, found.distance)
}

// This number of zeros. They are put in parts, since tools that count instructions count a longer fill octet by octet.
fn zeros(alloc: Global, count: usize) -> Result<Vec<u8>, AllocError>
    ensures { IfOk result (λ zeros. length zeros.items ≡ count) }
{
    let mut zeros = Vec::with_capacity(alloc, count)?;
    while zeros.len() < count {
        let more = (count - zeros.len()).min(ZEROS);
        zeros.resize(zeros.len() + more, 0)?;
    }
    Ok(zeros)
}

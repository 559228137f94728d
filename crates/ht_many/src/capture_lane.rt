//! A lane for each capture.
ghost use Rattle.std.specs.Prelude.{◌≡◌, map, IfOk};
ghost use Rattle.ht_feed.specs.Limits.{IsCrewSize};
ghost use Rattle.ht_lanes.specs.Lanes.{AreOver};
ghost use Rattle.ht_many.specs.CaptureLanes.{AreNewLanes, IsNew, lane_answer, lane_over};

use crate::frame_lines::FrameLines;
use crate::gathered_lines::GatheredLines;
use ht_capture_blocks::CaptureReader;
use ht_feed::Ended;
use ht_frames::{Frames, Whole};
use ht_lanes::InFlightLane;
use ht_results::no_head;
use ht_runs::RunFault;
use ht_rx::HardLabels;
use std::alloc::{AllocError, Global};

/// What receives one capture among several in one thread: the reader of its octets, the blocks that are due, and the
/// frame under way.
pub(crate) type CaptureLane = InFlightLane<CaptureReader, FrameLines<CaptureReader>>;

/// The same beside workers, who decode whole frames of it.
pub(crate) type CrewLane<'f, R> = InFlightLane<CaptureReader, GatheredLines<'f, R>>;

// A lane that has read nothing. It has room for one block that is due, and takes more memory where more become due.
fn open_lane(alloc: Global) -> Result<CaptureLane, AllocError>
    ensures { IfOk result IsNew }
{
    let reader = CaptureReader::new(alloc)?;
    InFlightLane::new(alloc, reader, no_head(), 1, FrameLines::new(alloc))
}

/// This many lanes that have read nothing. The only error is lack of memory.
pub(crate) fn open_lanes(alloc: Global, count: usize) -> Result<Vec<CaptureLane>, AllocError>
    ensures { IfOk result (λ lanes. AreNewLanes count lanes.items) }
{
    let mut lanes = Vec::new(alloc);
    for _index in 0..count {
        lanes.push(open_lane(alloc)?)?;
    }
    Ok(lanes)
}

// A lane beside this many workers, who find its whole frames there.
fn open_crew_lane<'f, R>(
    rt: &'f R,
    alloc: Global,
    workers: u8,
    frames: &'f Frames<Whole<HardLabels>>,
) -> Result<CrewLane<'f, R>, AllocError>
    requires crew { IsCrewSize workers }
    ensures { IfOk result IsNew }
{
    let reader = CaptureReader::new(alloc)?;
    let lines = GatheredLines::new(rt, alloc, workers, frames);
    InFlightLane::new(alloc, reader, no_head(), 1, lines)
}

/// This many lanes that have read nothing, beside a crew of 1 to 64 workers, of which the caller is one. The workers find
/// whole frames of all of them there. The only error is lack of memory.
pub(crate) fn open_crew_lanes<'f, R>(
    rt: &'f R,
    alloc: Global,
    workers: u8,
    frames: &'f Frames<Whole<HardLabels>>,
    count: usize,
) -> Result<Vec<CrewLane<'f, R>>, AllocError>
    requires crew { IsCrewSize workers }
    ensures { IfOk result (λ lanes. AreNewLanes count lanes.items) }
{
    let mut lanes = Vec::new(alloc);
    for _index in 0..count {
        lanes.push(open_crew_lane(rt, alloc, workers, frames)?)?;
    }
    Ok(lanes)
}

/// How the receiving of each capture ended, once all lanes are over. The only error is lack of memory.
pub(crate) fn answers_of<A: Drop>(
    alloc: Global,
    lanes: &[InFlightLane<CaptureReader, A>],
) -> Result<Vec<Result<Ended, RunFault>>, AllocError>
    requires over { AreOver lane_over 0 lanes.now }
    ensures { IfOk result (λ answers. answers.items ≡ map lane_answer lanes.now) }
{
    let mut answers = Vec::new(alloc);
    for lane in lanes {
        answers.push(lane.end())?;
    }
    Ok(answers)
}

//! How captures ended whose lanes are over.
ghost use Rattle.std.specs.Prelude.{◌≡◌, length, map};
ghost use Rattle.ht_lanes.specs.Lanes.{AreOver};
ghost use Rattle.ht_many.specs.LastLines.{FinishesEach};
ghost use Rattle.ht_many.specs.CaptureLanes.{lane_answer, lane_over};

use crate::capture_lane::answers_of;
use crate::finishing::finish;
use crate::many_end::ManyEnd;
use ht_capture_blocks::CaptureReader;
use ht_io::Sink;
use ht_lanes::InFlightLane;
use std::alloc::{AllocError, Global};

/// Puts the last line of each capture, and tells how it ended, once all lanes are over. The only error is lack of
/// memory.
pub(crate) fn end_all<A: Drop, K: Sink>(
    alloc: Global,
    lanes: &[InFlightLane<CaptureReader, A>],
    sinks: &mut [K],
) -> Result<Vec<ManyEnd>, AllocError>
    requires over { AreOver lane_over 0 lanes.now }
    requires pairs { length sinks.old ≡ length lanes.now }
    ensures { FinishesEach K.shown sinks.old sinks.new (map lane_answer lanes.now) result }
{
    let answers = match answers_of(alloc, lanes) {
        Ok(answers) => answers,
        Err(lack) => return Err(lack),
    };
    finish(alloc, &answers, sinks)
}

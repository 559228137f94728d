//! What follows from the definitions. None of these functions does anything.
ghost use Rattle.std.specs.Prelude.{◌≡◌, ℕ, List, ◌++◌, map, take};
ghost use Rattle.ht_capture.specs.declared.items.FrameHead.{FrameHead};
ghost use Rattle.ht_capture.specs.Captures.{capture_of};
ghost use Rattle.ht_capture_laws.specs.Items.{whole_frames};
ghost use Rattle.ht_results.specs.declared.frame_result.FrameResult.{FrameResult as ResultValue};
ghost use Rattle.ht_results.specs.Heads.{Headed as HeadedValue, headed, headed_jobs};
ghost use Rattle.ht_results.specs.Distances.{distance_fold, distances_of};
ghost use Rattle.ht_results.specs.Folding.{FrameSoFar, frame_after, frames_within, no_frame, results_from};
ghost use Rattle.ht_results.specs.Plans.{SoFar, given_from};
ghost use Rattle.ht_results.specs.Results.{frame_result, results_of};
ghost use Rattle.ht_results.specs.Texts.{frame_lines_of};

/// The jobs of a capture one after another, each with the head that came last before it, give the results of the frames
/// that are whole, where no frame is under way at first.
///
/// Two whole frames and then one that is cut off, say, give two results: one with the last job of each whole frame, and
/// none with the jobs behind it.
pub fn folded()
    ensures jobs { (octets : List ℕ) (head : FrameHead) → headed head (capture_of octets).items ≡ headed_jobs octets }
    ensures results { (octets : List ℕ) (frame : FrameSoFar) → frame.left ≡ 0 → results_from frame (headed_jobs octets) ≡ results_of octets }
    ensures none { no_frame.left ≡ 0 }
{}

/// The first jobs of a capture give the results of the frames whose jobs are all among them, which are the first
/// results of the capture; the jobs behind them give the others.
pub fn fronts()
    ensures within { (octets : List ℕ) (frame : FrameSoFar) (count : ℕ) → frame.left ≡ 0
        → results_from frame (take count (headed_jobs octets)) ≡ map frame_result (frames_within count (whole_frames (capture_of octets).items)) }
    ensures first { (octets : List ℕ) (frame : FrameSoFar) (taken rest : List HeadedValue) → frame.left ≡ 0
        → headed_jobs octets ≡ taken ++ rest
        → results_of octets ≡ results_from frame taken ++ results_from (frame_after frame taken) rest }
{}

/// What is kept of a job may be anything: of the distances of the jobs, put on their places one after another, whole
/// frames give what stands on each place.
pub fn distances()
    ensures places { (octets : List ℕ) (frame : SoFar FrameHead ℕ) → frame.left ≡ 0
        → given_from distance_fold frame (headed_jobs octets) ≡ distances_of octets }
{}

/// Jobs one after another may be taken in parts, whatever jobs they are.
pub fn in_parts()
    ensures results { (frame : FrameSoFar) (front back : List HeadedValue)
        → results_from frame (front ++ back) ≡ results_from frame front ++ results_from (frame_after frame front) back }
    ensures state { (frame : FrameSoFar) (front back : List HeadedValue)
        → frame_after frame (front ++ back) ≡ frame_after (frame_after frame front) back }
{}

/// More octets take back no result, and so no line.
pub fn more_octets()
    ensures results { (octets more : List ℕ) → (later : List ResultValue)
        × (results_of (octets ++ more) ≡ results_of octets ++ later) }
    ensures lines { (octets more : List ℕ) → (later : List ℕ)
        × (frame_lines_of (octets ++ more) ≡ frame_lines_of octets ++ later) }
{}

//! What follows from the definitions. None of these functions does anything.
ghost use Rattle.std.specs.Prelude.{◌≡◌, ℕ, ℤ, List};
ghost use Rattle.ht_capture.specs.declared.items.FrameHead.{FrameHead};
ghost use Rattle.ht_results.specs.Heads.{headed_jobs};
ghost use Rattle.ht_results.specs.Plans.{SoFar, given_from};
ghost use Rattle.ht_soft_rx.specs.Jobs.{weight_fold};
ghost use Rattle.ht_soft_rx.specs.Results.{soft_results_of};

/// The weights of the jobs of a capture, put on their places one job after another, give the results of the frames that
/// are whole, where no frame is under way at first.
pub fn jobs()
    ensures { (octets : List ℕ) (frame : SoFar FrameHead ℤ) → frame.left ≡ 0
        → given_from weight_fold frame (headed_jobs octets) ≡ soft_results_of octets }
{}

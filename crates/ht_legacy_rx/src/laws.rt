//! What follows from the definitions. None of these functions does anything.
ghost use Rattle.std.specs.Prelude.{◌≡◌, ℕ, List};
ghost use Rattle.ht_feed.specs.Items.{headed};
ghost use Rattle.ht_legacy_blocks.specs.declared.head.LegacyFrameHead.{LegacyFrameHead as HeadValue};
ghost use Rattle.ht_legacy_rx.specs.Folding.{legacy_results_from, no_frame};
ghost use Rattle.ht_legacy_rx.specs.Results.{LegacySoFar};
ghost use Rattle.ht_legacy_rx.specs.Texts.{legacy_items, legacy_meaning, legacy_results_of};

/// The jobs of a capture one after another, each with the head that came last before it, give the results of the frames
/// that are whole, where no frame is under way at first.
pub fn folded()
    ensures results { (octets : List ℕ) (head : HeadValue) (frame : LegacySoFar) → frame.left ≡ 0
        → legacy_results_from frame (headed head (legacy_items (legacy_meaning octets).items)) ≡ legacy_results_of octets }
    ensures none { no_frame.left ≡ 0 }
{}

//! What follows from the definitions of sending, receiving and decoding. The functions here do nothing: their contracts
//! are laws.
ghost use Rattle.std.specs.Prelude.{◌≡◌, ◌⊎◌, ◌≤◌, ℕ, List, length};
ghost use Rattle.ht_rate.specs.declared.rates.Rate.{Rate};
ghost use Rattle.ht_scramble.specs.Sequence.{IsSeed};
ghost use Rattle.ht_tx.specs.Frames.{FrameView};
ghost use Rattle.ht_tx.specs.Symbols.{SymbolsView};
ghost use Rattle.ht_tx.specs.Transmitted.{AreTransmitted};
ghost use Rattle.ht_inverse.specs.declared.outcome.Outcome.TheVariants.{Octets};
ghost use Rattle.ht_inverse.specs.Decoding.{decoded_frame};
ghost use Rattle.ht_fields.specs.Tests.{AreBytes};
ghost use Rattle.ht_files.specs.Files.{AreFrames, frames_file_of};
ghost use Rattle.ht_files.specs.SymbolFiles.{symbols_file_of};
ghost use Rattle.ht_capture.specs.declared.frames.CaptureFrame.{CaptureFrame};
ghost use Rattle.ht_capture.specs.Contents.{AreTyped, IsVersion};
ghost use Rattle.ht_capture.specs.Files.{AreCaptureFrames, capture_file_of};
ghost use Rattle.ht_results.specs.Results.{results_of};
ghost use Rattle.ht_results.specs.Texts.{rx_text};
ghost use Rattle.ht_sim.specs.Channel.{captures_of};
ghost use Rattle.ht_sim.specs.Passing.{PassesTo};
ghost use Rattle.ht_sim.specs.Samples.{frames_drawn};
ghost use Rattle.ht_round.specs.Returns.{AreLabelsOf, AreOctets};
ghost use Rattle.ht_round.specs.Exact.{AreExact, AreWrittenAgain, ArriveExactly, HoldOctets};
ghost use Rattle.ht_round.specs.Returned.{returned_results, returned_text};

/// The labels that are sent of a frame are decoded to its octets, with no place that differs, at every rate and with any seed.
pub fn sent_comes_back()
    ensures { (f : FrameView) (labels : List ℕ) → IsSeed f.seed → AreOctets f.octets → AreLabelsOf f labels
        → decoded_frame f.rate (length f.octets) 0 labels ≡ record { outcome = Octets f.octets; code = 0 } }
{}

/// Frames that are sent, and received exactly, come back: each frame's result is its own octets, with sums of 0, and the
/// text has a line of it for each frame and then the number of frames. This holds for a capture of version 1, and for
/// one of version 2 in which no subcarrier is erased.
///
/// Of one frame of the octet A5, say, the text is `frame 0 data 0 pilot 0 code 0 octets a5` and then `end 1 frames`.
pub fn exact_comes_back()
    ensures results { (version : ℕ) (frames : List FrameView) (sent : List SymbolsView) (captured : List CaptureFrame)
        → ArriveExactly version frames sent captured → results_of (capture_file_of version captured) ≡ returned_results frames }
    ensures text { (version : ℕ) (frames : List FrameView) (sent : List SymbolsView) (captured : List CaptureFrame)
        → ArriveExactly version frames sent captured → rx_text (capture_file_of version captured) ≡ returned_text frames }

    // Such frames can be written in both versions: every sample fits its 32 bits.
    ensures written { (version : ℕ) (frames : List FrameView) (sent : List SymbolsView) (captured : List CaptureFrame)
        → (version ≡ 1) ⊎ (version ≡ 2) → AreFrames frames → AreTransmitted frames sent → AreExact sent captured
        → AreCaptureFrames captured × AreTyped captured × IsVersion version captured }

    // Read as frames and written again, as `upgrade` does, such a capture comes back too.
    ensures rewritten { (version other into : ℕ) (frames : List FrameView) (sent : List SymbolsView) (captured others : List CaptureFrame)
        → ArriveExactly version frames sent captured → AreWrittenAgain version captured other others into
        → rx_text (capture_file_of into others) ≡ returned_text frames }
{}

/// What passes the simulated channel with noise 0 is received exactly, whatever the seed, and so it comes back.
pub fn simulated_comes_back()
    ensures exact { (seed : ℕ) (sent : List SymbolsView) → AreExact sent (captures_of seed 0 sent) }
    ensures results { (version seed : ℕ) (frames : List FrameView) (sent : List SymbolsView)
        → (version ≡ 1) ⊎ (version ≡ 2) → AreFrames frames → HoldOctets frames → AreTransmitted frames sent
        → results_of (capture_file_of version (captures_of seed 0 sent)) ≡ returned_results frames }
    ensures text { (version seed : ℕ) (frames : List FrameView) (sent : List SymbolsView)
        → (version ≡ 1) ⊎ (version ≡ 2) → AreFrames frames → HoldOctets frames → AreTransmitted frames sent
        → rx_text (capture_file_of version (captures_of seed 0 sent)) ≡ returned_text frames }
{}

/// Files come back too: whatever capture the file of the symbols that are sent for frames passes to, with noise 0, its results
/// are the octets of these frames, and its text is theirs.
pub fn passed_comes_back()
    ensures results { (seed : ℕ) (frames : List FrameView) (sent : List SymbolsView) (output : List ℕ)
        → AreFrames frames → HoldOctets frames → AreTransmitted frames sent → PassesTo seed 0 (symbols_file_of sent) output
        → results_of output ≡ returned_results frames }
    ensures text { (seed : ℕ) (frames : List FrameView) (sent : List SymbolsView) (output : List ℕ)
        → AreFrames frames → HoldOctets frames → AreTransmitted frames sent → PassesTo seed 0 (symbols_file_of sent) output
        → rx_text output ≡ returned_text frames }
{}

/// Frames whose file consists of octets, numbers below 256, have octets themselves, so the laws above speak of each file that
/// there is.
pub fn files_hold_octets()
    ensures { (frames : List FrameView) → AreBytes (frames_file_of frames) → HoldOctets frames }
{}

/// Sample frames are ones of which the laws above speak, whatever the seed: a file can be written of them, and they have
/// octets.
pub fn drawn_can_come_back()
    ensures frames { (seed : ℕ) (rate : Rate) (len count : ℕ) → 1 ≤ len → len ≤ 65535 → count ≤ 65535 → AreFrames (frames_drawn seed rate len count) }
    ensures octets { (seed : ℕ) (rate : Rate) (len count : ℕ) → HoldOctets (frames_drawn seed rate len count) }
{}

//! What follows from the definitions of sending, receiving and decoding clause 18 frames. The functions here do
//! nothing: their contracts are laws.
ghost use Rattle.std.specs.Prelude.{◌≡◌, ◌<◌, ◌^◌, ℕ, List};
ghost use Rattle.ht_fields.specs.Cases.{IsFile};
ghost use Rattle.ht_fields.specs.Tests.{AreBytes};
ghost use Rattle.ht_clause18.specs.Frames.{LegacyFrameView};
ghost use Rattle.ht_legacy_files.specs.Files.{AreFrames, frames_file_of};
ghost use Rattle.ht_legacy_files.specs.Formats.{frames as frames_format};
ghost use Rattle.ht_legacy_files.specs.CaptureFiles.{AreCaptures, LegacyCapture, captures_file_of, items_of};
ghost use Rattle.ht_legacy_files.specs.CaptureFormats.{captures};
ghost use Rattle.ht_legacy_sim.specs.Drawing.{captures_of};
ghost use Rattle.ht_legacy_sim.specs.Passing.{PassesTo};
ghost use Rattle.ht_legacy_rx.specs.Texts.{legacy_results_of, legacy_text};
ghost use Rattle.ht_legacy_return.specs.Exact.{AreExact, HoldOctets};
ghost use Rattle.ht_legacy_return.specs.Returned.{returned_results, returned_text};

/// Whatever the seed, and with noise of 16 bits: what a file of frames passes to is a capture. It gives the heads and
/// the samples that the channel makes of the frames.
pub fn captured()
    ensures fit { (seed noise : ℕ) (frames : List LegacyFrameView) → noise < 2 ^ 16 → AreFrames frames → AreCaptures (captures_of seed noise frames) }
    ensures file { (seed noise : ℕ) (frames : List LegacyFrameView) (output : List ℕ) → noise < 2 ^ 16 → AreFrames frames
        → PassesTo seed noise (frames_file_of frames) output → IsFile captures output (items_of (captures_of seed noise frames)) }
{}

/// Frames that are received exactly come back: each frame's result is its own octets, with sums of 0, and the text has
/// a line of it for each frame and then the number of frames.
///
/// Of one frame of the octet A5, say, the text is `frame 0 data 0 pilot 0 code 0 octets a5` and then `end 1 frames`.
pub fn exact_comes_back()
    ensures results { (frames : List LegacyFrameView) (captured : List LegacyCapture)
        → AreFrames frames → HoldOctets frames → AreExact frames captured → legacy_results_of (captures_file_of captured) ≡ returned_results frames }
    ensures text { (frames : List LegacyFrameView) (captured : List LegacyCapture)
        → AreFrames frames → HoldOctets frames → AreExact frames captured → legacy_text (captures_file_of captured) ≡ returned_text frames }

    // Such frames can be written: every sample fits its 32 bits.
    ensures written { (frames : List LegacyFrameView) (captured : List LegacyCapture)
        → AreFrames frames → AreExact frames captured → AreCaptures captured }
{}

/// What passes the simulated channel with noise 0 is received exactly, whatever the seed, and so it comes back: of each
/// file of frames, whatever capture it passes to.
pub fn passed_comes_back()
    ensures exact { (seed : ℕ) (frames : List LegacyFrameView) → AreExact frames (captures_of seed 0 frames) }
    ensures results { (seed : ℕ) (octets : List ℕ) (frames : List LegacyFrameView) (output : List ℕ)
        → AreBytes octets → IsFile frames_format octets frames → PassesTo seed 0 octets output → legacy_results_of output ≡ returned_results frames }
    ensures text { (seed : ℕ) (octets : List ℕ) (frames : List LegacyFrameView) (output : List ℕ)
        → AreBytes octets → IsFile frames_format octets frames → PassesTo seed 0 octets output → legacy_text output ≡ returned_text frames }
{}

/// Each file of frames holds frames of which the laws above speak: they can be written, and have octets.
pub fn files_hold_octets()
    ensures { (octets : List ℕ) (frames : List LegacyFrameView) → AreBytes octets → IsFile frames_format octets frames → AreFrames frames × HoldOctets frames }
{}

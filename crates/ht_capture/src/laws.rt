//! What holds of captures.
ghost use Rattle.std.specs.Prelude.{◌≡◌, ◌↔◌, ◌<◌, ◌≤◌, ℕ, List, drop};
ghost use Rattle.std.specs.Int.{bit_at};
ghost use Rattle.ht_fields.specs.Cases.{IsFile};
ghost use Rattle.ht_fields.specs.FormatLaws.{IsPrefixFree};
ghost use Rattle.ht_rate.specs.Rates.{carriers_of, streams_of};
ghost use Rattle.ht_capture.specs.declared.items.FrameHead.{FrameHead};
ghost use Rattle.ht_capture.specs.declared.places.Turn.{Turn};
ghost use Rattle.ht_capture.specs.Erased.{flag_at};
ghost use Rattle.ht_capture.specs.Fields.{captures};
ghost use Rattle.ht_capture.specs.Systems.{triangle_octets};
ghost use Rattle.ht_capture.specs.declared.frames.CaptureFrame.{CaptureFrame};
ghost use Rattle.ht_capture.specs.Files.{capture_file_of};
ghost use Rattle.ht_capture.specs.Contents.{items_of};
ghost use Rattle.ht_capture.specs.Reading.{BeginWith};
ghost use Rattle.ht_capture.specs.Taking.{AreWritten};

/// No capture is a prefix of another, and equal captures have equal items.
pub fn no_prefix()
    ensures { IsPrefixFree captures }
{}

/// Bit c of a head's `erased` is set exactly where subcarrier c of the frame is erased. The subcarriers stand behind the
/// four octets of bandwidth, MCS and length.
pub fn erased()
    // In version 2 a subcarrier is erased where its flag is 1.
    ensures flags { (turn : Turn) (at : ℕ) (octets : List ℕ) (head : FrameHead)
        → turn.version ≡ 2 → BeginWith turn at octets head
        → (c : ℕ) → c < carriers_of head.rate
        → (bit_at head.erased c ≡ 1) ↔ (flag_at (triangle_octets (streams_of head.rate)) c (drop 4 octets) ≡ 1) }
    ensures no_more { (turn : Turn) (at : ℕ) (octets : List ℕ) (head : FrameHead)
        → turn.version ≡ 2 → BeginWith turn at octets head
        → (c : ℕ) → carriers_of head.rate ≤ c → bit_at head.erased c ≡ 0 }

    // In version 1 none is.
    ensures none { (turn : Turn) (at : ℕ) (octets : List ℕ) (head : FrameHead)
        → (turn.version ≡ 2 → ⊥) → BeginWith turn at octets head
        → head.erased ≡ 0 }
{}

/// The file written of frames is a capture that holds their heads and their jobs.
pub fn written()
    ensures { (version : ℕ) (frames : List CaptureFrame) → AreWritten version frames
        → IsFile captures (capture_file_of version frames) (items_of frames) }
{}

/// Equal files have equal frames and are of one version, so what is read from a file that was written is its frames.
pub fn equal_files()
    ensures { (version other : ℕ) (frames others : List CaptureFrame)
        → AreWritten version frames → AreWritten other others
        → capture_file_of version frames ≡ capture_file_of other others
        → (version ≡ other) × (frames ≡ others) }
{}

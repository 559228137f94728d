//! Captures as files of frames.
ghost use Rattle.std.specs.Prelude.{◌≡◌, ℕ, List, map, All};
ghost use Rattle.ht_fields.specs.Cases.{IsFile};
ghost use Rattle.ht_capture.specs.declared.frames.CaptureFrame.{CaptureFrame};
ghost use Rattle.ht_capture.specs.declared.items.Item.{Item};
ghost use Rattle.ht_capture.specs.Contents.{AreTyped, IsVersion, items_of};
ghost use Rattle.ht_capture.specs.Fields.{captures};
ghost use Rattle.ht_capture.specs.Files.{AreCaptureFrames};
ghost use Rattle.ht_capture_laws.specs.Items.{IsWholeFrame, frames_in, items_of_frame};
ghost use Rattle.ht_capture_laws.specs.Written.{IsFileOf, items_each};
ghost use Rattle.ht_fields.specs.Tests.{AreBytes};

/// Each capture is the file that is written of exactly one list of frames in one version, 1 or 2. So what is read of a
/// capture can be written again, octet by octet, and whoever knows all that is written knows all captures.
///
/// The least capture in version 2, `48 54 43 50 02 00 00`, is the file of no frames.
pub fn each_of_frames()
    ensures some { (octets : List ℕ) (items : List Item) → AreBytes octets → IsFile captures octets items
        → (version : ℕ) × (frames : List CaptureFrame) × IsFileOf version frames octets items }
    ensures only { (octets : List ℕ) (items those : List Item) (version other : ℕ) (frames others : List CaptureFrame)
        → IsFileOf version frames octets items → IsFileOf other others octets those
        → (version ≡ other) × (frames ≡ others) }
    ensures back { (octets : List ℕ) (items : List Item) (version : ℕ) (frames : List CaptureFrame)
        → IsFileOf version frames octets items → IsFile captures octets items }
{}

/// The frames that the items of written frames show are these frames, one by one, and each is whole.
pub fn frames_of_written()
    ensures each { (frames : List CaptureFrame) → map items_of_frame (frames_in (items_of frames)) ≡ items_each 0 0 frames }
    ensures whole { (version : ℕ) (frames : List CaptureFrame)
        → AreCaptureFrames frames → AreTyped frames → IsVersion version frames
        → All IsWholeFrame (frames_in (items_of frames)) }
{}

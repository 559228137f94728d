//! What holds of captures of clause 18 frames.
ghost use Rattle.std.specs.Prelude.{List};
ghost use Rattle.ht_fields.specs.Cases.{IsFile};
ghost use Rattle.ht_fields.specs.FormatLaws.{CleanCanEnd, IsPrefixFree};
ghost use Rattle.ht_legacy_files.specs.CaptureFormats.{captures};
ghost use Rattle.ht_legacy_files.specs.CaptureFiles.{AreCaptures, LegacyCapture, captures_file_of, items_of};

/// No capture is a prefix of another, and equal captures give equal items.
pub fn no_prefix()
    ensures { IsPrefixFree captures }
{}

/// The file written of frames is a capture, and gives the head of each frame and the samples of its symbols.
pub fn written()
    ensures { (frames : List LegacyCapture) → AreCaptures frames → IsFile captures (captures_file_of frames) (items_of frames) }
{}

/// Good fields, wherever they lead, can be followed by more good fields up to the end of some capture. So octets are clean
/// exactly where they are the first whole fields of some capture, and then fewer octets than its next field has.
///
/// `4c 47 43 50 01 00 01 05` is clean: it begins a capture, here of one frame at 36 Mbit/s.
pub fn clean_can_end()
    ensures { CleanCanEnd captures }
{}

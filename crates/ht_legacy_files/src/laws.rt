//! What holds of files of clause 18 frames.
ghost use Rattle.ht_fields.specs.FormatLaws.{AreFiles, CleanCanEnd, WritesEach};
ghost use Rattle.ht_legacy_files.specs.Formats.{frames as frames_format};
ghost use Rattle.ht_legacy_files.specs.Files.{AreFrames, frames_file_of};

/// Files of frames and lists of frames stand for one another, and good fields can always be continued to a file.
///
/// The file written of frames is a file of these frames and of no others; frames of which the same file is written are the
/// same. No file is a prefix of another, and equal files have equal frames.
///
/// Good fields, wherever they lead, can be followed by more good fields up to the end of some file. So octets are clean
/// exactly where they are the first whole fields of some file, and then fewer octets than its next field has. `4c 47 54 58 01
/// 00 01 05` is clean: it begins a file of frames, here of one frame at 36 Mbit/s.
///
/// Each file of frames is the file that is written of its frames, and they can be written: at most 65535, each with a seed
/// and 1 to 4095 octets. So what is read of a file can be written again, octet by octet. The least file,
/// `4c 47 54 58 01 00 00`, is written of no frames.
pub fn frame_files()
    ensures files { AreFiles frames_format AreFrames frames_file_of }
    ensures clean_can_end { CleanCanEnd frames_format }
    ensures each_of_frames { WritesEach frames_format AreFrames frames_file_of }
{}

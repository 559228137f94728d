//! Which octets are clean: the whole fields that a file of frames or of symbols can begin with, and a part of one more.
ghost use Rattle.ht_fields.specs.FormatLaws.{CleanCanEnd};
ghost use Rattle.ht_files.specs.Frames.{frames as frames_format};
ghost use Rattle.ht_files.specs.Points.{symbols as symbols_format};

/// Good fields, wherever they lead, can be followed by more good fields up to the end of some file of frames. So octets are clean
/// exactly where they are the first whole fields of some file, and then fewer octets than its next field has.
///
/// `48 54 54 58 01 00 01 00 1f` is clean, and so it begins a file of frames, here of one frame at 20 MHz and MCS 31.
pub fn clean_frames_can_end()
    ensures { CleanCanEnd frames_format }
{}

/// Points that fit their places can be followed by more such points up to the end of some file of symbols. So octets are clean
/// exactly where they are the first whole fields of some file, and then fewer octets than its next field has. Those few
/// needn't be that field's own: `48 54 53 59 01 00 01 00 00 00 01 64` is clean, and no file begins with it.
pub fn clean_symbols_can_end()
    ensures { CleanCanEnd symbols_format }
{}

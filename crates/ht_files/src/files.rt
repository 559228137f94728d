//! Files as what is written of frames, or of symbols.
ghost use Rattle.ht_fields.specs.FormatLaws.{WritesEach};
ghost use Rattle.ht_files.specs.Files.{AreFrames, frames_file_of};
ghost use Rattle.ht_files.specs.Frames.{frames as frames_format};
ghost use Rattle.ht_files.specs.Points.{symbols as symbols_format};
ghost use Rattle.ht_files.specs.SymbolFiles.{AreSymbolFrames, symbols_file_of};

/// Each file of frames is the file that is written of its frames, and they can be written: at most 65535, each with a seed
/// and 1 to 65535 octets. So what is read of a file can be written again, octet by octet.
///
/// The least file, `48 54 54 58 01 00 00`, is written of no frames.
pub fn each_of_frames()
    ensures { WritesEach frames_format AreFrames frames_file_of }
{}

/// Each file of symbols is the file that is written of its symbols, and they can be written: each point fits its place,
/// and there are as many as the rate and the length ask for.
pub fn each_of_symbols()
    ensures { WritesEach symbols_format AreSymbolFrames symbols_file_of }
{}

//! What holds of files of frames and of files of symbols.
ghost use Rattle.std.specs.Prelude.{◌≡◌, List};
ghost use Rattle.ht_fields.specs.FormatLaws.{AreFiles};
ghost use Rattle.ht_tx.specs.Frames.{FrameView};
ghost use Rattle.ht_files.specs.Frames.{frames as frames_format};
ghost use Rattle.ht_files.specs.Files.{AreFrames, frames_file_of};
ghost use Rattle.ht_files.specs.Points.{symbols as symbols_format};
ghost use Rattle.ht_files.specs.SymbolFiles.{AreSymbolFrames, symbols_file_of};
ghost use Rattle.ht_tx.specs.Symbols.{SymbolsView};
ghost use Rattle.ht_tx.specs.Transmitted.{AreTransmitted};

/// Files of frames give back what was written: the file written of frames is a file of these frames and of no others.
///
/// Frames of which the same file is written are the same. No file is a prefix of another, and equal files have equal frames.
pub fn frame_files()
    ensures { AreFiles frames_format AreFrames frames_file_of }
{}

/// Files of symbols give back what was written, as [`frame_files`] says of files of frames.
pub fn symbol_files()
    ensures { AreFiles symbols_format AreSymbolFrames symbols_file_of }
{}

/// A file of frames determines the file of symbols that is sent for it: the same file of frames, the same file of symbols.
pub fn one_file_sent()
    ensures { (frames others : List FrameView) (sent also : List SymbolsView)
        → AreFrames frames → AreFrames others → frames_file_of frames ≡ frames_file_of others
        → AreTransmitted frames sent → AreTransmitted others also
        → symbols_file_of sent ≡ symbols_file_of also }
{}

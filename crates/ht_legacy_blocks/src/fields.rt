//! What stands in front of the frames of a capture, and in front of a frame's symbols, each read whole and judged.
ghost use Rattle.std.specs.Prelude.{◌<◌, ◌≤◌, ◌+◌, ◌^◌, [], IfOk};
ghost use Rattle.ht_io.specs.Devices.{IsLater};
ghost use Rattle.ht_fields.specs.Readers.{reader_in};
ghost use Rattle.ht_fields.specs.WholeFiles.{ReadsTo};
ghost use Rattle.ht_legacy_files.specs.CaptureFormats.{captures, captures_due};
ghost use Rattle.ht_legacy_blocks.specs.Fronts.{TellsFront};

use crate::symbol::DIAGONALS;
use ht_clause18::LegacyRate;
use ht_counted::frame_limits;
use ht_fields::fill;
use ht_io::{InFault, Source};
use ht_legacy_files::{length, rate};

/// What stands in front of a frame's symbols.
#[derive(Clone, Copy)]
pub struct Front {
    /// The rate.
    pub rate: LegacyRate,
    /// The octets of its PSDU, 1 to 4095.
    pub length: u16,
    /// The octets of its diagonals.
    pub diagonals: [u8; DIAGONALS],
}

/// Reads what stands in front of the frames, and gives their number.
pub fn start<S: Source>(source: &mut S) -> Result<u16, InFault>
    ensures told { ReadsTo result (reader_in captures captures.start 0 (S.shown source.old))
        (λ count. reader_in captures (captures_due count) 7 (S.shown source.new)) (λ _. []) (S.shown source.new) }
    ensures later { IsLater (S.shown source.old) (S.shown source.new) }
{
    match ht_heads::start(source, b"LGCP", &frame_limits()) {
        Ok(count) => Ok(count as u16),
        Err(fault) => Err(fault),
    }
}

/// Reads what stands in front of the symbols of the next frame, where frames are left.
pub fn frame_front<S: Source>(source: &mut S, at: u64) -> Result<Front, InFault>
    requires offset { at + 107 < 2 ^ 64 }
    ensures told { TellsFront at (S.shown source.old) (S.shown source.new) result }
    ensures some { IfOk result (λ f. 1 ≤ f.length) }
    ensures few { IfOk result (λ f. f.length ≤ 4095) }
    ensures later { IsLater (S.shown source.old) (S.shown source.new) }
{
    let rate = rate(source, at)?;
    let length = length(source, at + 1)?;
    let mut diagonals = [0u8; DIAGONALS];
    fill(source, at + 3, &mut diagonals)?;
    Ok(Front {
        rate,
        length,
        diagonals,
    })
}

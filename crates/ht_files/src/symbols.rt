//! Files of symbols that are read whole.
ghost use Rattle.std.specs.Prelude.{◌<◌, ◌+◌, ◌^◌, ℕ, IfOk, IfErr};
ghost use Rattle.ht_io.specs.Devices.{Takes, IsLater};
ghost use Rattle.ht_fields.specs.Readers.{reader_in};
ghost use Rattle.ht_fields.specs.WholeFiles.{EndsEarly, ReadsWhole};
ghost use Rattle.ht_files.specs.HeadedFormats.{HeadBody, frame_due, headed};
ghost use Rattle.ht_files.specs.Points.{PointDue, pointed, symbols as symbols_format};
ghost use Rattle.ht_files.specs.SymbolFiles.{AreSymbolFrames, IsSymbolFrame, symbols_octets, symbols_file_of};

use crate::points::{read_points, reserve_points};
use ht_counted::{Entries, frame_limits, read_whole};
use ht_heads::head;
use ht_io::{InFault, Source};
use ht_tx::{Points, Symbols};
use std::alloc::Global;

// Reads the symbols of a frame, while frames are left.
fn frame<S: Source>(alloc: Global, source: &mut S, at: u64) -> Result<Symbols, InFault>
    requires offset { at + 18391396 < 2 ^ 64 }
    ensures whole { IfOk result (λ frame. Takes (S.shown source.old) (S.shown source.new) (symbols_octets frame)) }
    ensures fits { IfOk result IsSymbolFrame }
    ensures failed { (left : ℕ) → 0 < left
        → IfErr result (EndsEarly (reader_in symbols_format (frame_due left) at (S.shown source.old)) (S.shown source.new)) }
    ensures later { IsLater (S.shown source.old) (S.shown source.new) }
{
    let (rate, length) = match head(source, at) {
        Ok(head) => head,
        Err(fault) => return Err(fault),
    };
    let mut points = match reserve_points(alloc, &rate, length) {
        Ok(points) => points,
        Err(fault) => return Err(fault),
    };
    match read_points(source, at + 4, &rate, length, &mut points) {
        Ok(()) => Ok(Symbols::new(rate, length, Points::from(points))),
        Err(fault) => Err(fault),
    }
}

// The symbols of the frames of a file, frame by frame.
#[derive(Drop)]
struct SymbolFrames {
    alloc: Global,
}

impl Entries for SymbolFrames {
    type Entry = Symbols;

    ghost State = { HeadBody PointDue };

    ghost format = { headed pointed };

    ghost octets = { symbols_octets };

    ghost fits = { IsSymbolFrame };

    ghost most = { 18391396 };

    ghost ready = { λ _. Unit {0} };

    fn read<S: Source>(&mut self, source: &mut S, at: u64) -> Result<Symbols, InFault> {
        frame(self.alloc, source, at)
    }

    fn size(frame: &Symbols) -> u64 {
        4 + 2 * frame.points().len() as u64
    }
}

/// Reads a file of symbols (HTSY) to its end, and gives the symbols of its frames.
///
/// `Format` comes at the first fault of the file, and `Read` where the source failed before any fault.
pub fn read_symbols<S: Source>(alloc: Global, source: &mut S) -> Result<Vec<Symbols>, InFault>
    // What was left was the file of these symbols, and is taken.
    ensures file { IfOk result (λ frames. ReadsWhole AreSymbolFrames symbols_file_of (S.shown source.old) (S.shown source.new) frames.items) }

    // A refusal is the first fault of the file, or its source failed within a file or behind it.
    ensures refused { IfErr result (EndsEarly (reader_in symbols_format symbols_format.start 0 (S.shown source.old)) (S.shown source.new)) }
    ensures later { IsLater (S.shown source.old) (S.shown source.new) }
{
    let frames = &mut SymbolFrames { alloc };
    read_whole(alloc, b"HTSY", &frame_limits(), frames, source)
}

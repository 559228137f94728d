//! Files of frames, read whole and written.
ghost use Rattle.std.specs.Prelude.{◌≡◌, ◌≤◌, ◌++◌, ◌∷◌, [], length, IfOk, IfErr};
ghost use Rattle.ht_io.specs.Devices.{IsLater, Puts};
ghost use Rattle.ht_fields.specs.Readers.{reader_in};
ghost use Rattle.ht_fields.specs.WholeFiles.{EndsEarly, ReadsWhole};
ghost use Rattle.ht_legacy_files.specs.HeadedFormats.{headed};
ghost use Rattle.ht_legacy_files.specs.Formats.{FrameBody, framed, frames as frames_format, framing, head_octets};
ghost use Rattle.ht_legacy_files.specs.Files.{AreFrames, frames_file_of};

use crate::reading::{length, rate};
use ht_clause18::{LegacyFrame, LegacyRate};
use ht_counted::{Framed, read_framed, write_framed};
use ht_io::{Failed, InFault, Sink, Source};
use ht_scramble::Seed;
use std::alloc::Global;

// What stands in front of the octets of a frame.
fn front(frame: &LegacyFrame) -> [u8; 4]
    ensures { result ≡ head_octets frame.now.rate (length frame.now.octets) ++ (frame.now.seed ∷ []) }
{
    let [high, low] = (frame.octets().len() as u16).to_be_bytes();
    [frame.rate().index(), high, low, frame.seed().value()]
}

// The frames of a file.
struct LegacyFrames;

impl Framed for LegacyFrames {
    type Frame = LegacyFrame;

    type Rate = LegacyRate;

    ghost State = { FrameBody };

    ghost format = { headed framed };

    ghost framing = { framing };

    fn magic() -> [u8; 4] {
        *b"LGTX"
    }

    fn width() -> u64 {
        3
    }

    fn head<S: Source>(source: &mut S, at: u64) -> Result<(LegacyRate, u16), InFault> {
        let rate = match rate(source, at) {
            Ok(rate) => rate,
            Err(fault) => return Err(fault),
        };
        match length(source, at + 1) {
            Ok(length) => Ok((rate, length)),
            Err(fault) => Err(fault),
        }
    }

    fn frame(rate: LegacyRate, seed: Seed, octets: Vec<u8>) -> Option<LegacyFrame> {
        LegacyFrame::new(rate, seed, octets)
    }

    fn put_front<K: Sink>(frame: &LegacyFrame, sink: &mut K) -> Result<(), Failed> {
        sink.put(&front(frame))
    }

    fn octets(frame: &LegacyFrame) -> &[u8] {
        frame.octets()
    }
}

/// Reads a file of frames (LGTX) to its end, and gives its frames.
///
/// `Format` comes at the first fault of the file, and `Read` where the source failed before any fault.
#[tactic(auto, unfolding(crate::specs::Files::frames_file_of))]
pub fn read_legacy_frames<S: Source>(
    alloc: Global,
    source: &mut S,
) -> Result<Vec<LegacyFrame>, InFault>
    // What was left was the file of these frames, and is taken.
    ensures file { IfOk result (λ frames. ReadsWhole AreFrames frames_file_of (S.shown source.old) (S.shown source.new) frames.items) }

    // A refusal is the first fault of the file, or its source failed within a file or behind it.
    ensures refused { IfErr result (EndsEarly (reader_in frames_format frames_format.start 0 (S.shown source.old)) (S.shown source.new)) }
    ensures later { IsLater (S.shown source.old) (S.shown source.new) }
{
    read_framed::<LegacyFrames, S>(alloc, source)
}

/// Puts the file of these frames (LGTX). It takes no memory.
///
/// Where the sink fails, a part of the file from its front was put.
#[tactic(auto, unfolding(crate::specs::Files::frames_file_of))]
pub fn write_legacy_frames<K: Sink>(frames: &[LegacyFrame], sink: &mut K) -> Result<(), Failed>
    requires few { length frames.now ≤ 65535 }
    ensures { Puts (K.shown sink.old) (K.shown sink.new) (frames_file_of frames.now) result }
{
    write_framed::<LegacyFrames, K>(frames, sink)
}

//! Files of frames, read whole and written.
ghost use Rattle.std.specs.Prelude.{◌≡◌, ◌≤◌, ◌++◌, ◌∷◌, [], length, IfOk, IfErr};
ghost use Rattle.ht_io.specs.Devices.{IsLater, Puts};
ghost use Rattle.ht_fields.specs.Readers.{reader_in};
ghost use Rattle.ht_fields.specs.WholeFiles.{EndsEarly, ReadsWhole};
ghost use Rattle.ht_heads.specs.Heads.{head_octets};
ghost use Rattle.ht_files.specs.HeadedFormats.{headed};
ghost use Rattle.ht_files.specs.Frames.{FrameBody, framed, frames as frames_format, framing};
ghost use Rattle.ht_files.specs.Files.{AreFrames, frames_file_of};

use ht_counted::{Framed, read_framed, write_framed};
use ht_heads::{head, head_of};
use ht_io::{Failed, InFault, Sink, Source};
use ht_rate::Rate;
use ht_scramble::Seed;
use ht_tx::Frame;
use std::alloc::Global;

// What stands in front of the octets of a frame's PSDU.
fn front(frame: &Frame) -> [u8; 5]
    ensures { result ≡ head_octets frame.now.rate (length frame.now.octets) ++ (frame.now.seed ∷ []) }
{
    let head = head_of(&frame.rate(), frame.octets().len() as u16);
    [head[0], head[1], head[2], head[3], frame.seed().value()]
}

// The frames of a file.
struct Frames;

impl Framed for Frames {
    type Frame = Frame;

    type Rate = Rate;

    ghost State = { FrameBody };

    ghost format = { headed framed };

    ghost framing = { framing };

    fn magic() -> [u8; 4] {
        *b"HTTX"
    }

    fn width() -> u64 {
        4
    }

    fn head<S: Source>(source: &mut S, at: u64) -> Result<(Rate, u16), InFault> {
        head(source, at)
    }

    fn frame(rate: Rate, seed: Seed, octets: Vec<u8>) -> Option<Frame> {
        Frame::new(rate, seed, octets)
    }

    fn put_front<K: Sink>(frame: &Frame, sink: &mut K) -> Result<(), Failed> {
        sink.put(&front(frame))
    }

    fn octets(frame: &Frame) -> &[u8] {
        frame.octets()
    }
}

/// Reads a file of frames (HTTX) to its end, and gives its frames.
///
/// `Format` comes at the first fault of the file, and `Read` where the source failed before any fault.
#[tactic(auto, unfolding(crate::specs::Files::frame_octets, crate::specs::Files::frames_file_of))]
pub fn read_frames<S: Source>(alloc: Global, source: &mut S) -> Result<Vec<Frame>, InFault>
    // What was left was the file of these frames, and is taken.
    ensures file { IfOk result (λ frames. ReadsWhole AreFrames frames_file_of (S.shown source.old) (S.shown source.new) frames.items) }

    // A refusal is the first fault of the file, or its source failed within a file or behind it.
    ensures refused { IfErr result (EndsEarly (reader_in frames_format frames_format.start 0 (S.shown source.old)) (S.shown source.new)) }
    ensures later { IsLater (S.shown source.old) (S.shown source.new) }
{
    read_framed::<Frames, S>(alloc, source)
}

/// Puts the file of these frames (HTTX). It takes no memory.
///
/// Where the sink fails, a part of the file from its front was put.
#[tactic(auto, unfolding(crate::specs::Files::frame_octets, crate::specs::Files::frames_file_of))]
pub fn write_frames<K: Sink>(frames: &[Frame], sink: &mut K) -> Result<(), Failed>
    requires few { length frames.now ≤ 65535 }
    ensures { Puts (K.shown sink.old) (K.shown sink.new) (frames_file_of frames.now) result }
{
    write_framed::<Frames, K>(frames, sink)
}

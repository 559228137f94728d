//! Files of frames that have a seed and the octets of a PSDU behind their heads, read whole and written.
ghost use Rattle.std.specs.Prelude.{◌≡◌, ◌<◌, ◌≤◌, ◌+◌, ◌^◌, ℕ, length, IfOk, IfErr, IfSome, IsSome, OnOk, OnErr};
ghost use Rattle.ht_io.specs.Devices.{Grows, GrowsByPart, Puts, Rose, Takes, IsLater};
ghost use Rattle.ht_fields.specs.Readers.{reader_in};
ghost use Rattle.ht_fields.specs.WholeFiles.{EndsEarly, ReadsWhole};
ghost use Rattle.ht_counted.specs.Counted.{CountedFormat, counted, entries_due};
ghost use Rattle.ht_counted.specs.Framed.{AreFramed, Framing, HasOctets, IsFramed, IsFraming, framed_file, framed_most, framed_octets, front_octets};

use crate::limits::frame_limits;
use crate::psdu::{octets, seed};
use crate::reading::{Entries, read_whole};
use crate::writing::{Putter, write_whole};
use ht_io::{Failed, InFault, Sink, Source};
use ht_scramble::Seed;
use std::alloc::Global;
use std::marker::PhantomData;

/// A format of frames. Each has a head, which says its rate and the number of its octets, the seed of the scrambler, and the
/// octets of its PSDU.
pub trait Framed {
    /// A frame.
    type Frame: Drop;

    /// What the head of a frame says beside the number of octets.
    type Rate: Drop;

    /// Which field of a frame is due.
    ghost State: { Type 0 };

    /// The format of a file.
    ghost format: { CountedFormat State Self.Frame };

    /// How its frames stand in it.
    ghost framing: { Framing State Self.Rate Self.Frame };

    /// The magic of a file.
    fn magic() -> [u8; 4]
        ensures { format.magic ≡ result };

    /// The number of octets of a head.
    fn width() -> u64
        ensures value { result ≡ framing.width }
        ensures heads { (rate : Self.Rate) (len : ℕ) → length (framing.head rate len) ≡ result }
        ensures few { framed_most framing < 2 ^ 32 };

    /// Reads the head of a frame, the first of its octets at offset `at`, while frames are left.
    fn head<S: Source>(source: &mut S, at: u64) -> Result<(Self::Rate, u16), InFault>
        requires offset { at + framed_most framing < 2 ^ 64 }
        ensures whole { IfOk result (λ head. Takes (S.shown source.old) (S.shown source.new) (framing.head head.0 head.1)) }
        ensures some { IfOk result (λ head. 1 ≤ head.1) }
        ensures few { IfOk result (λ head. head.1 ≤ framing.most) }
        ensures failed { (left : ℕ) → 0 < left
            → IfErr result (EndsEarly (reader_in (counted format) (entries_due format.first left) at (S.shown source.old)) (S.shown source.new)) }
        ensures later { IsLater (S.shown source.old) (S.shown source.new) };

    /// The frame of these octets. None only where there are no octets or too many.
    fn frame(rate: Self::Rate, seed: Seed, octets: Vec<u8>) -> Option<Self::Frame>
        ensures valid { HasOctets framing.most octets.items → IsSome result }
        ensures value { IfSome result (λ frame. frame ≡ framing.frame (record { rate = rate; seed = seed; octets = octets.items })) };

    /// Puts what stands in front of the octets of a frame.
    fn put_front<K: Sink>(frame: &Self::Frame, sink: &mut K) -> Result<(), Failed>
        ensures grown { OnOk result (Grows (K.shown sink.old) (K.shown sink.new) (front_octets framing frame.now)) }
        ensures steady { OnOk result ((K.shown sink.new).faults ≡ (K.shown sink.old).faults) }
        ensures part { OnErr result (GrowsByPart (K.shown sink.old) (K.shown sink.new) (front_octets framing frame.now)) }
        ensures cause { OnErr result (Rose (K.shown sink.old) (K.shown sink.new)) }
        ensures later { IsLater (K.shown sink.old) (K.shown sink.new) };

    /// The octets of a frame.
    fn octets(frame: &Self::Frame) -> &[u8]
        ensures { result.now ≡ (framing.parts frame.now).octets };
}

// The frame of these octets.
fn made<F: Framed>(rate: F::Rate, seed: Seed, octets: Vec<u8>) -> F::Frame
    requires { HasOctets F.framing.most octets.items }
    ensures { result ≡ F.framing.frame (record { rate = rate; seed = seed; octets = octets.items }) }
{
    match F::frame(rate, seed, octets) {
        Some(frame) => frame,
        None => unreachable!(),
    }
}

// Reads a frame, while frames are left.
fn frame<F: Framed, S: Source>(alloc: Global, source: &mut S, at: u64) -> Result<F::Frame, InFault>
    requires framing { IsFraming F.format F.framing }
    requires offset { at + framed_most F.framing < 2 ^ 64 }
    ensures whole { IfOk result (λ frame. Takes (S.shown source.old) (S.shown source.new) (framed_octets F.framing frame)) }
    ensures fits { IfOk result (IsFramed F.framing) }
    ensures failed { (left : ℕ) → 0 < left
        → IfErr result (EndsEarly (reader_in (counted F.format) (entries_due F.format.first left) at (S.shown source.old)) (S.shown source.new)) }
    ensures later { IsLater (S.shown source.old) (S.shown source.new) }
{
    let (rate, length) = match F::head(source, at) {
        Ok(head) => head,
        Err(fault) => return Err(fault),
    };
    let behind = at + F::width();
    let seed = match seed(source, behind) {
        Ok(seed) => seed,
        Err(fault) => return Err(fault),
    };
    match octets(alloc, source, behind + 1, length) {
        Ok(octets) => Ok(made::<F>(rate, seed, octets)),
        Err(fault) => Err(fault),
    }
}

// The frames of a file, one by one.
#[derive(Drop)]
struct Frames<F> {
    alloc: Global,
    of: PhantomData<F>,
}

impl<F: Framed> Entries for Frames<F> {
    type Entry = F::Frame;

    ghost State = { F.State };

    ghost format = { F.format };

    ghost octets = { framed_octets F.framing };

    ghost fits = { IsFramed F.framing };

    ghost most = { framed_most F.framing };

    ghost ready = { λ _. IsFraming F.format F.framing };

    fn read<S: Source>(&mut self, source: &mut S, at: u64) -> Result<F::Frame, InFault> {
        frame::<F, S>(self.alloc, source, at)
    }

    fn size(frame: &F::Frame) -> u64 {
        F::width() + 1 + F::octets(frame).len() as u64
    }
}

/// Reads a file of frames to its end, and gives its frames.
///
/// `Format` comes at the first fault of the file, `Read` where the source failed before any fault, and `NoMemory` where
/// there was no memory for a frame.
pub fn read_framed<F: Framed, S: Source>(
    alloc: Global,
    source: &mut S,
) -> Result<Vec<F::Frame>, InFault>
    requires framing { IsFraming F.format F.framing }

    // What was left was the file of these frames, and is taken.
    ensures file { IfOk result (λ frames. ReadsWhole (AreFramed F.framing) (framed_file F.format.magic F.framing)
        (S.shown source.old) (S.shown source.new) frames.items) }

    // A refusal is the first fault of the file, or its source failed within a file or behind it, or memory ran out.
    ensures refused { IfErr result (EndsEarly (reader_in (counted F.format) (counted F.format).start 0 (S.shown source.old)) (S.shown source.new)) }
    ensures later { IsLater (S.shown source.old) (S.shown source.new) }
{
    let mut frames = Frames::<F> {
        alloc,
        of: PhantomData,
    };
    read_whole(alloc, &F::magic(), &frame_limits(), &mut frames, source)
}

// Frames, put one by one.
#[derive(Drop)]
struct Putting<F> {
    of: PhantomData<F>,
}

impl<F: Framed> Putter for Putting<F> {
    type Entry = F::Frame;

    ghost octets = { framed_octets F.framing };

    fn put<K: Sink>(&mut self, frame: &F::Frame, sink: &mut K) -> Result<(), Failed> {
        F::put_front(frame, sink)?;
        sink.put(F::octets(frame))
    }
}

/// Puts the file of these frames. It takes no memory.
///
/// Where the sink fails, a part of the file from its front was put.
pub fn write_framed<F: Framed, K: Sink>(frames: &[F::Frame], sink: &mut K) -> Result<(), Failed>
    requires few { length frames.now ≤ 65535 }
    ensures { Puts (K.shown sink.old) (K.shown sink.new) (framed_file F.format.magic F.framing frames.now) result }
{
    let mut putting = Putting::<F> { of: PhantomData };
    write_whole(&F::magic(), frames, &mut putting, sink)
}

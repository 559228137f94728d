//! The capture of frames, put frame after frame.
ghost use Rattle.std.specs.Prelude.{◌≡◌, ◌⊎◌, ◌<◌, ◌≤◌, length, flat_map, OnErr, OnOk, IfErr};
ghost use Rattle.ht_io.specs.Devices.{Grows, GrowsByPart, IsLater, Puts, Rose};
ghost use Rattle.ht_runs.specs.declared.faults.RunFault.TheVariants.{NoMemory, Write};
ghost use Rattle.ht_capture.specs.Files.{sample_octets};
ghost use Rattle.ht_clause18.specs.Carriers.{carriers};
ghost use Rattle.ht_sim.specs.Channel.{sample_drawn};
ghost use Rattle.ht_sim.specs.Draws.{each};
ghost use Rattle.ht_legacy_files.specs.CaptureFiles.{capture_octets, captures_file_of};
ghost use Rattle.ht_legacy_sim.specs.Drawing.{capture_drawn, captures_of, exact_from};

use crate::drawing::{diagonals, fill};
use ht_clause18::{LegacyFrame, legacy_transmit};
use ht_fields::Chunk;
use ht_heads::start_of;
use ht_io::{Failed, Sink};
use ht_legacy_files::add_head;
use ht_pam::Point;
use ht_runs::RunFault;
use ht_sim::Words;
use std::alloc::Global;

/// The number of samples that are put at once: those of 9 symbols.
const SAMPLES: usize = 468;

// Puts the samples of a frame, of whose points the channel's diagonals and noise make them.
fn put_samples<K: Sink>(
    words: &mut Words,
    noise: u16,
    diagonals: &[u16],
    points: &[Point],
    chunk: &mut Chunk,
    sink: &mut K,
) -> Result<(), Failed>
    requires diagonals { length diagonals.now ≡ carriers }
    ensures puts { Puts (K.shown sink.old) (K.shown sink.new)
        (flat_map sample_octets (each (sample_drawn noise) (exact_from diagonals.now 0 points.now) words.old).value) result }
    ensures words { OnOk result (words.new ≡ (each (sample_drawn noise) (exact_from diagonals.now 0 points.now) words.old).state) }
{
    let mut rest = points;
    let mut place = 0;
    while !rest.is_empty() {
        let (now, later) = rest.split_at(rest.len().min(SAMPLES));
        fill(words, noise, diagonals, place, now, chunk);
        sink.put(chunk.as_slice())?;
        place += now.len();
        rest = later;
    }
    Ok(())
}

// Puts what is received of a frame.
fn put_frame<K: Sink>(
    alloc: Global,
    words: &mut Words,
    noise: u16,
    frame: &LegacyFrame,
    chunk: &mut Chunk,
    sink: &mut K,
) -> Result<(), RunFault>
    ensures grown { OnOk result (Grows (K.shown sink.old) (K.shown sink.new) (capture_octets (capture_drawn noise frame.now words.old).value)) }
    ensures words { OnOk result (words.new ≡ (capture_drawn noise frame.now words.old).state) }
    ensures steady { OnOk result ((K.shown sink.new).faults ≡ (K.shown sink.old).faults) }
    ensures part { OnErr result (GrowsByPart (K.shown sink.old) (K.shown sink.new) (capture_octets (capture_drawn noise frame.now words.old).value)) }
    ensures cause { IfErr result (λ fault. ((fault ≡ Write) × Rose (K.shown sink.old) (K.shown sink.new))
        ⊎ ((fault ≡ NoMemory) × ((K.shown sink.new).faults ≡ (K.shown sink.old).faults))) }
    ensures later { IsLater (K.shown sink.old) (K.shown sink.new) }
{
    let points = legacy_transmit(alloc, frame)?;
    let diagonals = diagonals(words);
    chunk.clear();
    add_head(chunk, frame.rate(), frame.octets().len() as u16, &diagonals);
    sink.put(chunk.as_slice())?;
    put_samples(words, noise, &diagonals, &points, chunk, sink)?;
    Ok(())
}

/// Puts the capture that frames come to, with the words of this seed and noise of at most `noise` in each part.
pub fn put_captures<K: Sink>(
    alloc: Global,
    seed: u64,
    noise: u16,
    frames: &[LegacyFrame],
    sink: &mut K,
) -> Result<(), RunFault>
    requires few { length frames.now ≤ 65535 }
    ensures grown { OnOk result (Grows (K.shown sink.old) (K.shown sink.new) (captures_file_of (captures_of seed noise frames.now))) }
    ensures steady { OnOk result ((K.shown sink.new).faults ≡ (K.shown sink.old).faults) }
    ensures part { OnErr result (GrowsByPart (K.shown sink.old) (K.shown sink.new) (captures_file_of (captures_of seed noise frames.now))) }
    ensures cause { IfErr result (λ fault. ((fault ≡ Write) × Rose (K.shown sink.old) (K.shown sink.new))
        ⊎ ((fault ≡ NoMemory) × ((K.shown sink.new).faults ≡ (K.shown sink.old).faults))) }
    ensures later { IsLater (K.shown sink.old) (K.shown sink.new) }
{
    sink.put(&start_of(b"LGCP", 1, frames.len() as u16))?;
    let mut words = Words::new(seed);
    let mut chunk = Chunk::new();
    for frame in frames {
        put_frame(alloc, &mut words, noise, frame, &mut chunk, sink)?;
    }
    Ok(())
}

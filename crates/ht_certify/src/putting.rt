//! The file of certificates of frames.
ghost use Rattle.std.specs.Prelude.{◌≡◌, ◌≤◌, ◌<◌, ◌*◌, [], All, length, flat_map, count_by, IfOk};
ghost use Rattle.ht_pam.specs.Grids.{IsGrid};
ghost use Rattle.ht_capture.specs.Files.{AreCaptureFrames, FitsFrame};
ghost use Rattle.ht_cert.specs.Files.{record_octets};
ghost use Rattle.ht_certify.specs.Making.{file_of_frames, records_of_frame, records_of_frames, records_of_symbol, records_of_symbols, records_on};
ghost use Rattle.ht_certify.specs.Writing.{Writes};

use crate::making::{job, make};
use crate::subcarriers::{Subcarrier, gather_subcarriers};
use ht_capture::CaptureFrame;
use ht_cert::{Block, Record};
use ht_io::Sink;
use ht_map::grid;
use ht_metric::Sample;
use ht_pam::Grid;
use ht_runs::RunFault;
use std::alloc::{AllocError, Global};

// The number of subcarriers that carry data.
fn data_among(subcarriers: &[Subcarrier]) -> u64
    requires { length subcarriers.now ≤ 114 }
    ensures { result ≡ count_by (λ s. s.carries_data) subcarriers.now }
{
    subcarriers.iter().filter(|s| s.carries_data).count() as u64
}

// The number of records of a frame: one for each symbol and each subcarrier that carries data.
#[tactic(auto, unfolding(crate::specs::Making::records_of_frame))]
fn count_frame(frame: &CaptureFrame, buffer: &mut Vec<Subcarrier>) -> Result<u64, AllocError>
    requires { FitsFrame frame.now }
    ensures count { IfOk result (λ count. count ≡ length (records_of_frame frame.now)) }
    ensures few { IfOk result (λ count. count ≤ 1129296) }
{
    gather_subcarriers(frame, buffer)?;
    let data = data_among(buffer);
    let symbols = u64::from(frame.rate.symbols(frame.length));
    Ok(symbols * data)
}

// The number of records of frames.
fn count(frames: &[CaptureFrame], buffer: &mut Vec<Subcarrier>) -> Result<u64, AllocError>
    requires { AreCaptureFrames frames.now }
    ensures { IfOk result (λ count. count ≡ length (records_of_frames frames.now)) }
{
    let mut records = 0;
    for frame in frames {
        records += count_frame(frame, buffer)?;
    }
    Ok(records)
}

// Adds a record to those that wait, and puts them where they are many.
fn put_record<K: Sink>(recorded: &Record, block: &mut Block, sink: &mut K) -> Result<(), RunFault>
    requires { length recorded.now.certificate.marks ≤ 33554432 }
    ensures { Writes block.old (K.shown sink.old) (K.shown sink.new) (record_octets recorded.now) block.new result }
{
    block.add(recorded)?;
    if block.is_full() {
        block.put(sink)?;
    }
    Ok(())
}

// The same of a subcarrier in a symbol: of a pilot there is none.
fn put_subcarrier<K: Sink>(
    grid: &Grid,
    subcarrier: &Subcarrier,
    samples: &[Sample],
    recorded: &mut Record,
    block: &mut Block,
    sink: &mut K,
) -> Result<(), RunFault>
    requires good { IsGrid grid.now }
    requires grid { length grid.now ≡ length subcarrier.now.triangle }
    requires rows { length samples.now ≡ length subcarrier.now.triangle }
    ensures writes { Writes block.old (K.shown sink.old) (K.shown sink.new)
        (flat_map record_octets (records_on recorded.old.modulation grid.now subcarrier.now samples.now)) block.new result }
    ensures modulation { recorded.new.modulation ≡ recorded.old.modulation }
{
    if subcarrier.carries_data {
        make(recorded, job(grid, &subcarrier.triangle, samples))?;
        put_record(recorded, block, sink)?;
    }
    Ok(())
}

// The same of the subcarriers of a symbol.
fn put_symbol<K: Sink>(
    grid: &Grid,
    subcarriers: &[Subcarrier],
    samples: &[Sample],
    recorded: &mut Record,
    block: &mut Block,
    sink: &mut K,
) -> Result<(), RunFault>
    requires streams { All (λ s. length s.triangle ≡ length grid.now) subcarriers.now }
    requires samples { length samples.now ≡ length subcarriers.now * length grid.now }
    ensures writes { Writes block.old (K.shown sink.old) (K.shown sink.new)
        (flat_map record_octets (records_of_symbol recorded.old.modulation grid.now (length grid.now) subcarriers.now samples.now)) block.new result }
    ensures modulation { recorded.new.modulation ≡ recorded.old.modulation }
{
    let streams = usize::from(grid.streams());
    let mut rest = samples;
    for subcarrier in subcarriers {
        let (now, later) = rest.split_at(streams);
        put_subcarrier(grid, subcarrier, now, recorded, block, sink)?;
        rest = later;
    }
    Ok(())
}

// The same of a number of symbols.
fn put_symbols<K: Sink>(
    grid: &Grid,
    symbols: u32,
    subcarriers: &[Subcarrier],
    samples: &[Sample],
    recorded: &mut Record,
    block: &mut Block,
    sink: &mut K,
) -> Result<(), RunFault>
    requires few { length subcarriers.now ≤ 114 }
    requires streams { All (λ s. length s.triangle ≡ length grid.now) subcarriers.now }
    requires samples { length samples.now ≡ symbols * (length subcarriers.now * length grid.now) }
    ensures writes { Writes block.old (K.shown sink.old) (K.shown sink.new)
        (flat_map record_octets (records_of_symbols recorded.old.modulation grid.now (length grid.now) symbols subcarriers.now samples.now)) block.new result }
    ensures modulation { recorded.new.modulation ≡ recorded.old.modulation }
{
    let width = subcarriers.len() * usize::from(grid.streams());
    let mut rest = samples;
    for _symbol in 0..symbols {
        let (now, later) = rest.split_at(width);
        put_symbol(grid, subcarriers, now, recorded, block, sink)?;
        rest = later;
    }
    Ok(())
}

// The same of a frame.
#[tactic(auto, unfolding(crate::specs::Making::records_of_frame))]
fn put_frame<K: Sink>(
    frame: &CaptureFrame,
    buffer: &mut Vec<Subcarrier>,
    recorded: &mut Record,
    block: &mut Block,
    sink: &mut K,
) -> Result<(), RunFault>
    requires { FitsFrame frame.now }
    ensures { Writes block.old (K.shown sink.old) (K.shown sink.new) (flat_map record_octets (records_of_frame frame.now)) block.new result }
{
    gather_subcarriers(frame, buffer)?;
    recorded.modulation = frame.rate.modulation();
    let symbols = frame.rate.symbols(frame.length);
    let samples = frame.samples.as_slice();
    put_symbols(
        &grid(&frame.rate),
        symbols,
        buffer,
        samples,
        recorded,
        block,
        sink,
    )
}

// The same of frames.
fn put_frames<K: Sink>(
    alloc: Global,
    frames: &[CaptureFrame],
    buffer: &mut Vec<Subcarrier>,
    block: &mut Block,
    sink: &mut K,
) -> Result<(), RunFault>
    requires { All FitsFrame frames.now }
    ensures { Writes block.old (K.shown sink.old) (K.shown sink.new) (flat_map record_octets (records_of_frames frames.now)) block.new result }
{
    let mut recorded = Record::empty(alloc);
    for frame in frames {
        put_frame(frame, buffer, &mut recorded, block, sink)?;
    }
    Ok(())
}

/// Puts the file of certificates of the data jobs of frames, many records at once.
pub fn put_file<K: Sink>(
    alloc: Global,
    frames: &[CaptureFrame],
    sink: &mut K,
) -> Result<(), RunFault>
    requires { AreCaptureFrames frames.now }
    ensures { Writes [] (K.shown sink.old) (K.shown sink.new) (file_of_frames frames.now) [] result }
{
    let mut buffer = Vec::new(alloc);
    let mut block = Block::new(alloc);
    block.add_start(count(frames, &mut buffer)?)?;
    put_frames(alloc, frames, &mut buffer, &mut block, sink)?;
    block.put(sink)?;
    Ok(())
}

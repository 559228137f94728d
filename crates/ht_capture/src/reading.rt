//! Captures that are read whole.
ghost use Rattle.std.specs.Prelude.{◌≡◌, ◌≤◌, ◌<◌, ◌+◌, ◌*◌, ◌/◌, ◌^◌, ℕ, List, length, flat_map, IfOk, IfErr, OnOk};
ghost use Rattle.ht_io.specs.Devices.{Takes, IsLater};
ghost use Rattle.ht_io.specs.declared.faults.InFault.TheVariants.{NoMemory};
ghost use Rattle.ht_rate.specs.Rates.{streams_of, symbols_of};
ghost use Rattle.ht_capture.specs.declared.places.Present.{Present as PresentValue};
ghost use Rattle.ht_capture.specs.Fields.{Symbol, captures, turn_due, next_symbol, next_turn, symbol_due};
ghost use Rattle.ht_capture.specs.Files.{FitsFrame, HasAllCarriers, capture_frame_octets, sample_octets};
ghost use Rattle.ht_capture.specs.Contents.{AreSamples, IsTyped};
ghost use Rattle.ht_capture.specs.Readers.{HasRoom};
ghost use Rattle.ht_capture.specs.Reading.{here};
ghost use Rattle.ht_capture.specs.Taking.{AddsSamples, IsBehind, ReadsCaptures, SameTurn, triangles_of};
ghost use Rattle.ht_fields.specs.WholeFiles.{EndsEarly, ReadsFieldsTo};

use crate::carriers::carriers;
use crate::frames::{CaptureFrame, Samples, Triangles};
use crate::heads::{head, start};
use crate::numbers;
use crate::parts::{self, finish, symbol_width};
use crate::places::{Present, SymbolTurn, Turn};
use ht_io::{InFault, Source};
use ht_metric::{Sample, Tap, Triangle};
use std::alloc::Global;

/// The most subcarriers of a frame.
const CARRIERS: usize = 114;

/// The most octets of a symbol.
const SYMBOL: usize = 3648;

// Adds the samples that stand in the octets, eight octets each.
fn add_samples(samples: &mut Vec<Sample>, octets: &[u8]) -> Result<(), InFault>
    requires whole { 8 * (length octets.now / 8) ≡ length octets.now }
    ensures added { OnOk result (AddsSamples samples.old.items samples.new.items octets.now) }
    ensures memory { IfErr result (λ fault. fault ≡ NoMemory) }
{
    for index in 0..octets.len() / 8 {
        match samples.push(numbers::sample(octets, 8 * index)) {
            Ok(()) => {}
            Err(_) => return Err(InFault::NoMemory),
        }
    }
    Ok(())
}

// Reads the samples of a symbol by way of the buffer, and adds them.
fn symbol<S: Source>(
    source: &mut S,
    at: u64,
    due: &SymbolTurn,
    buffer: &mut [u8],
    samples: &mut Vec<Sample>,
) -> Result<u64, InFault>
    requires { HasRoom due.now at buffer.old }
    ensures told { (present : List PresentValue) → ReadsFieldsTo result (here (Symbol due.now present) at (S.shown source.old))
        (λ behind. here (symbol_due (next_symbol due.now) present) behind (S.shown source.new)) (S.shown source.new) }
    ensures added { OnOk result ((octets : List ℕ) × Takes (S.shown source.old) (S.shown source.new) octets
        × (length octets ≡ due.now.count * (8 * streams_of due.now.head.rate)) × AddsSamples samples.old.items samples.new.items octets) }
    ensures place { IfOk result (λ behind. behind ≤ at + 3648) }
    ensures later { IsLater (S.shown source.old) (S.shown source.new) }
{
    match parts::symbol(source, at, due, buffer) {
        Ok(behind) => match add_samples(samples, &buffer[..symbol_width(due)]) {
            Ok(()) => Ok(behind),
            Err(fault) => Err(fault),
        },
        Err(fault) => Err(fault),
    }
}

// The triangles of subcarriers.
fn triangles(alloc: Global, present: &[Present]) -> Result<Vec<Triangle>, InFault>
    ensures listed { IfOk result (λ triangles. triangles.items ≡ triangles_of present.now) }
    ensures memory { IfErr result (λ fault. fault ≡ NoMemory) }
{
    let mut triangles = Vec::new(alloc);
    for seen in present {
        match triangles.push(seen.triangle) {
            Ok(()) => {}
            Err(_) => return Err(InFault::NoMemory),
        }
    }
    Ok(triangles)
}

// The symbol behind one.
#[tactic(auto, unfolding(crate::specs::Fields::next_symbol))]
fn next(due: &SymbolTurn) -> SymbolTurn
    requires symbol { due.now.symbol < 2 ^ 31 }
    requires number { due.now.turn.number + due.now.count < 2 ^ 64 }
    ensures { result ≡ next_symbol due.now }
{
    SymbolTurn {
        turn: Turn {
            number: due.turn.number + due.count as u64,
            ..due.turn
        },
        symbol: due.symbol + 1,
        ..*due
    }
}

// Reads the samples of a frame from its first symbol on, and goes behind its last one.
fn samples<S: Source>(
    alloc: Global,
    source: &mut S,
    at: &mut u64,
    due: &mut SymbolTurn,
) -> Result<Vec<Sample>, InFault>
    requires offset { at.old + 73565568 < 2 ^ 64 }
    requires number { due.old.turn.number + 2298924 < 2 ^ 64 }
    requires first { due.old.symbol ≡ 0 }
    requires symbols { due.old.symbols ≡ symbols_of due.old.head.rate due.old.head.length }
    requires low { 1 ≤ due.old.symbols }
    requires high { due.old.symbols ≤ 20166 }
    requires some { 1 ≤ due.old.count }
    requires few { due.old.count ≤ 114 }
    ensures told { (present : List PresentValue) → ReadsFieldsTo result (here (Symbol due.old present) at.old (S.shown source.old))
        (λ _. here (turn_due (next_turn due.new.turn)) at.new (S.shown source.new)) (S.shown source.new) }
    ensures octets { IfOk result (λ samples. Takes (S.shown source.old) (S.shown source.new) (flat_map sample_octets samples.items)) }
    ensures typed { IfOk result (λ samples. AreSamples samples.items) }
    ensures count { IfOk result (λ samples. length samples.items
        ≡ symbols_of due.old.head.rate due.old.head.length * (due.old.count * streams_of due.old.head.rate)) }
    ensures turn { IfOk result (λ _. SameTurn due.new.turn due.old.turn) }
    ensures number { IfOk result (λ _. due.new.turn.number ≤ due.old.turn.number + 2298924) }
    ensures place { IfOk result (λ _. at.new ≤ at.old + 73565568) }
    ensures later { IsLater (S.shown source.old) (S.shown source.new) }
{
    let mut samples = Vec::new(alloc);
    let mut buffer = [0u8; SYMBOL];
    while due.symbol < due.symbols {
        match symbol(source, *at, due, &mut buffer, &mut samples) {
            Ok(behind) => *at = behind,
            Err(fault) => return Err(fault),
        }
        *due = next(due);
    }
    Ok(samples)
}

// Room for the subcarriers of a frame.
fn no_subcarriers() -> [Present; CARRIERS]
    ensures { length result ≡ 114 }
{
    let triangle = Triangle::new(1, [0; 4], [Tap { re: 0, im: 0 }; 6]);
    [Present {
        carrier: 0,
        triangle,
    }; CARRIERS]
}

// Reads a frame, and goes behind it.
fn frame<S: Source>(
    alloc: Global,
    source: &mut S,
    turn: &mut Turn,
    at: &mut u64,
) -> Result<CaptureFrame, InFault>
    requires offset { at.old + 73569334 < 2 ^ 64 }
    requires number { turn.old.number + 2298924 < 2 ^ 64 }
    requires left { 0 < turn.old.left }
    requires frames { turn.old.frame + turn.old.left ≤ 65535 }
    ensures told { ReadsFieldsTo result (here (turn_due turn.old) at.old (S.shown source.old))
        (λ _. here (turn_due turn.new) at.new (S.shown source.new)) (S.shown source.new) }
    ensures octets { IfOk result (λ frame. Takes (S.shown source.old) (S.shown source.new) (capture_frame_octets turn.old.version frame)) }
    ensures fits { IfOk result FitsFrame }
    ensures typed { IfOk result IsTyped }
    ensures whole { (turn.old.version ≡ 2 → ⊥) → IfOk result HasAllCarriers }
    ensures turn { IfOk result (λ _. IsBehind turn.new turn.old) }
    ensures place { IfOk result (λ _. at.new ≤ at.old + 73569334) }
    ensures later { IsLater (S.shown source.old) (S.shown source.new) }
{
    let mut head = match head(source, *at, turn) {
        Ok(head) => head,
        Err(fault) => return Err(fault),
    };
    let mut present = no_subcarriers();
    let gathered = match carriers(source, turn, &mut head, &mut present, *at + 4) {
        Ok(gathered) => gathered,
        Err(fault) => return Err(fault),
    };
    let triangles = match triangles(alloc, &present[..gathered.count]) {
        Ok(triangles) => triangles,
        Err(fault) => return Err(fault),
    };
    let mut due = SymbolTurn {
        turn: *turn,
        head,
        symbol: 0,
        symbols: head.rate.symbols(head.length),
        count: gathered.count,
    };
    *at = gathered.at;
    let samples = match samples(alloc, source, at, &mut due) {
        Ok(samples) => samples,
        Err(fault) => return Err(fault),
    };
    *turn = Turn {
        left: turn.left - 1,
        frame: turn.frame + 1,
        ..due.turn
    };
    Ok(CaptureFrame {
        rate: head.rate,
        length: head.length,
        erased: head.erased,
        triangles: Triangles::from(triangles),
        samples: Samples::from(samples),
    })
}

/// Reads a capture of either version to its end, and gives its frames.
///
/// `Format` comes at the first fault of the capture, `Read` where the source failed before any fault, and `NoMemory`
/// where memory ran out.
pub fn read_captures<S: Source>(alloc: Global, source: &mut S) -> Result<Vec<CaptureFrame>, InFault>
    // What was left was the file of these frames, and is taken.
    ensures file { IfOk result (λ frames. ReadsCaptures (S.shown source.old) (S.shown source.new) frames.items) }

    // A refusal is the first fault of the capture, or its source failed within a capture or behind it.
    ensures refused { IfErr result (EndsEarly (here captures.start 0 (S.shown source.old)) (S.shown source.new)) }
    ensures later { IsLater (S.shown source.old) (S.shown source.new) }
{
    let mut turn = match start(source) {
        Ok(turn) => turn,
        Err(fault) => return Err(fault),
    };
    let count = turn.left;
    let mut at = 7;
    let mut frames = Vec::new(alloc);
    for _index in 0..count {
        match frame(alloc, source, &mut turn, &mut at) {
            Ok(frame) => match frames.push(frame) {
                Ok(()) => {}
                Err(_) => return Err(InFault::NoMemory),
            },
            Err(fault) => return Err(fault),
        }
    }
    match finish(source, at) {
        Ok(()) => Ok(frames),
        Err(fault) => Err(fault),
    }
}

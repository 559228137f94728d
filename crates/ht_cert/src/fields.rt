//! The fields of a record, each read whole and judged.
ghost use Rattle.std.specs.Prelude.{◌≡◌, ◌<◌, ◌≤◌, ◌+◌, ◌^◌, ◌||◌, nat_eq, nat_lt, [], ◌∷◌, length, map, take, IfOk, IfErr, OnOk};
ghost use Rattle.ht_io.specs.Devices.{Takes, IsLater};
ghost use Rattle.ht_io.specs.declared.faults.Kind.TheVariants.{BadModulation, BadStreams};
ghost use Rattle.ht_fields.specs.Lacking.{FailsField, LacksField};
ghost use Rattle.ht_fields.specs.Tests.{is_above};
ghost use Rattle.ht_fields.specs.WholeFiles.{ReadsTo};
ghost use Rattle.ht_heads.specs.Starts.{Body};
ghost use Rattle.ht_cert.specs.Formats.{Marks as MarksState, certificates, is_no_streams, records_due};
ghost use Rattle.ht_cert.specs.Formats.{mark_limits as mark_limits_of, record_limits as record_limits_of};
ghost use Rattle.ht_cert.specs.Records.{claim_width as claim_width_of, code_of};
ghost use Rattle.ht_cert.specs.Readers.{FailsMarks, HasItsPoints, ReadsClaim, ReadsMarks, ReadsRecord, here, is_open};

use crate::decoding::{claim_width, fill_record, modulation_of};
use crate::record::Record;
use crate::turn::Turn;
use ht_fields::{bad, fill, fill_low, octet};
use ht_heads::{Limits, count};
use ht_io::{InFault, Kind, Source};
use ht_rate::Modulation;
use ht_witness::Marks;

/// The most octets of triangle, samples, points and distance.
const CLAIM: usize = 88;

/// The number of marks that are read at once.
const MARKS: usize = 128;

// How a file counts its records.
fn record_limits() -> Limits
    ensures { result ≡ record_limits_of }
{
    Limits {
        width: 8,
        least: 0,
        most: 1 << 37,
        kind: Kind::BadLength,
    }
}

// How a record counts its marks.
fn mark_limits() -> Limits
    ensures { result ≡ mark_limits_of }
{
    Limits {
        width: 4,
        least: 0,
        most: 1 << 25,
        kind: Kind::BadLength,
    }
}

/// Reads the 13 octets in front of the records.
pub fn start<S: Source>(source: &mut S) -> Result<Turn, InFault>
    ensures told { ReadsTo result (here certificates.start 0 (S.shown source.old))
        (λ turn. here (records_due turn) 13 (S.shown source.new)) (λ _. []) (S.shown source.new) }
    ensures first { IfOk result (λ turn. turn.number ≡ 0) }
    ensures few { IfOk result (λ turn. turn.left ≤ 137438953472) }
    ensures later { IsLater (S.shown source.old) (S.shown source.new) }
{
    match ht_heads::start(source, b"HTCT", &record_limits()) {
        Ok(left) => Ok(Turn { left, number: 0 }),
        Err(fault) => Err(fault),
    }
}

// Reads the modulation of a record.
fn modulation<S: Source>(source: &mut S, at: u64) -> Result<Modulation, InFault>
    requires offset { at + 1 < 2 ^ 64 }
    ensures whole { IfOk result (λ modulation. Takes (S.shown source.old) (S.shown source.new) (code_of modulation ∷ [])) }
    ensures failed { IfErr result (FailsField 1 BadModulation (is_above 3) at (S.shown source.old) (S.shown source.new)) }
    ensures later { IsLater (S.shown source.old) (S.shown source.new) }
{
    let code = octet(source, at)?;
    if code > 3 {
        Err(bad(Kind::BadModulation, at))
    } else {
        Ok(modulation_of(code))
    }
}

// Reads the number of streams of a record.
fn streams<S: Source>(source: &mut S, at: u64) -> Result<u8, InFault>
    requires offset { at + 1 < 2 ^ 64 }
    ensures whole { IfOk result (λ streams. Takes (S.shown source.old) (S.shown source.new) (streams ∷ [])) }
    ensures some { IfOk result (λ streams. 1 ≤ streams) }
    ensures few { IfOk result (λ streams. streams ≤ 4) }
    ensures failed { IfErr result (FailsField 1 BadStreams is_no_streams at (S.shown source.old) (S.shown source.new)) }
    ensures later { IsLater (S.shown source.old) (S.shown source.new) }
{
    let streams = octet(source, at)?;
    if is_refused(streams) {
        Err(bad(Kind::BadStreams, at))
    } else {
        Ok(streams)
    }
}

// Whether a record can't have this number of streams.
fn is_refused(streams: u8) -> bool
    ensures { result ≡ (nat_eq streams 0 || nat_lt 4 streams) }
{
    streams == 0 || streams > 4
}

// Room for these numbers of a record.
fn no_claim() -> [u8; CLAIM]
    ensures { length result ≡ 88 }
{
    [0u8; CLAIM]
}

// Reads triangle, samples, points and distance into a record, and leaves it without marks.
fn claim<S: Source>(
    source: &mut S,
    at: u64,
    number: u64,
    modulation: Modulation,
    streams: u8,
    into: &mut Record,
) -> Result<u64, InFault>
    requires offset { at + 88 < 2 ^ 64 }
    requires some { 1 ≤ streams }
    requires few { streams ≤ 4 }
    ensures whole { IfOk result (λ behind. ReadsClaim number modulation streams into.new (S.shown source.old) (S.shown source.new)) }
    ensures place { IfOk result (λ behind. behind ≡ at + claim_width_of streams) }
    ensures failed { IfErr result (LacksField (claim_width_of streams) at (S.shown source.old) (S.shown source.new)) }
    ensures later { IsLater (S.shown source.old) (S.shown source.new) }
{
    let mut octets = no_claim();
    let width = claim_width(streams);
    match fill(source, at, &mut octets[..width]) {
        Ok(()) => {
            fill_record(into, number, modulation, streams, &octets[..width]);
            Ok(at + width as u64)
        }
        Err(fault) => Err(fault),
    }
}

// Which of up to 128 levels are open, by their marks.
fn opened(octets: &[u8]) -> [bool; MARKS]
    requires few { length octets.now ≤ 128 }
    ensures marks { take (length octets.now) result ≡ map is_open octets.now }
    ensures places { length result ≡ 128 }
{
    let mut marks = [false; MARKS];
    for k in 0..octets.len() {
        marks[k] = octets[k] == 1;
    }
    marks
}

// Reads up to 128 marks, and appends them.
fn some_marks<S: Source>(
    source: &mut S,
    at: u64,
    count: usize,
    marks: &mut Marks,
) -> Result<(), InFault>
    requires few { count ≤ 128 }
    requires offset { at + count < 2 ^ 64 }
    ensures read { OnOk result (ReadsMarks count marks.old marks.new (S.shown source.old) (S.shown source.new)) }
    ensures failed { IfErr result (FailsMarks count at (S.shown source.old) (S.shown source.new)) }
    ensures later { IsLater (S.shown source.old) (S.shown source.new) }
{
    let mut octets = [0u8; MARKS];
    let octets = &mut octets[..count];
    match fill_low(source, at, 1, Kind::BadMark, octets) {
        Ok(()) => {}
        Err(fault) => return Err(fault),
    }
    marks.extend_from_slice(&opened(octets)[..count])?;
    Ok(())
}

// Reads the marks of a record that has none yet, into the memory that it has for them. Memory is taken for up to 128 at
// a time, as they come.
fn marks<S: Source>(source: &mut S, at: u64, turn: &Turn, into: &mut Record) -> Result<u64, InFault>
    requires offset { at + 33554440 < 2 ^ 64 }
    requires none { into.old.certificate.marks ≡ [] }
    ensures told { ReadsRecord result (here (Body (MarksState turn.now into.old)) at (S.shown source.old)) turn.now into.new (S.shown source.new) }
    ensures number { IfOk result (λ _. into.new.job.number ≡ into.old.job.number) }
    ensures points { IfOk result (λ _. HasItsPoints into.old → HasItsPoints into.new) }
    ensures place { IfOk result (λ behind. behind ≤ at + 33554436) }
    ensures later { IsLater (S.shown source.old) (S.shown source.new) }
{
    let count = match count(source, at, &mark_limits()) {
        Ok(count) => count,
        Err(fault) => return Err(fault),
    };
    let marks = &mut into.certificate.marks;
    let mut read = 0;
    while read < count {
        let more = (count - read).min(MARKS as u64);
        match some_marks(source, at + 4 + read, more as usize, marks) {
            Ok(()) => read += more,
            Err(fault) => return Err(fault),
        }
    }
    Ok(at + 4 + count)
}

/// Reads the next record, and gives the offset behind it.
pub fn record<S: Source>(
    source: &mut S,
    at: u64,
    turn: &Turn,
    into: &mut Record,
) -> Result<u64, InFault>
    requires offset { at + 33554600 < 2 ^ 64 }
    requires left { 0 < turn.now.left }
    ensures told { ReadsRecord result (here (records_due turn.now) at (S.shown source.old)) turn.now into.new (S.shown source.new) }
    ensures number { IfOk result (λ _. into.new.job.number ≡ turn.now.number) }
    ensures points { IfOk result (λ _. HasItsPoints into.new) }
    ensures place { IfOk result (λ behind. behind ≤ at + 33554526) }
    ensures later { IsLater (S.shown source.old) (S.shown source.new) }
{
    let modulation = match modulation(source, at) {
        Ok(modulation) => modulation,
        Err(fault) => return Err(fault),
    };
    let streams = match streams(source, at + 1) {
        Ok(streams) => streams,
        Err(fault) => return Err(fault),
    };
    let behind = match claim(source, at + 2, turn.number, modulation, streams, into) {
        Ok(behind) => behind,
        Err(fault) => return Err(fault),
    };
    match marks(source, behind, turn, into) {
        Ok(behind) => Ok(behind),
        Err(fault) => Err(fault),
    }
}

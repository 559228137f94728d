//! Readers over sources in memory.
use crate::common::{bad, octets_of, push_times, source, spoiled, whole};
use crate::equal::equal;
use ht_capture::{Item, Reader};
use ht_io::{InFault, Kind, MemSource};
use std::alloc::{AllocError, Global};
use std::process::Abort;
use std::test::Fail;

/// Frames of version 1 at 20 MHz and of one octet each, with this MCS and this triangle on each subcarrier. The octets of
/// the samples are multiples of `step`.
fn frames(
    alloc: Global,
    mcs: u8,
    triangle: &[u8],
    count: u8,
    step: u8,
) -> Result<Vec<u8>, AllocError> {
    let mut octets = b"HTCP\x01\x00".to_vec(alloc)?;
    octets.push(count)?;
    for _ in 0..count {
        octets.extend_from_slice(&[0, mcs, 0, 1])?;
        push_times(&mut octets, 56, triangle)?;
        for at in 0..896u16 {
            octets.push(((at % 256) as u8).wrapping_mul(step))?;
        }
    }
    Ok(octets)
}

/// Frames with one stream and the diagonal 10: 1,012 octets each, behind the first 7.
fn one_stream(alloc: Global, count: u8, step: u8) -> Result<Vec<u8>, AllocError> {
    frames(alloc, 0, &[0, 10], count, step)
}

/// A frame with two streams and the diagonals 10: 1,355 octets with those before it.
fn two_streams(alloc: Global) -> Result<Vec<u8>, AllocError> {
    frames(alloc, 8, &[0, 10, 0, 0, 0, 0, 0, 10], 1, 0)
}

/// How many items come from a source, and the answer behind them, which each further call gives again: a fault, or none.
fn read(alloc: Global, mut source: MemSource) -> Result<(u16, Option<InFault>), AllocError> {
    let mut reader = Reader::new(alloc)?;
    let mut count = 0;
    let mut fault = None;
    for call in 0..300u16 {
        match reader.next(&mut source) {
            Ok(Item::Done) => fault = None,
            Ok(_) => count = call + 1,
            Err(found) => fault = Some(found),
        }
    }
    Ok((count, fault))
}

/// How many items stand before an offset in two frames with one stream.
fn items_before(offset: u64) -> u16 {
    match offset {
        0..123 => 0,
        123..571 => 1,
        571..1019 => 57,
        1019..1135 => 113,
        1135..1583 => 114,
        1583..2031 => 170,
        _ => 226,
    }
}

// How many frames there are, an octet at a place, the fault of the capture that has it there, and the items before it.
static SPOILED: [(u8, usize, u8, Kind, u64, u16); 10] = [
    (1, 1, 88, Kind::BadMagic, 1, 0),
    (1, 4, 3, Kind::BadVersion, 4, 0),
    (1, 4, 2, Kind::BadErased, 14, 0),
    (1, 7, 2, Kind::BadBandwidth, 7, 0),
    (1, 8, 32, Kind::BadMcs, 8, 0),
    (1, 10, 0, Kind::BadLength, 9, 0),
    (1, 6, 0, Kind::Trailing, 7, 0),
    (1, 6, 2, Kind::Truncated, 1019, 113),
    (2, 6, 1, Kind::Trailing, 1019, 113),
    (2, 1020, 32, Kind::BadMcs, 1020, 113),
];

#[test]
fn refusals(rt: HostRuntime) -> Result<(), Fail> {
    for &(count, place, octet, kind, offset, items) in &SPOILED {
        let frames = one_stream(rt.alloc(), count, 0)?;
        let octets = spoiled(rt.alloc(), &frames, place, octet)?;
        let answer = read(rt.alloc(), whole(rt.alloc(), octets))?;
        equal(
            &rt,
            (place, answer),
            (place, (items, Some(bad(kind, offset)))),
        );
    }
    Ok(())
}

/// How many jobs a reader gives without a source.
fn ready(reader: &mut Reader) -> u16 {
    let mut count = 0;
    for call in 0..300u16 {
        if reader.ready_job().is_some() {
            count = call + 1;
        }
    }
    count
}

// Behind the first job of each of two symbols come the 55 others.
#[test]
fn jobs_of_symbols(rt: HostRuntime) -> Result<(), Fail> {
    let mut source = whole(rt.alloc(), one_stream(rt.alloc(), 1, 0)?);
    let mut reader = Reader::new(rt.alloc())?;
    for count in [0, 0, 55, 55, 0] {
        let ready = ready(&mut reader);
        let is_read = reader.next(&mut source).is_ok();
        equal(&rt, (ready, is_read), (count, true));
    }
    Ok(())
}

/// A capture that is no frame long, or less, with its fault.
type Short = (&'static [(u16, &'static [u8])], Option<(Kind, u64)>);

static SHORT: [Short; 6] = [
    (&[], Some((Kind::Truncated, 0))),
    (&[(1, b"HT")], Some((Kind::Truncated, 2))),
    (&[(1, b"HX")], Some((Kind::BadMagic, 1))),
    (&[(1, b"HTCP\x02\x00\x00")], None),
    (
        &[(1, b"HTCP\x02\x00\x01\x00\x00\x00\x01\x02")],
        Some((Kind::BadErased, 11)),
    ),
    (
        &[(1, b"HTCP\x02\x00\x01\x00\x00\x00\x01"), (56, &[1])],
        Some((Kind::BadErased, 66)),
    ),
];

#[test]
fn short(rt: HostRuntime) -> Result<(), Fail> {
    for &(parts, fault) in &SHORT {
        let octets = octets_of(rt.alloc(), parts)?;
        let size = octets.len();
        let answer = read(rt.alloc(), whole(rt.alloc(), octets))?;
        let fault = match fault {
            Some((kind, offset)) => Some(bad(kind, offset)),
            None => None,
        };
        equal(&rt, (size, answer), (size, (0, fault)));
    }
    Ok(())
}

/// Asserts that a capture that is cut off here is Truncated, and gives this number of items before.
fn is_truncated(
    rt: &impl Abort,
    alloc: Global,
    file: &[u8],
    end: usize,
    items: u16,
) -> Result<(), Fail> {
    let mut octets = file.to_vec(alloc)?;
    octets.truncate(end);
    let answer = read(alloc, whole(alloc, octets))?;
    equal(rt, answer, (items, Some(bad(Kind::Truncated, end as u64))));
    Ok(())
}

// Cut off anywhere.
#[test]
fn truncated(rt: HostRuntime) -> Result<(), Fail> {
    let two = two_streams(rt.alloc())?;
    for end in 0..two.len() {
        is_truncated(&rt, rt.alloc(), &two, end, if end < 459 { 0 } else { 1 })?;
    }
    let one = one_stream(rt.alloc(), 2, 1)?;
    for end in 0..one.len() {
        is_truncated(&rt, rt.alloc(), &one, end, items_before(end as u64))?;
    }
    Ok(())
}

// A source that fails anywhere.
#[test]
fn failing(rt: HostRuntime) -> Result<(), Fail> {
    let octets = one_stream(rt.alloc(), 2, 1)?;
    for offset in 0..2032u64 {
        let source = source(rt.alloc(), &octets, &[], &[offset])?;
        let answer = read(rt.alloc(), source)?;
        equal(
            &rt,
            (offset, answer),
            (offset, (items_before(offset), Some(InFault::Read))),
        );
    }
    Ok(())
}

/// Whether both sources give the same items, and Done behind them.
fn agree(alloc: Global, mut one: MemSource, mut other: MemSource) -> Result<bool, AllocError> {
    let mut first = Reader::new(alloc)?;
    let mut second = Reader::new(alloc)?;
    for _ in 0..300u16 {
        let same = match (first.next(&mut one), second.next(&mut other)) {
            (Ok(Item::Job(a)), Ok(Item::Job(b))) => a.same(&b),
            (Ok(Item::Frame(a)), Ok(Item::Frame(b))) => a == b,
            (Ok(Item::Done), Ok(Item::Done)) => return Ok(true),
            _ => false,
        };
        if !same {
            return Ok(false);
        }
    }
    Ok(false)
}

// Asserts that these cuts change nothing.
fn cut(rt: &impl Abort, alloc: Global, octets: &[u8], cuts: &[u64]) -> Result<(), Fail> {
    let whole = source(alloc, octets, &[], &[])?;
    let pieces = source(alloc, octets, cuts, &[])?;
    let same = agree(alloc, whole, pieces)?;
    equal(rt, (cuts, same), (cuts, true));
    Ok(())
}

// Sources that cut the octets anywhere, and everywhere.
#[test]
fn pieces(rt: HostRuntime) -> Result<(), Fail> {
    let octets = one_stream(rt.alloc(), 2, 7)?;
    let mut all = Vec::new(rt.alloc());
    for offset in 0..2032u64 {
        cut(&rt, rt.alloc(), &octets, &[offset])?;
        all.push(offset)?;
    }
    cut(&rt, rt.alloc(), &octets, &all)
}

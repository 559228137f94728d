//! Captures that are read and written back.
ghost use Rattle.std.specs.Prelude.{◌≡◌, true, All};
ghost use Rattle.ht_capture.specs.Files.{AreCaptureFrames, HasAllCarriers};

use crate::common::{bad, push_times, source, spoiled};
use crate::equal::equal;
use ht_capture::{CaptureFrame, read_captures, write_captures, write_captures_2};
use ht_io::{GrowSink, InFault, Kind, MemSink, MemSource};
use std::alloc::{AllocError, Global};
use std::process::Abort;
use std::test::Fail;

/// A capture of version 1 whose diagonals, entries and samples lie at the ends of their types.
static EXTREME: [&str; 12] = [
    "48544350010001000100010001000000010000fffefffe00010000fffefffffffe0000fffefffffffe00000001000000",
    "01ffffffff0000fffeffff000000000001fffffffffffffffefffe00000001000100000000ffff0001000100000000ff",
    "fe000000010000000000010001fffe00000000fffefffefffeffff7ffffffffff90007800000000006fff9fff900077f",
    "ffffff000000000006fff90006fff9800000007fffffff000000008000000080000000000000000006fff90000000080",
    "0000007fffffff0006fff97fffffff80000000fff900077ffffffffff900077fffffff00000000fff900077fffffff00",
    "06fff90006fff97fffffff7fffffff7ffffffffff900070006fff97fffffff00000000fff900077fffffff7fffffffff",
    "f900077fffffff7ffffffffff90007800000000006fff9fff90007800000007ffffffffff9000700000000fff9000700",
    "0000008000000000000000000000007fffffff000000007fffffff7fffffff0006fff97fffffff80000000fff900077f",
    "ffffff00000000800000008000000000000000800000000006fff90006fff97fffffff80000000000000000006fff900",
    "0000007fffffff800000007fffffff0006fff90006fff90006fff90000000080000000fff90007fff90007fff9000700",
    "0000000006fff9fff900070006fff97fffffff0000000080000000000000007ffffffffff900070006fff9000000007f",
    "ffffff000000000000000080000000000000000006fff90006fff980000000800000007fffffff0006fff9",
];

/// A capture of version 2 with nine erased subcarriers.
static ERASED: [&str; 20] = [
    "48544350020001000000020000930000e70000de010100004d0000960000f20000c70000490000940000b80000920000",
    "a10100009f0000d50000b000008000009a0000620000e300009f00006a0000b100009800009f00004c0000a20000db01",
    "0000640000c600004e0000c400004b0000ad0000c600005c0100008f0000ba0000b20000c50000b5010000850000c400",
    "005101000064010000a50100005a000090000000a7fffffff9000000d6fffffffdffffff3effffffdd00000050ffffff",
    "d8ffffff70ffffffdd000000f900000011000000a0ffffffe40000006dffffffd9ffffff8bffffffeaffffff36ffffff",
    "ecffffff5000000022ffffff66fffffff4000000b000000004000000f5fffffff1000000b7ffffffe9ffffffa6000000",
    "1a000000c1ffffffe70000007f00000015000000e9ffffffd9ffffff5b00000005ffffffb9000000130000008b000000",
    "22000000b2ffffffe8000000860000001200000045fffffff500000096ffffffea000000ca000000260000004cffffff",
    "dbffffff1dfffffff30000005d00000013000000abffffffed00000044fffffffc000000cd00000025000000a7ffffff",
    "deffffff9200000010ffffff5000000000ffffff300000001affffff500000001fffffff5affffffdc000000bdffffff",
    "feffffff62fffffff8000000cf0000000fffffffcc00000010ffffffb000000024ffffff6500000000ffffffa4000000",
    "27000000a4ffffffe70000009000000017000000ebfffffff600000103fffffffd0000003a0000000bffffff7c000000",
    "11ffffff2cffffffd8000000e2ffffffe50000005dffffffe1ffffff61fffffff40000009600000011ffffff5c000000",
    "14000000c600000000ffffff40fffffff3000000d30000000cffffff37fffffff300000070ffffffebffffff5affffff",
    "ecffffff8400000015ffffff0c0000000500000088fffffffe0000004b00000005ffffff5affffffe100000084000000",
    "23000000b700000017ffffffb200000027ffffff43ffffffe4000000bafffffffe0000007cfffffff6ffffff55ffffff",
    "ea00000046fffffff0000000deffffffe9ffffff8fffffffeb00000097ffffffe6000000d00000002400000052ffffff",
    "e2ffffff8200000020000000b200000013000000d1ffffffddffffff3300000015ffffff640000001affffff71000000",
    "23000000e5ffffffeeffffffc3ffffffe600000064ffffffdeffffff5d0000001d0000004a00000012000000ab000000",
    "1a",
];

/// The octets of lines of hexadecimal digits.
fn octets(alloc: Global, lines: &[&str]) -> Result<Vec<u8>, AllocError> {
    let mut octets = Vec::new(alloc);
    let mut high = None;
    for line in lines {
        for digit in line.chars() {
            let value = (digit.to_digit(16).unwrap_or(0) & 15) as u8;
            match high {
                Some(first) => {
                    octets.push(first << 4 | value)?;
                    high = None;
                }
                None => high = Some(value),
            }
        }
    }
    Ok(octets)
}

/// A capture of one frame at 20 MHz, MCS 0, of one octet, whose subcarriers each begin with these octets, and whose samples
/// are 0.
fn zeros(alloc: Global, version: u8, carrier: &[u8]) -> Result<Vec<u8>, AllocError> {
    let mut octets = b"HTCP".to_vec(alloc)?;
    octets.extend_from_slice(&[version, 0, 1, 0, 0, 0, 1])?;
    push_times(&mut octets, 56, carrier)?;
    push_times(&mut octets, 896, &[0])?;
    Ok(octets)
}

/// Whether no subcarrier is erased.
fn are_whole(frames: &[CaptureFrame]) -> bool
    ensures { result ≡ true → All HasAllCarriers frames.now }
{
    for frame in frames {
        if frame.erased != 0 {
            return false;
        }
    }
    true
}

/// What is put of the frames of a capture, in the version, where it can be.
fn again(alloc: Global, octets: &[u8], version: u8) -> Result<Option<Vec<u8>>, AllocError> {
    let mut source = source(alloc, octets, &[], &[])?;
    let Ok(frames) = read_captures(alloc, &mut source) else {
        return Ok(None);
    };
    let mut sink = GrowSink::new(alloc);
    if version == 2 {
        if write_captures_2(&frames, &mut sink).is_err() {
            return Err(AllocError);
        }
    } else if are_whole(&frames) && write_captures(&frames, &mut sink).is_err() {
        return Err(AllocError);
    }
    Ok(Some(sink.into_held()))
}

/// Asserts that of a capture this is put in the version.
fn gives(
    rt: &impl Abort,
    alloc: Global,
    capture: &[u8],
    version: u8,
    wanted: &[u8],
) -> Result<(), Fail> {
    let put = again(alloc, capture, version)?;
    equal(rt, (version, put), (version, Some(wanted.to_vec(alloc)?)));
    Ok(())
}

// What is read is written back, and version 1 becomes version 2.
#[test]
fn smoke_written(rt: HostRuntime) -> Result<(), Fail> {
    let one = zeros(rt.alloc(), 1, &[0, 10])?;
    gives(&rt, rt.alloc(), &one, 1, &one)?;
    let two = zeros(rt.alloc(), 2, &[0, 0, 10])?;
    gives(&rt, rt.alloc(), &one, 2, &two)?;
    gives(&rt, rt.alloc(), &two, 2, &two)?;
    for (lines, version) in [(EXTREME.as_slice(), 1), (ERASED.as_slice(), 2)] {
        let capture = octets(rt.alloc(), lines)?;
        gives(&rt, rt.alloc(), &capture, version, &capture)?;
    }
    Ok(())
}

/// What is put of the frames of a capture before a sink fails in front of this octet, and whether the call answers that.
fn part(alloc: Global, frames: &[CaptureFrame], offset: u64) -> Result<(bool, Vec<u8>), AllocError>
    requires frames { AreCaptureFrames frames.now }
{
    let space = Vec::with_capacity(alloc, 2000)?;
    let mut sink = MemSink::new(space, Vec::from_slice(alloc, &[offset])?);
    let is_broken = are_whole(frames) && write_captures(frames, &mut sink).is_err();
    Ok((is_broken, sink.held().to_vec(alloc)?))
}

// Where the sink fails, the file up to that octet was put.
#[test]
fn sinks(rt: HostRuntime) -> Result<(), Fail> {
    let mut capture = zeros(rt.alloc(), 1, &[0, 10])?;
    let mut source = source(rt.alloc(), &capture, &[], &[])?;
    let frames = read_captures(rt.alloc(), &mut source)
        .ok()
        .ok_or("a capture")?;
    for offset in [1018, 123, 122, 7, 6, 0] {
        let (is_broken, put) = part(rt.alloc(), &frames, offset)?;
        capture.truncate(offset as usize);
        equal(&rt, (is_broken, put.as_slice()), (true, capture.as_slice()));
    }
    Ok(())
}

/// Asserts that a capture is refused, where its source fails in front of some octets.
fn refuses(
    rt: &impl Abort,
    alloc: Global,
    octets: &[u8],
    failing: &[u64],
    fault: InFault,
) -> Result<(), Fail> {
    let mut source = source(alloc, octets, &[], failing)?;
    let found = read_captures(alloc, &mut source).err();
    equal(rt, found, Some(fault));
    Ok(())
}

// No subcarrier left, an octet more, too few, and a failing source.
#[test]
fn refusals(rt: HostRuntime) -> Result<(), Fail> {
    let none = zeros(rt.alloc(), 2, &[1])?;
    refuses(&rt, rt.alloc(), &none, &[], bad(Kind::BadErased, 66))?;
    let two = zeros(rt.alloc(), 2, &[0, 0, 10])?;
    let longer = spoiled(rt.alloc(), &two, 1075, 0)?;
    refuses(&rt, rt.alloc(), &longer, &[], bad(Kind::Trailing, 1075))?;
    let shorter = zeros(rt.alloc(), 1, &[0])?;
    refuses(&rt, rt.alloc(), &shorter, &[], bad(Kind::Truncated, 963))?;
    let one = zeros(rt.alloc(), 1, &[0, 10])?;
    refuses(&rt, rt.alloc(), &one, &[1018], InFault::Read)
}

//! Files that are read and written back: of frames, of their symbols, of frames of clause 18, and bundles.
use crate::common::{bad, source, spoiled};
use crate::equal::equal;
use ht_bundles::{Bundled, read_bundle};
use ht_files::{read_frames, read_symbols, write_frames, write_symbols};
use ht_io::{Failed, GrowSink, InFault, Kind, MemSource, Sink};
use ht_legacy_files::{read_legacy_frames, write_legacy_frames};
use std::alloc::{AllocError, Global};
use std::process::Abort;
use std::test::Fail;

/// A frame at 20 MHz, MCS 0, with seed 127 and the octet a5.
static ONE: [u8; 13] = [72, 84, 84, 88, 1, 0, 1, 0, 0, 0, 1, 0x7f, 0xa5];

/// A frame at 40 MHz, MCS 31, with seed 1 and three octets, and then the frame of the other file.
static TWO: [u8; 21] = [
    72, 84, 84, 88, 1, 0, 2, 1, 31, 0, 3, 1, 0, 255, 128, 0, 0, 0, 1, 0x7f, 0xa5,
];

/// The symbols of the octet a5 in BPSK.
static ONE_SENT: [u8; 235] = [
    72, 84, 83, 89, 1, 0, 1, 0, 0, 0, 1, 255, 0, 1, 0, 1, 0, 255, 0, 255, 0, 255, 0, 255, 0, 1, 0,
    255, 0, 255, 0, 1, 0, 255, 0, 255, 0, 255, 0, 1, 0, 1, 0, 255, 0, 255, 0, 1, 0, 255, 0, 1, 0,
    1, 0, 255, 0, 1, 0, 255, 0, 255, 0, 255, 0, 1, 0, 1, 0, 255, 0, 255, 0, 255, 0, 255, 0, 255, 0,
    1, 0, 1, 0, 255, 0, 1, 0, 1, 0, 1, 0, 1, 0, 1, 0, 255, 0, 1, 0, 1, 0, 1, 0, 255, 0, 255, 0,
    255, 0, 1, 0, 255, 0, 1, 0, 255, 0, 255, 0, 255, 0, 255, 0, 255, 0, 1, 0, 255, 0, 1, 0, 1, 0,
    1, 0, 255, 0, 255, 0, 255, 0, 1, 0, 1, 0, 1, 0, 1, 0, 1, 0, 1, 0, 1, 0, 1, 0, 255, 0, 1, 0, 1,
    0, 1, 0, 255, 0, 255, 0, 1, 0, 1, 0, 255, 0, 255, 0, 1, 0, 255, 0, 255, 0, 255, 0, 255, 0, 1,
    0, 255, 0, 1, 0, 1, 0, 255, 0, 255, 0, 255, 0, 1, 0, 255, 0, 255, 0, 255, 0, 255, 0, 255, 0, 1,
    0, 1, 0, 1, 0, 255, 0, 1, 0, 1, 0, 255, 0, 1, 0, 255, 0, 255, 0, 255, 0,
];

/// A frame at 20 MHz, MCS 7.
static QAM64: [u8; 30] = [
    72, 84, 84, 88, 1, 0, 1, 0, 7, 0, 18, 100, 253, 79, 85, 189, 96, 100, 254, 203, 177, 155, 129,
    58, 24, 74, 80, 252, 61, 138,
];

/// Its symbol.
static QAM64_SENT: [u8; 123] = [
    72, 84, 83, 89, 1, 0, 1, 0, 7, 0, 18, 3, 7, 5, 5, 249, 3, 1, 249, 5, 249, 7, 1, 7, 7, 1, 0, 1,
    3, 251, 5, 253, 3, 1, 1, 5, 251, 7, 7, 3, 249, 251, 7, 253, 3, 253, 249, 5, 7, 253, 5, 1, 253,
    1, 0, 5, 255, 7, 1, 3, 5, 5, 5, 5, 253, 5, 3, 3, 255, 7, 3, 7, 249, 249, 7, 5, 251, 3, 251, 1,
    0, 255, 251, 253, 253, 7, 7, 253, 1, 1, 3, 3, 255, 255, 7, 255, 1, 249, 251, 249, 253, 253, 7,
    1, 249, 255, 249, 255, 0, 253, 249, 253, 3, 1, 251, 3, 7, 249, 5, 1, 251, 5, 1,
];

/// A frame at 20 MHz, MCS 12.
static QAM16: [u8; 19] = [
    72, 84, 84, 88, 1, 0, 1, 0, 12, 0, 7, 34, 247, 250, 40, 233, 8, 216, 252,
];

/// Its symbol, of two streams.
static QAM16_SENT: [u8; 235] = [
    72, 84, 83, 89, 1, 0, 1, 0, 12, 0, 7, 255, 255, 1, 253, 1, 255, 1, 253, 253, 3, 253, 253, 255,
    255, 1, 253, 3, 255, 3, 1, 1, 3, 255, 255, 253, 253, 255, 253, 1, 0, 1, 0, 255, 253, 3, 253, 1,
    1, 3, 1, 255, 1, 3, 255, 1, 3, 255, 3, 3, 3, 253, 253, 3, 253, 1, 255, 1, 255, 3, 1, 3, 253,
    255, 1, 3, 253, 1, 255, 253, 1, 253, 1, 1, 1, 255, 3, 255, 255, 3, 1, 1, 3, 253, 253, 1, 0, 1,
    0, 255, 255, 255, 3, 253, 255, 3, 255, 253, 1, 1, 3, 253, 253, 253, 253, 255, 255, 1, 255, 1,
    1, 255, 253, 3, 253, 255, 253, 253, 255, 255, 253, 1, 253, 1, 3, 3, 255, 3, 3, 255, 255, 3, 1,
    255, 3, 1, 255, 1, 0, 255, 0, 255, 3, 3, 253, 3, 1, 3, 253, 3, 1, 3, 253, 1, 253, 1, 253, 3,
    255, 253, 3, 1, 253, 3, 3, 3, 255, 253, 1, 253, 3, 253, 3, 255, 1, 3, 253, 1, 1, 3, 255, 253,
    253, 1, 253, 253, 3, 1, 255, 3, 3, 255, 1, 255, 0, 1, 0, 3, 1, 1, 253, 1, 1, 255, 3, 255, 1, 3,
    1, 3, 253, 3, 255, 255, 3, 1, 1, 255, 3, 255, 1, 1, 253, 253, 1,
];

/// A frame at 6 Mbit/s with seed 127 and the octet a5.
static LEGACY_ONE: [u8; 12] = [
    0x4c, 0x47, 0x54, 0x58, 0x01, 0x00, 0x01, 0x00, 0x00, 0x01, 0x7f, 0xa5,
];

/// Twenty frames of all rates of clause 18.
static LEGACY_MANY: [u8; 377] = [
    0x4c, 0x47, 0x54, 0x58, 0x01, 0x00, 0x14, 0x00, 0x00, 0x05, 0x01, 0x4b, 0x2f, 0x99, 0xc4, 0x49,
    0x01, 0x00, 0x06, 0x02, 0xc3, 0x4e, 0xb7, 0xe1, 0x05, 0xc5, 0x02, 0x00, 0x07, 0x03, 0xc7, 0xcb,
    0x4e, 0xa8, 0x0d, 0x1a, 0xb3, 0x03, 0x00, 0x08, 0x04, 0xda, 0xe9, 0x7a, 0x5e, 0x8a, 0x0f, 0x3b,
    0x73, 0x04, 0x00, 0x09, 0x05, 0xce, 0x2b, 0x25, 0xb2, 0x96, 0x2d, 0xb9, 0xfc, 0x54, 0x05, 0x00,
    0x0a, 0x06, 0x5b, 0xb4, 0xcc, 0x96, 0xd6, 0x21, 0x18, 0x20, 0xa4, 0x69, 0x06, 0x00, 0x0b, 0x07,
    0xd9, 0xdd, 0xa9, 0xb1, 0xd8, 0x60, 0xa8, 0x79, 0xb7, 0x6f, 0x0b, 0x07, 0x00, 0x0c, 0x08, 0x75,
    0x01, 0x8e, 0x78, 0xf1, 0x92, 0x5a, 0x86, 0x5b, 0xb9, 0x17, 0x24, 0x00, 0x00, 0x0d, 0x09, 0x3e,
    0x7c, 0x07, 0xc5, 0x72, 0xf0, 0x0c, 0xf7, 0x2f, 0x4b, 0x49, 0xc4, 0xcd, 0x01, 0x00, 0x0e, 0x0a,
    0xe6, 0x1c, 0xb5, 0xdf, 0x6c, 0x63, 0xfb, 0xb5, 0x75, 0xfc, 0x66, 0x99, 0x3d, 0xae, 0x02, 0x00,
    0x0f, 0x0b, 0x39, 0x4e, 0x0c, 0x2e, 0x1b, 0x29, 0x89, 0x3c, 0xed, 0xf3, 0x63, 0x21, 0xdf, 0x0e,
    0x0d, 0x03, 0x00, 0x10, 0x0c, 0xfb, 0x63, 0xb4, 0x36, 0x6d, 0x53, 0x5c, 0x96, 0x6b, 0x72, 0x64,
    0xac, 0x6f, 0x3f, 0xfa, 0xc6, 0x04, 0x00, 0x11, 0x0d, 0x93, 0xc4, 0x60, 0x8d, 0x8e, 0x4c, 0xc9,
    0x19, 0x5c, 0x2f, 0xf0, 0x30, 0x26, 0x59, 0xbf, 0xe3, 0x01, 0x05, 0x00, 0x12, 0x0e, 0x82, 0xc8,
    0x5c, 0x3e, 0x8c, 0x60, 0x94, 0xd1, 0x6e, 0x32, 0x5f, 0xbd, 0x85, 0x8c, 0x6d, 0xe9, 0x01, 0xb4,
    0x06, 0x00, 0x13, 0x0f, 0x31, 0xcd, 0x69, 0x71, 0xaa, 0x5d, 0x5d, 0x69, 0x01, 0x5b, 0x13, 0xaa,
    0x74, 0x5f, 0x36, 0x99, 0x35, 0xf5, 0xbe, 0x07, 0x00, 0x14, 0x10, 0xe0, 0x74, 0xe7, 0x13, 0x20,
    0xd1, 0xe2, 0x9f, 0xac, 0x76, 0xad, 0x07, 0x87, 0x48, 0xc1, 0x6d, 0xde, 0xe3, 0x6d, 0x0a, 0x00,
    0x00, 0x15, 0x11, 0x13, 0x21, 0xf4, 0xd5, 0xbc, 0x2e, 0x4f, 0x23, 0x5f, 0xff, 0xf3, 0xa9, 0x61,
    0x30, 0x1a, 0x76, 0xcf, 0x91, 0x5a, 0xfb, 0x02, 0x01, 0x00, 0x16, 0x12, 0x75, 0x39, 0xf8, 0xd6,
    0xde, 0xfa, 0xf2, 0x7a, 0x4f, 0x4a, 0x96, 0xb0, 0x51, 0x98, 0xb8, 0x42, 0xb7, 0x08, 0x20, 0x96,
    0xe7, 0xd8, 0x02, 0x00, 0x17, 0x13, 0xc0, 0x14, 0xca, 0x5b, 0x27, 0x4c, 0xba, 0x5e, 0x84, 0xe3,
    0xe8, 0x05, 0x49, 0x4f, 0x79, 0xd7, 0xa6, 0x93, 0x77, 0x1d, 0xd8, 0x54, 0x09, 0x03, 0x00, 0x18,
    0x14, 0xf1, 0x04, 0x80, 0xbe, 0x02, 0x3c, 0x16, 0xb9, 0xfd, 0x94, 0x48, 0x67, 0x55, 0xc6, 0xcd,
    0xc7, 0xda, 0x77, 0xf6, 0x5d, 0x3d, 0xb5, 0x1a, 0xed,
];

/// A bundle of two captures, `HX` and one of no octets.
static BUNDLE: [u8; 16] = [
    0x48, 0x54, 0x4d, 0x42, 0x01, 0x02, 0x00, 0x00, 0x00, 0x02, 0x48, 0x58, 0x00, 0x00, 0x00, 0x00,
];

/// What a file is read as.
#[derive(Clone, Copy)]
enum Format {
    Frames,
    Symbols,
    LegacyFrames,
    Bundle,
}

/// Puts the sizes of the captures of a bundle, of one octet each.
fn put_sizes(captures: &[Bundled], sink: &mut GrowSink) -> Result<(), Failed> {
    for capture in captures {
        let size = u8::try_from(capture.as_slice().len()).unwrap_or(u8::MAX);
        sink.put(&[size])?;
    }
    Ok(())
}

/// Puts what a file holds, of a bundle the sizes of its captures.
fn put_again(
    alloc: Global,
    format: Format,
    source: &mut MemSource,
    sink: &mut GrowSink,
) -> Result<(), InFault> {
    let put = match format {
        Format::Frames => {
            let frames = read_frames(alloc, source)?;
            write_frames(&frames, sink)
        }
        Format::Symbols => {
            let frames = read_symbols(alloc, source)?;
            write_symbols(&frames, sink)
        }
        Format::LegacyFrames => {
            let frames = read_legacy_frames(alloc, source)?;
            write_legacy_frames(&frames, sink)
        }
        Format::Bundle => {
            let captures = read_bundle(alloc, source)?;
            put_sizes(&captures, sink)
        }
    };
    match put {
        Ok(()) => Ok(()),
        Err(Failed) => Err(InFault::NoMemory),
    }
}

/// What is put of a file, or why it isn't one, where its source fails in front of some octets.
fn again(
    alloc: Global,
    format: Format,
    octets: &[u8],
    failing: &[u64],
) -> Result<Result<Vec<u8>, InFault>, AllocError> {
    let mut source = source(alloc, octets, &[], failing)?;
    let mut sink = GrowSink::new(alloc);
    Ok(match put_again(alloc, format, &mut source, &mut sink) {
        Ok(()) => Ok(sink.into_held()),
        Err(fault) => Err(fault),
    })
}

/// Asserts that of a file this is put.
fn gives(
    rt: &impl Abort,
    alloc: Global,
    format: Format,
    octets: &[u8],
    put: &[u8],
) -> Result<(), Fail> {
    let read = again(alloc, format, octets, &[])?;
    equal(rt, read, Ok(put.to_vec(alloc)?));
    Ok(())
}

// What is read is written back. The files that belong together were made by another program.
#[test]
fn read_back(rt: HostRuntime) -> Result<(), Fail> {
    let files: [(Format, &[u8]); 9] = [
        (Format::Frames, &ONE),
        (Format::Frames, &TWO),
        (Format::Frames, &QAM64),
        (Format::Frames, &QAM16),
        (Format::Symbols, &ONE_SENT),
        (Format::Symbols, &QAM64_SENT),
        (Format::Symbols, &QAM16_SENT),
        (Format::LegacyFrames, &LEGACY_ONE),
        (Format::LegacyFrames, &LEGACY_MANY),
    ];
    for (format, octets) in files {
        gives(&rt, rt.alloc(), format, octets, octets)?;
    }
    gives(&rt, rt.alloc(), Format::Bundle, &BUNDLE, &[2, 0])
}

/// An octet at a place, and the fault of the file that has it there.
type Spoiled = (usize, u8, Kind, u64);

/// Asserts that a file that is spoiled in one of these ways has its fault.
fn refuses(
    rt: &impl Abort,
    alloc: Global,
    format: Format,
    file: &[u8],
    cases: &[Spoiled],
) -> Result<(), Fail> {
    for &(place, octet, kind, offset) in cases {
        let octets = spoiled(alloc, file, place, octet)?;
        let read = again(alloc, format, &octets, &[])?;
        equal(
            rt,
            (place, octet, read),
            (place, octet, Err(bad(kind, offset))),
        );
    }
    Ok(())
}

static FRAMES: [Spoiled; 11] = [
    (0, 0, Kind::BadMagic, 0),
    (3, 89, Kind::BadMagic, 3),
    (4, 2, Kind::BadVersion, 4),
    (6, 0, Kind::Trailing, 7),
    (6, 2, Kind::Truncated, 13),
    (7, 2, Kind::BadBandwidth, 7),
    (8, 32, Kind::BadMcs, 8),
    (10, 0, Kind::BadLength, 9),
    (10, 2, Kind::Truncated, 13),
    (11, 0, Kind::BadSeed, 11),
    (11, 128, Kind::BadSeed, 11),
];

// The first point is (0, 0), then (-3, 0), and the first pilot (-1, 0), then (1, 1).
static SYMBOLS: [Spoiled; 9] = [
    (3, 88, Kind::BadMagic, 3),
    (6, 0, Kind::Trailing, 7),
    (6, 2, Kind::Truncated, 235),
    (8, 32, Kind::BadMcs, 8),
    (11, 0, Kind::BadPoint, 11),
    (11, 253, Kind::BadPoint, 11),
    (25, 255, Kind::BadPilot, 25),
    (26, 1, Kind::BadPilot, 25),
    (234, 1, Kind::BadPoint, 233),
];

// These another program spoiled.
static LEGACY_FRAMES: [Spoiled; 5] = [
    (7, 8, Kind::BadMcs, 7),
    (10, 0, Kind::BadSeed, 10),
    (10, 128, Kind::BadSeed, 10),
    (8, 16, Kind::BadLength, 8),
    (377, 0, Kind::Trailing, 377),
];

static BUNDLES: [Spoiled; 5] = [
    (4, 2, Kind::BadVersion, 4),
    (5, 0, Kind::BadCount, 5),
    (5, 17, Kind::BadCount, 5),
    (9, 1, Kind::Truncated, 16),
    (16, 0, Kind::Trailing, 16),
];

#[test]
fn refusals(rt: HostRuntime) -> Result<(), Fail> {
    refuses(&rt, rt.alloc(), Format::Frames, &ONE, &FRAMES)?;
    refuses(&rt, rt.alloc(), Format::Symbols, &ONE_SENT, &SYMBOLS)?;
    refuses(
        &rt,
        rt.alloc(),
        Format::LegacyFrames,
        &LEGACY_MANY,
        &LEGACY_FRAMES,
    )?;
    refuses(&rt, rt.alloc(), Format::Bundle, &BUNDLE, &BUNDLES)
}

/// Asserts what a file is refused for where it ends here, and where its source fails here.
fn refuses_cut(
    rt: &impl Abort,
    alloc: Global,
    format: Format,
    file: &[u8],
    end: usize,
    faults: (InFault, InFault),
) -> Result<(), Fail> {
    let mut octets = file.to_vec(alloc)?;
    octets.truncate(end);
    let short = again(alloc, format, &octets, &[])?;
    equal(rt, (end, short), (end, Err(faults.0)));
    let broken = again(alloc, format, file, &[end as u64])?;
    equal(rt, (end, broken), (end, Err(faults.1)));
    Ok(())
}

// Each beginning of a file is cut off, and its source fails there.
#[test]
fn cuts(rt: HostRuntime) -> Result<(), Fail> {
    let files: [(Format, &[u8]); 4] = [
        (Format::Frames, &ONE),
        (Format::Symbols, &QAM64_SENT),
        (Format::LegacyFrames, &LEGACY_MANY),
        (Format::Bundle, &BUNDLE),
    ];
    for (format, file) in files {
        for end in 0..file.len() {
            let faults = (bad(Kind::Truncated, end as u64), InFault::Read);
            refuses_cut(&rt, rt.alloc(), format, file, end, faults)?;
        }
    }
    Ok(())
}

// A pilot of the symbols is at fault, and then the file is cut or the source fails: within its field, behind it, and behind
// the symbol.
#[test]
fn faults_before(rt: HostRuntime) -> Result<(), Fail> {
    let mut file = ONE_SENT;
    file[25] = 255;
    let unseen = (bad(Kind::Truncated, 26), InFault::Read);
    refuses_cut(&rt, rt.alloc(), Format::Symbols, &file, 26, unseen)?;
    for end in [27, 40, 123, 200] {
        let pilot = bad(Kind::BadPilot, 25);
        refuses_cut(&rt, rt.alloc(), Format::Symbols, &file, end, (pilot, pilot))?;
    }
    Ok(())
}

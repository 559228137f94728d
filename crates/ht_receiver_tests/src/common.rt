//! What the tests of several crates are given: a small job, captures of zeros, and one that other programs made, and
//! devices that fail.
ghost use Rattle.std.specs.Prelude.{◌≡◌};

use ht_io::{MemSink, MemSource};
use ht_metric::{Job, Place, Sample, System, Tap, Triangle};
use ht_pam::{Grid, Ladder};
use std::alloc::{AllocError, Global};

pub(crate) const NO_SAMPLE: Sample = Sample { re: 0, im: 0 };

// A BPSK job of one stream whose sample is this one.
pub(crate) fn job(number: u64, re: i32) -> Job
    ensures { result.number ≡ number }
{
    let triangle = Triangle::new(1, [10, 0, 0, 0], [Tap { re: 0, im: 0 }; 6]);
    let y = [Sample { re, im: 0 }, NO_SAMPLE, NO_SAMPLE, NO_SAMPLE];
    let grid = Grid::one(Ladder::of(2, 3), Ladder::of(1, 1));
    Job::new(number, Place::default(), grid, System::new(triangle, y))
}

/// Appends a piece this number of times.
pub(crate) fn push_times(octets: &mut Vec<u8>, times: u32, piece: &[u8]) -> Result<(), AllocError> {
    for _ in 0..times {
        octets.extend_from_slice(piece)?;
    }
    Ok(())
}

// Appends a frame of this length at 20 MHz, MCS 0: the diagonal 10 on each subcarrier, every sample 0.
fn push_frame(octets: &mut Vec<u8>, length: u16) -> Result<(), AllocError> {
    octets.extend_from_slice(&[0, 0])?;
    octets.extend_from_slice(&length.to_be_bytes())?;
    push_times(octets, 56, &[0, 10])?;
    let symbols = (u32::from(length) * 8 + 22).div_ceil(26);
    push_times(octets, symbols, &[0; 448])
}

/// A capture of frames of these lengths at 20 MHz, MCS 0: the diagonal 10 on each subcarrier, every sample 0. So both
/// points of a data subcarrier are at the distance 100, and so is the point of a pilot.
pub(crate) fn zeros(alloc: Global, lengths: &[u16]) -> Result<Vec<u8>, AllocError> {
    let mut octets = b"HTCP\x01\x00".to_vec(alloc)?;
    octets.push(u8::try_from(lengths.len()).unwrap_or(u8::MAX))?;
    for length in lengths {
        push_frame(&mut octets, *length)?;
    }
    Ok(octets)
}

/// What is put of the frames of such a capture of two frames of one octet: each of the 104 data jobs and the 8 pilot jobs of
/// a frame is at 100.
pub(crate) const TWO_FRAMES: &str =
    "frame 0 data 10400 pilot 800 code 0 seed zero\nframe 1 data 10400 pilot 800 code 0 seed zero\nend 2 frames\n";

/// What befalls a capture that is received.
#[derive(Clone, Copy, Debug, PartialEq, Eq)]
pub(crate) enum Harm {
    /// Nothing.
    None,
    /// It ends in front of this offset.
    Cut(u64),
    /// Its source fails there.
    Source(u64),
    /// Its sink fails there.
    Sink(u64),
}

impl Harm {
    /// A source of the octets.
    pub(crate) fn source(self, alloc: Global, octets: &[u8]) -> Result<MemSource, AllocError> {
        let mut octets = octets.to_vec(alloc)?;
        let mut failing = Vec::new(alloc);
        match self {
            Harm::Cut(at) => octets.truncate(at as usize),
            Harm::Source(at) => failing.push(at)?,
            _ => {}
        }
        Ok(MemSource::new(octets, Vec::new(alloc), failing))
    }

    /// A sink with room for all lines.
    pub(crate) fn sink(self, alloc: Global) -> Result<MemSink, AllocError> {
        let mut failing = Vec::new(alloc);
        if let Harm::Sink(at) = self {
            failing.push(at)?;
        }
        Ok(MemSink::new(Vec::with_capacity(alloc, 8192)?, failing))
    }
}

/// The capture of the octet a5 at MCS 0 and 20 MHz with seed 127, through the channel of seed 42 without noise.
static A5: [&str; 22] = [
    "485443500100010000000100f7004900f0005300cb006e00ed006d009a009000be00b900e600dd0097008b006a00a300",
    "d20046007000d700d100d900bb00c500b600c40064006d0095008f007c004900460093007000f700fe00f20077006a00",
    "54005600c700630083008b0061005100b200a8009a00ec00df0073ffffff09000000000000004900000000000000f000",
    "000000ffffffad00000000ffffff3500000000ffffff9200000000ffffff13000000000000006d00000000ffffff6600",
    "000000ffffff7000000000000000be00000000ffffff4700000000ffffff1a00000000ffffff23000000000000009700",
    "0000000000008b00000000ffffff9600000000ffffff5d00000000000000d200000000ffffffba000000000000007000",
    "000000000000d700000000ffffff2f00000000000000d900000000ffffff4500000000ffffff3b00000000ffffff4a00",
    "000000000000c4000000000000006400000000ffffff9300000000ffffff6b00000000ffffff7100000000ffffff8400",
    "000000ffffffb70000000000000046000000000000009300000000ffffff9000000000000000f700000000000000fe00",
    "000000000000f20000000000000077000000000000006a00000000ffffffac000000000000005600000000000000c700",
    "0000000000006300000000ffffff7d00000000ffffff7500000000ffffff9f000000000000005100000000ffffff4e00",
    "000000000000a800000000ffffff6600000000ffffff1400000000ffffff2100000000ffffff8d00000000ffffff0900",
    "0000000000004900000000ffffff10000000000000005300000000000000cb000000000000006e00000000ffffff1300",
    "000000ffffff9300000000ffffff66000000000000009000000000000000be00000000000000b900000000000000e600",
    "000000000000dd0000000000000097000000000000008b000000000000006a00000000ffffff5d00000000000000d200",
    "00000000000046000000000000007000000000ffffff2900000000ffffff2f00000000000000d900000000000000bb00",
    "000000ffffff3b00000000ffffff4a00000000000000c400000000ffffff9c00000000ffffff9300000000ffffff6b00",
    "000000ffffff71000000000000007c00000000ffffffb70000000000000046000000000000009300000000ffffff9000",
    "000000ffffff0900000000ffffff0200000000000000f200000000ffffff8900000000ffffff9600000000ffffffac00",
    "000000ffffffaa00000000ffffff3900000000000000630000000000000083000000000000008b00000000ffffff9f00",
    "0000000000005100000000000000b200000000ffffff58000000000000009a00000000ffffff1400000000ffffff2100",
    "000000ffffff8d00000000",
];

/// The value of a hexadecimal digit, in lower case.
fn value(digit: u8) -> u8 {
    match digit {
        b'0'..=b'9' => digit - b'0',
        b'a'..=b'f' => digit - b'a' + 10,
        _ => 0,
    }
}

// Appends the octets that these digits give.
fn push_octets(octets: &mut Vec<u8>, line: &str) -> Result<(), AllocError> {
    let digits = line.as_bytes();
    for place in 0..digits.len() / 2 {
        let high = value(digits[2 * place]) % 16;
        octets.push(high * 16 + value(digits[2 * place + 1]) % 16)?;
    }
    Ok(())
}

/// The octets of this capture.
pub(crate) fn a5(alloc: Global) -> Result<Vec<u8>, AllocError> {
    let mut octets = Vec::new(alloc);
    for line in &A5 {
        push_octets(&mut octets, line)?;
    }
    Ok(octets)
}

//! Captures through a reader, an in-flight reader and a consumer: job by job, and in blocks; and the blocks of clause 18.
ghost use Rattle.std.specs.Prelude.{◌≡◌, ◌^◌, ◌-◌, ◌<◌, true};

use crate::common::{octets_of, spoiled, whole};
use crate::equal::equal;
use ht_capture::FrameHead;
use ht_capture_blocks::CaptureReader;
use ht_clause18::LegacyRate;
use ht_feed::{BlockReader, Came, Detector, Ended, Meter, Shared, tell_alone};
use ht_io::{FormatFault, GrowSink, Kind};
use ht_legacy_blocks::{LegacyBlock, LegacyFrameHead, LegacyReader};
use ht_rate::{Rate, RateFault};
use ht_runs::RunFault;
use std::alloc::{AllocError, Global};
use std::process::Abort;
use std::test::Fail;

/// A capture, as parts, each with how often it comes.
type Parts = [(u16, &'static [u8]); 3];

/// How a run of a capture ends, and what is put: an octet for each job.
type Told = (Result<Ended, RunFault>, Vec<u8>);

/// Runs a capture with at most `window` jobs due.
fn told<R: BlockReader + Drop>(
    alloc: Global,
    reader: R,
    none: R::Head,
    window: u16,
    octets: Vec<u8>,
) -> Result<Told, AllocError>
    requires going { (R.counts reader).going ≡ true }
    requires fresh { (R.counts reader).given ≡ 0 }
    requires bounded { (R.counts reader).more < 2 ^ 64 - 1 }
{
    let mut source = whole(alloc, octets);
    let mut meter = Meter::new(alloc, GrowSink::new(alloc));
    let most = window.clamp(1, 4096);
    let work = Detector { alloc };
    let ended = tell_alone(alloc, reader, none, most, &work, &mut source, &mut meter);
    Ok((ended, meter.sink.into_held()))
}

/// The answer of a run that went through one frame of this number of jobs.
fn done(jobs: u64) -> Result<Ended, RunFault> {
    Ok(Ended { frames: 1, jobs })
}

/// The head that stands for none.
fn no_head() -> Result<FrameHead, RateFault> {
    Ok(FrameHead {
        frame: 0,
        rate: Rate::of(0, 0)?,
        length: 1,
        erased: 0,
    })
}

// A capture of one frame of one octet at 20 MHz, MCS 0, which has two symbols: the diagonal 10 on each subcarrier, every
// sample 0. So each of its 112 jobs has the distance 100.
static ZEROS: Parts = [
    (1, b"HTCP\x01\x00\x01\x00\x00\x00\x01"),
    (56, &[0, 10]),
    (896, &[0]),
];

// Job by job, in blocks of 50 and 6 jobs, and in blocks of a whole symbol.
#[test]
fn a_capture(rt: HostRuntime) -> Result<(), Fail> {
    for window in [1, 50, 4096] {
        let reader = CaptureReader::new(rt.alloc())?;
        let octets = octets_of(rt.alloc(), &ZEROS)?;
        equal(&rt, octets.len(), 1019);
        let (ended, put) = told(rt.alloc(), reader, no_head()?, window, octets)?;
        equal(
            &rt,
            (ended, put.as_slice()),
            (done(112), [100u8; 112].as_slice()),
        );
    }
    Ok(())
}

// A capture of one frame at 6 Mbit/s with one octet, which has two symbols: the diagonal 10 and the sample (10, 0) on
// each subcarrier. So a data subcarrier has the point (1, 0) at distance 0. In the first two symbols three pilots have
// the value 1 and the highest one, on subcarrier 46 of 52, has -1, whose distance is 400.
static TENS: Parts = [
    (1, b"LGCP\x01\x00\x01\x00\x00\x01"),
    (52, &[0, 10]),
    (104, &[0, 0, 0, 10, 0, 0, 0, 0]),
];

// Asserts how a run of these octets ends with at most `window` jobs due, and how many of the distances are put.
fn ends(
    rt: &impl Abort,
    alloc: Global,
    octets: Vec<u8>,
    window: u16,
    wanted: Result<Ended, RunFault>,
    count: usize,
) -> Result<(), Fail> {
    let mut distances = [0u8; 104];
    distances[46] = 255;
    distances[98] = 255;
    let none = LegacyFrameHead {
        frame: 0,
        rate: LegacyRate::Mbit6,
        length: 1,
    };
    let reader = LegacyReader::new(alloc)?;
    let (ended, put) = told(alloc, reader, none, window, octets)?;
    let distances = &distances[..count.min(104)];
    equal(rt, (ended, put.as_slice()), (wanted, distances));
    Ok(())
}

// That a capture has this fault.
fn refused(kind: Kind, offset: u64) -> Result<Ended, RunFault> {
    Err(RunFault::Format(FormatFault { kind, offset }))
}

// Job by job, in blocks of 50 and 2 jobs, and in blocks of a whole symbol; with an octet behind the capture, and
// without its last one.
#[test]
fn a_legacy_capture(rt: HostRuntime) -> Result<(), Fail> {
    for window in [1, 50, 4096] {
        ends(
            &rt,
            rt.alloc(),
            octets_of(rt.alloc(), &TENS)?,
            window,
            done(104),
            104,
        )?;
    }
    let mut octets = octets_of(rt.alloc(), &TENS)?;
    let longer = spoiled(rt.alloc(), &octets, 946, 0)?;
    ends(
        &rt,
        rt.alloc(),
        longer,
        50,
        refused(Kind::Trailing, 946),
        104,
    )?;
    octets.truncate(945);
    ends(
        &rt,
        rt.alloc(),
        octets,
        50,
        refused(Kind::Truncated, 945),
        52,
    )
}

// The blocks of the capture, each of at most 50 jobs: of each symbol one that is read, and the rest, which is ready.
fn blocks(alloc: Global) -> Result<Vec<LegacyBlock>, AllocError> {
    let mut source = whole(alloc, octets_of(alloc, &TENS)?);
    let mut reader = LegacyReader::new(alloc)?;
    let mut blocks = Vec::new(alloc);
    for _ in 0..3u8 {
        if let Ok(Came::Block(block)) = reader.next(50, &mut source) {
            blocks.push(block)?;
        }
        if let Some(block) = reader.ready(50) {
            blocks.push(block)?;
        }
    }
    Ok(blocks)
}

// A block is the same as its copy and as that block of another reader of the same octets, but not as the other blocks.
#[test]
fn legacy_blocks(rt: HostRuntime) -> Result<(), Fail> {
    let others = blocks(rt.alloc())?;
    equal(&rt, others.len(), 4);
    for (i, block) in blocks(rt.alloc())?.iter().enumerate() {
        let copy = block.copy().ok_or("a copy")?;
        equal(&rt, (i, copy.same(block)), (i, true));
        for (j, other) in others.iter().enumerate() {
            equal(&rt, (i, j, block.same(other)), (i, j, i == j));
        }
    }
    Ok(())
}

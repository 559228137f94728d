//! Captures of random triangles and samples, read from memory.
ghost use Rattle.std.specs.Prelude.{◌≤◌};

use crate::random::Random;
use crate::sums::folded;
use ht_capture::{FrameHead, Item, Reader};
use ht_io::SureSource;
use ht_metric::Job;
use ht_pam::Ladder;
use ht_rate::Rate;
use std::alloc::{AllocError, Global};

/// The frames of the capture, at 20 and 40 MHz in turn.
const FRAMES: u16 = 4;

/// The number of spatial streams of the capture, and how often it is read.
#[derive(Drop)]
pub struct Line {
    streams: u8,
    count: u32,
}

impl Line {
    /// The line that the words choose.
    pub fn from_words(words: &[String]) -> Option<Line> {
        let [reader, streams, count] = words else {
            return None;
        };
        if reader.as_str() != "reader" {
            return None;
        }
        Some(Line {
            streams: streams.as_str().parse().ok()?,
            count: count.as_str().parse().ok()?,
        })
    }

    /// Reads the capture as often as the line says. The checksum is over all heads and jobs.
    pub fn run(&self, alloc: Global) -> Result<u64, AllocError> {
        let octets = capture(alloc, self.streams.clamp(1, 4))?;
        let mut checksum = 0;
        for _ in 0..self.count {
            checksum = read(alloc, octets.clone()?, checksum)?;
        }
        Ok(checksum)
    }
}

// A capture of version 1, with 16-QAM at rate 3/4 on a number of streams, and 4,000 octets for each of them in a frame.
fn capture(alloc: Global, streams: u8) -> Result<Vec<u8>, AllocError>
    requires few { streams ≤ 4 }
    requires some { 1 ≤ streams }
{
    let mut random = Random::new(1);
    let mcs = 8 * (streams - 1) + 4;
    let length = 4000 * u16::from(streams);
    let mut octets = b"HTCP\x01".to_vec(alloc)?;
    octets.extend_from_slice(&FRAMES.to_be_bytes())?;
    for frame in 0..FRAMES {
        let bandwidth = (frame % 2) as u8;
        octets.extend_from_slice(&[bandwidth, mcs])?;
        octets.extend_from_slice(&length.to_be_bytes())?;
        if let Ok(rate) = Rate::of(bandwidth, mcs) {
            let carriers = u64::from(rate.carriers());
            let n = u64::from(streams);
            let samples = 8 * n * carriers * u64::from(rate.symbols(length));
            fill(&mut octets, &mut random, 2 * n * n * carriers + samples)?;
        }
    }
    Ok(octets)
}

// A number of random octets more.
fn fill(octets: &mut Vec<u8>, random: &mut Random, count: u64) -> Result<(), AllocError> {
    for _ in 0..count {
        octets.push((random.draw() % 256) as u8)?;
    }
    Ok(())
}

// A checksum that depends on each item and its place, and is 0 where the capture is refused.
fn read(alloc: Global, octets: Vec<u8>, start: u64) -> Result<u64, AllocError> {
    let mut source = SureSource::new(octets);
    let mut reader = Reader::new(alloc)?;
    let mut checksum = start;
    loop {
        match reader.next(&mut source) {
            Ok(Item::Job(job)) => checksum = with_job(checksum, &job),
            Ok(Item::Frame(head)) => checksum = with_head(checksum, &head),
            Ok(Item::Done) => return Ok(checksum),
            Err(_) => return Ok(0),
        }
    }
}

fn with_head(sum: u64, head: &FrameHead) -> u64 {
    let sum = folded(sum, u64::from(head.frame));
    let sum = folded(sum, u64::from(head.length));
    folded(sum, u64::from(head.rate.mcs()))
}

fn with_job(start: u64, job: &Job) -> u64 {
    let place = job.place();
    let system = job.system();
    let grid = job.grid();
    let mut sum = folded(start, job.number());
    sum = folded(sum, u64::from(place.frame));
    sum = folded(sum, u64::from(place.symbol));
    sum = folded(sum, u64::from(place.carrier));
    sum = folded(sum, u64::from(grid.streams()));
    if system.streams() > 1 {
        let entry = system.above(1, system.streams());
        sum = folded(sum, u64::from(entry.re.cast_unsigned()));
        sum = folded(sum, u64::from(entry.im.cast_unsigned()));
    }
    for stream in 1..system.streams() + 1 {
        let sample = system.sample(stream);
        sum = folded(sum, u64::from(system.diagonal(stream)));
        sum = folded(sum, u64::from(sample.re.cast_unsigned()));
        sum = folded(sum, u64::from(sample.im.cast_unsigned()));
        sum = folded(sum, u64::from(grid.i_ladder(stream) == Ladder::of(2, 0b10)));
    }
    sum
}

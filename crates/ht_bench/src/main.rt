//! Work for `bench/run`: words choose a line, and the program prints the checksum of its answers.
//!
//! ```text
//! ht_bench decode PATTERN STEPS PERCENT COUNT          the decoder
//! ht_bench plain_decode PATTERN STEPS PERCENT COUNT    the same, with whole costs
//! ht_bench soft_decode PATTERN STEPS PERCENT COUNT     the decoder of weights
//! ht_bench frame BANDWIDTH MCS OCTETS COUNT            a frame's labels, to octets
//! ht_bench nearest STREAMS MODULATION NOISE DIAGONALS COUNT    the detector, on 256 jobs so often
//! ht_bench into_hit STREAMS MODULATION NOISE DIAGONALS COUNT   the same, on copies of the jobs that it is given
//! ht_bench drive WORKERS STREAMS MODULATION NOISE DIAGONALS COUNT    the drive, on the same jobs
//! ht_bench reader STREAMS COUNT                        the reader, on one capture so often
//! ```
//!
//! PATTERN is half, two_thirds, three_quarters or five_sixths, and PERCENT says how many of a hundred places are wrong.
//! MODULATION is bpsk, qpsk, qam16 or qam64, NOISE the largest part of the noise, and DIAGONALS large or small.
//! BANDWIDTH is 0 for 20 MHz and 1 for 40 MHz. The input of a line comes from a generator that always starts alike, so a
//! line always prints the same.
//!
//! Each kind of line is a module with a type `Line`: `from_words` gives the line that words choose, and `run` its checksum.
#![tactic(auto)]

mod capturing;
mod decoding;
mod detecting;
mod driving;
mod framing;
mod jobs;
mod random;
mod rounds;
mod sums;

use std::alloc::{AllocError, Global};
use std::sync::Wait;
use std::thread::Threads;
use std::{env, io};

// The checksum of the line that the words choose, if they choose one.
fn checksum<R: Threads + Wait + Sync>(
    rt: &R,
    alloc: Global,
    words: &[String],
) -> Result<Option<u64>, AllocError> {
    if let Some(line) = decoding::Line::from_words(words) {
        return Ok(Some(line.run(alloc)?));
    }
    if let Some(line) = framing::Line::from_words(words) {
        return Ok(Some(line.run(alloc)?));
    }
    if let Some(line) = detecting::Line::from_words(words) {
        return Ok(Some(line.run(alloc)?));
    }
    if let Some(line) = capturing::Line::from_words(words) {
        return Ok(Some(line.run(alloc)?));
    }
    if let Some(line) = driving::Line::from_words(words) {
        return Ok(Some(line.run(rt, alloc)?));
    }
    Ok(None)
}

fn main(rt: HostRuntime) -> io::Result<()> {
    let mut words = Vec::new(rt.alloc());
    for word in env::args(&rt)?.skip(1) {
        words.push(word)?;
    }
    match checksum(&rt, rt.alloc(), &words)? {
        Some(sum) => println!(rt; "{sum}"),
        None => println!(rt; "these words choose no line"),
    }
}

//! The program `radio` without a thread: a static library over `run_alone` of crate `ht_cli`.
//!
//! A static library is refused where anything that it reaches could start, join or detach a thread, take a lock, wait, sleep
//! or yield. What is reached is judged over whole dictionaries: each method of each impl that a bound names, whatever the words
//! and the octets are. So while this crate passes, no command has such a call on its way where it runs with one worker over
//! devices in memory.
//!
//! That says nothing of `run`, which compares the number of workers before it takes this way, nothing of standard input and
//! output, and nothing of the C library that gives memory. What a run writes is promised by `run_alone`, and not again here.
#![tactic(auto)]

use ht_cli::run_alone;
use ht_feed::OpenGate;
use ht_io::{GrowSink, SureSource};
use std::alloc::{AllocError, Global};

// Runs the program on no words, and counts the octets that it wrote.
fn counted(alloc: Global, input: &[u8]) -> Result<u64, AllocError> {
    let words: Vec<String> = Vec::new(alloc);
    let mut source = SureSource::new(Vec::from_slice(alloc, input)?);
    let mut sink = GrowSink::new(alloc);
    let _status = run_alone(alloc, &words, &mut source, &mut sink, &OpenGate);
    Ok(sink.held().len() as u64)
}

/// Runs the program on no words over octets in memory, and gives the number of octets that it wrote, which are those of the
/// usage line; 0 where memory ran out.
#[unsafe(no_mangle)]
pub extern "C" fn mizgaure_run_alone(alloc: Global, input: &[u8]) -> u64 {
    counted(alloc, input).unwrap_or(0)
}

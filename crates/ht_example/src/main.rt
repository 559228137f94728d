//! The least receiver, and an example of how a program calls the library: it reads a capture (HTCP) from standard input and
//! writes the lines of its frames to standard output, each once its frame is whole, and then the last line. That is what
//! `radio rx` writes for a capture without a fault.
//!
//! It ends with status 0 if the capture is whole. Otherwise the status is 1: the capture has a fault, reading or writing
//! failed, or memory ran out.
#![tactic(auto)]

use ht_feed::OpenGate;
use ht_io::{StdSink, StdSource};
use ht_rx::receive_text_alone;
use std::io::{BufReader, writer};
use std::process::ExitCode;

/// The number of jobs in a block, at most.
const WINDOW: u16 = 1024;

fn main(rt: HostRuntime) -> ExitCode {
    let Ok(reader) = BufReader::new(rt.alloc(), rt.reader()) else {
        return ExitCode::FAILURE;
    };
    let mut source = StdSource::new(reader);
    let mut sink = StdSink::new(writer(&rt));
    match receive_text_alone(rt.alloc(), WINDOW, &mut source, &mut sink, &OpenGate) {
        Ok(_) => ExitCode::SUCCESS,
        Err(_) => ExitCode::FAILURE,
    }
}

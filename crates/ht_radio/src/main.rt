//! The program `radio`: the commands of `ht_cli` over standard input and standard output.
//!
//! It hands on the words behind the program's name and ends with the status that `run` answers. Where the system's call
//! for the words finds no memory it ends with status 5, and where it is refused for another cause, as a word that isn't
//! UTF-8, with status 6; in both cases it reads and writes nothing. Where reading or writing failed, the system's last
//! error is said on standard error, and nothing else ever is.
#![tactic(auto)]

use ht_cli::{Status, run};
use ht_feed::OpenGate;
use ht_io::{StdSink, StdSource};
use std::env;
use std::io::{BufReader, ErrorKind, writer};
use std::process::ExitCode;

/// The exit status where the words can't be had.
const NO_WORDS: u8 = 6;

fn main(rt: HostRuntime) -> ExitCode {
    let mut words = Vec::new(rt.alloc());
    let args = match env::args(&rt) {
        Ok(args) => args,
        Err(error) if error.kind() == ErrorKind::OutOfMemory => return Status::NoMemory.into(),
        Err(_) => return ExitCode::from(NO_WORDS),
    };
    for word in args.skip(1) {
        if words.push(word).is_err() {
            return Status::NoMemory.into();
        }
    }
    let Ok(reader) = BufReader::new(rt.alloc(), rt.reader()) else {
        return Status::NoMemory.into();
    };
    let mut source = StdSource::new(reader);
    let mut sink = StdSink::new(writer(&rt));
    let status = run(&rt, rt.alloc(), &words, &mut source, &mut sink, &OpenGate);
    let (failed, error) = match status {
        Status::ReadFault => ("reading standard input", source.last_error()),
        Status::WriteFault => ("writing standard output", sink.last_error()),
        _ => ("", None),
    };
    if let Some(error) = error {
        let _ = eprintln!(rt; "radio: {failed}: {error}");
    }
    status.into()
}

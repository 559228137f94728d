//! Runs over devices in memory that never fail, or fail at an offset, runs by two workers, and how each status reads.
//!
//! What each command writes for a whole input and for one at fault is tried by `.ci/vectors`, and with many workers and
//! windows by `checks/stress`.
use crate::common::{Harm, TWO_FRAMES, push_times, zeros};
use crate::equal::equal;
use crate::gate::{Rule, Watch};
use ht_cli::{Status, laws, run, run_alone};
use ht_feed::OpenGate;
use ht_io::{MemSink, MemSource, SureSink, SureSource};
use std::alloc::{AllocError, Global};
use std::process::{Abort, ExitCode};
use std::sync::Wait;
use std::test::Fail;
use std::thread::Threads;

/// The words of a text, in which a space stands between two.
fn words_of(alloc: Global, text: &str) -> Result<Vec<String>, AllocError> {
    let mut words = Vec::new(alloc);
    for word in text.split(' ') {
        words.push(String::from_str(alloc, word)?)?;
    }
    Ok(words)
}

/// The status of a run over a capture of two frames, and the sink. The source and the sink fail at these offsets.
fn ran(
    alloc: Global,
    words: &str,
    reads_to: u64,
    puts_to: u64,
) -> Result<(Status, MemSink), AllocError> {
    let words = words_of(alloc, words)?;
    let failing = vec![in alloc; reads_to]?;
    let mut source = MemSource::new(zeros(alloc, &[1, 1])?, Vec::new(alloc), failing);
    let failing = vec![in alloc; puts_to]?;
    let mut sink = MemSink::new(Vec::with_capacity(alloc, 4096)?, failing);
    let status = run_alone(alloc, &words, &mut source, &mut sink, &OpenGate);
    Ok((status, sink))
}

// Words, where the source and the sink fail, and the status and what is written. Where the words aren't accepted the source
// isn't read, since it would fail at once.
static RUNS: [(&str, (u64, u64), Status, &str); 4] = [
    (
        "rx rx",
        (0, 4096),
        Status::Usage,
        "usage: radio COMMAND then options as --NAME DIGITS\n",
    ),
    (
        "rx",
        (1583, 4096),
        Status::ReadFault,
        "frame 0 data 10400 pilot 800 code 0 seed zero\n",
    ),
    ("rx", (4096, 6), Status::WriteFault, "frame "),
    (
        "rx",
        (4096, 100),
        Status::WriteFault,
        "frame 0 data 10400 pilot 800 code 0 seed zero\nframe 1 data 10400 pilot 800 code 0 seed zero\nend 2 fr",
    ),
];

#[test]
fn failing(rt: HostRuntime) -> Result<(), Fail> {
    for &(words, (reads_to, puts_to), wanted, text) in &RUNS {
        let (status, sink) = ran(rt.alloc(), words, reads_to, puts_to)?;
        equal(&rt, (status, sink.held()), (wanted, text.as_bytes()));
    }
    Ok(())
}

// Devices that never fail.
#[test]
fn sure(rt: HostRuntime) -> Result<(), Fail> {
    let words = words_of(rt.alloc(), "rx")?;
    let mut source = SureSource::new(zeros(rt.alloc(), &[1, 1])?);
    let mut sink = SureSink::new(Vec::with_capacity(rt.alloc(), 105)?);
    let status = laws::run_sure(rt.alloc(), &words, &mut source, &mut sink);
    equal(
        &rt,
        (status, sink.held()),
        (Status::Done, Some(TWO_FRAMES.as_bytes())),
    );
    Ok(())
}

// Asserts that a run by two workers, at a gate that one alone can't pass, puts what one alone puts, and that the same jobs
// pass both gates.
fn meets<R: Abort + Threads + Wait + Sync>(
    rt: &R,
    alloc: Global,
    words: &str,
    octets: &[u8],
    rule: Rule,
) -> Result<(), AllocError> {
    let call = words_of(alloc, words)?;
    let (gate, open) = (Watch::new(rule), Watch::new(Rule::AtOnce(0)));
    let mut source = Harm::None.source(alloc, octets)?;
    let mut again = Harm::None.source(alloc, octets)?;
    let mut sink = Harm::None.sink(alloc)?;
    let mut wanted = Harm::None.sink(alloc)?;
    let status = run(rt, alloc, &call, &mut source, &mut sink, &gate);
    let alone = run_alone(alloc, &call, &mut again, &mut wanted, &open);
    let answer = (words, status, alone, sink.held(), gate.counts());
    let expected = (
        words,
        Status::Done,
        Status::Done,
        wanted.held(),
        open.counts(),
    );
    equal(rt, answer, expected);
    Ok(())
}

// A clause 18 capture of a frame of one octet at 6 Mbit/s: the diagonal 10 on each subcarrier, every sample 0.
fn legacy_zeros(alloc: Global) -> Result<Vec<u8>, AllocError> {
    let mut octets = b"LGCP\x01\x00\x01\x00\x00\x01".to_vec(alloc)?;
    push_times(&mut octets, 52, &[0, 10])?;
    push_times(&mut octets, 104, &[0; 8])?;
    Ok(octets)
}

// The bundle of this number of captures of a frame of one octet, of 1019 octets each.
fn bundle(alloc: Global, captures: u8) -> Result<Vec<u8>, AllocError> {
    let mut octets = b"HTMB\x01".to_vec(alloc)?;
    octets.push(captures)?;
    let mut capture = b"\x00\x00\x03\xfb".to_vec(alloc)?;
    capture.extend_from_slice(&zeros(alloc, &[1])?)?;
    push_times(&mut octets, u32::from(captures), &capture)?;
    Ok(octets)
}

// Job 0 is held until the others of a frame have left. The two captures of the last bundle are received apart, so there two
// jobs must be inside at once.
#[test]
fn threads_meet(rt: HostRuntime) -> Result<(), Fail> {
    let alloc = rt.alloc();
    let capture = zeros(alloc, &[1])?;
    let (one, two, legacy) = (bundle(alloc, 1)?, bundle(alloc, 2)?, legacy_zeros(alloc)?);
    for (words, octets, rule) in [
        ("detect --workers 2", &capture, Rule::OthersFirst(111)),
        ("rx --workers 2", &capture, Rule::OthersFirst(111)),
        ("soft --workers 2", &capture, Rule::OthersFirst(111)),
        ("lrx --workers 2", &legacy, Rule::OthersFirst(103)),
        ("many --workers 2", &one, Rule::OthersFirst(111)),
        ("many --workers 2", &two, Rule::AtOnce(2)),
    ] {
        meets(&rt, alloc, words, octets, rule)?;
    }
    Ok(())
}

// The exit status of each status, and how it reads.
#[test]
fn statuses(rt: HostRuntime) -> Result<(), Fail> {
    for (status, number, text) in [
        (Status::Done, 0u8, "done"),
        (Status::Refused, 1, "the input is refused"),
        (Status::Usage, 2, "the words aren't accepted"),
        (Status::ReadFault, 3, "reading failed"),
        (Status::WriteFault, 4, "writing failed"),
        (Status::NoMemory, 5, "out of memory"),
    ] {
        let shown = status.to_string(rt.alloc())?;
        equal(
            &rt,
            (ExitCode::from(status), shown.as_str()),
            (ExitCode::from(number), text),
        );
    }
    Ok(())
}

//! Captures of zeros: their lines and their results, by the caller alone and by several workers, over devices that fail or
//! give an octet at a time.
ghost use Rattle.ht_feed.specs.Limits.{IsWindowSize};

use crate::common::{Harm, TWO_FRAMES, zeros};
use crate::equal::equal;
use crate::gate::{Rule, Watch};
use ht_feed::{Gate, OpenGate};
use ht_frames::ListBook;
use ht_inverse::Outcome;
use ht_io::{MemSink, MemSource};
use ht_runs::RunFault;
use ht_rx::{
    Ended, FrameResult, list_jobs_alone, list_text, list_text_alone, receive, receive_alone,
    receive_text, receive_text_alone,
};
use std::alloc::{AllocError, Global};
use std::process::Abort;
use std::sync::Wait;
use std::test::Fail;
use std::thread::Threads;

/// What is put of a capture: a line for each job, or for each frame.
#[derive(Clone, Copy, Debug, PartialEq, Eq)]
enum Lines {
    Jobs,
    Frames,
}

fn alone(
    alloc: Global,
    lines: Lines,
    window: u16,
    source: &mut MemSource,
    sink: &mut MemSink,
) -> Result<u64, RunFault>
    requires { IsWindowSize window }
{
    match lines {
        Lines::Jobs => list_text_alone(alloc, window, source, sink, &OpenGate),
        Lines::Frames => receive_text_alone(alloc, window, source, sink, &OpenGate),
    }
}

fn by_two<R: Threads + Wait + Sync, G: Gate + Sync>(
    rt: &R,
    alloc: Global,
    lines: Lines,
    window: u16,
    source: &mut MemSource,
    sink: &mut MemSink,
    gate: &G,
) -> Result<u64, RunFault>
    requires { IsWindowSize window }
{
    match lines {
        Lines::Jobs => list_text(rt, alloc, 2, window, source, sink, gate),
        Lines::Frames => receive_text(rt, alloc, 2, window, source, sink, gate),
    }
}

// What is nearest to nothing received: the pilot's value, or the first of the two points.
fn nearest(symbol: u8, carrier: u8) -> i8 {
    match (symbol, carrier) {
        (0, 7 | 21 | 34) | (1, 34) => 1,
        _ => -1,
    }
}

// The lines of a frame of one octet, without the last one.
fn lines_of(alloc: Global, lines: Lines) -> Result<String, AllocError> {
    if lines == Lines::Frames {
        return String::from_str(alloc, "frame 0 data 10400 pilot 800 code 0 seed zero\n");
    }
    let mut text = String::new(alloc);
    for symbol in 0..2u8 {
        for carrier in 0..56u8 {
            let i = nearest(symbol, carrier);
            write!(text, "job 0 {symbol} {carrier} 100 {i} 0\n")?;
        }
    }
    Ok(text)
}

// The text of a frame of one octet.
fn text_of(alloc: Global, lines: Lines) -> Result<String, AllocError> {
    let mut text = lines_of(alloc, lines)?;
    text.push_str("end 1 frames\n")?;
    Ok(text)
}

// Asserts what is put of a frame of one octet by one thread.
fn puts_alone(rt: &impl Abort, alloc: Global, lines: Lines, text: &str) -> Result<(), AllocError> {
    let mut source = Harm::None.source(alloc, &zeros(alloc, &[1])?)?;
    let mut sink = Harm::None.sink(alloc)?;
    let frames = alone(alloc, lines, 16, &mut source, &mut sink);
    equal(
        rt,
        (lines, frames, sink.held()),
        (lines, Ok(1), text.as_bytes()),
    );
    Ok(())
}

// Asserts what is put of it by two threads.
fn puts_by_two<R: Abort + Threads + Wait + Sync, G: Gate + Sync>(
    rt: &R,
    alloc: Global,
    lines: Lines,
    window: u16,
    gate: &G,
    text: &str,
) -> Result<(), AllocError>
    requires { IsWindowSize window }
{
    let mut source = Harm::None.source(alloc, &zeros(alloc, &[1])?)?;
    let mut sink = Harm::None.sink(alloc)?;
    let frames = by_two(rt, alloc, lines, window, &mut source, &mut sink, gate);
    equal(
        rt,
        (window, frames, sink.held()),
        (window, Ok(1), text.as_bytes()),
    );
    Ok(())
}

// Two threads also meet at a gate that one alone can't pass: job 0 is held until the 111 others have left.
#[test]
fn whole(rt: HostRuntime) -> Result<(), Fail> {
    for lines in [Lines::Jobs, Lines::Frames] {
        let text = text_of(rt.alloc(), lines)?;
        let gate = Watch::new(Rule::OthersFirst(111));
        puts_alone(&rt, rt.alloc(), lines, &text)?;
        puts_by_two(&rt, rt.alloc(), lines, 16, &OpenGate, &text)?;
        puts_by_two(&rt, rt.alloc(), lines, 256, &gate, &text)?;
        equal(&rt, (lines, gate.counts()), (lines, [112, 112, 0]));
    }
    Ok(())
}

// The lines of jobs alone, and how many frames and jobs there were.
#[test]
fn listed(rt: HostRuntime) -> Result<(), Fail> {
    let alloc = rt.alloc();
    let lines = lines_of(alloc, Lines::Jobs)?;
    let mut source = Harm::None.source(alloc, &zeros(alloc, &[1])?)?;
    let mut sink = Harm::None.sink(alloc)?;
    let ended = list_jobs_alone(alloc, 16, &mut source, &mut sink, &OpenGate);
    let wanted = Ok(Ended {
        frames: 1,
        jobs: 112,
    });
    equal(&rt, (ended, sink.held()), (wanted, lines.as_bytes()));
    Ok(())
}

// Whether this is the result of the frame with this number and this many symbols: each of the 52 data jobs of a symbol
// and of its 4 pilot jobs is at 100.
fn is_of(found: &FrameResult, frame: usize, symbols: u8) -> bool {
    let jobs = u128::from(symbols) * 100;
    let sums = (found.data_sum, found.pilot_sum);
    usize::from(found.frame) == frame
        && sums == (jobs * 52, jobs * 4)
        && found.code == 0
        && matches!(&found.outcome, Outcome::SeedZero)
}

// Whether these are the results of the first frames, which have these numbers of symbols.
fn are_of(results: &[FrameResult], symbols: &[u8]) -> bool {
    for (frame, (found, symbols)) in results.iter().zip(symbols).enumerate() {
        if !is_of(found, frame, *symbols) {
            return false;
        }
    }
    results.len() == symbols.len()
}

// A book of two short frames.
#[test]
fn booked(rt: HostRuntime) -> Result<(), Fail> {
    let alloc = rt.alloc();
    let mut book = ListBook::new(alloc);
    let mut source = Harm::None.source(alloc, &zeros(alloc, &[1, 1])?)?;
    let ended = receive_alone(alloc, 1, &mut source, &mut book, &OpenGate);
    let wanted = Ok(Ended {
        frames: 2,
        jobs: 224,
    });
    let is_whole = are_of(book.results(), &[2, 2]);
    equal(&rt, (ended, is_whole), (wanted, true));
    Ok(())
}

// Two frames that are long enough to go to a worker and a short one between them, by one to four workers.
#[test]
fn booked_in_order(rt: HostRuntime) -> Result<(), Fail> {
    let alloc = rt.alloc();
    let octets = zeros(alloc, &[400, 1, 400])?;
    for workers in [1, 2, 3, 4] {
        let mut book = ListBook::new(alloc);
        let mut source = Harm::None.source(alloc, &octets)?;
        let ended = receive(&rt, alloc, workers, 256, &mut source, &mut book, &OpenGate);
        let wanted = Ok(Ended {
            frames: 3,
            jobs: 14000,
        });
        let is_whole = are_of(book.results(), &[124, 2, 124]);
        equal(&rt, (workers, ended, is_whole), (workers, wanted, true));
    }
    Ok(())
}

/// How a run to the last line ends, and the sink.
type Ran = (Result<u64, RunFault>, MemSink);

/// Puts the text of a capture.
fn ran(alloc: Global, lines: Lines, source: &mut MemSource, harm: Harm) -> Result<Ran, AllocError> {
    let mut sink = harm.sink(alloc)?;
    let ended = alone(alloc, lines, 256, source, &mut sink);
    Ok((ended, sink))
}

/// A place in a capture of two frames of one octet where a symbol ends, and how many octets of lines of jobs and of frames
/// are put up to there.
struct End {
    at: u64,
    jobs: usize,
    frames: usize,
}

static ENDS: [End; 5] = [
    End {
        at: 0,
        jobs: 0,
        frames: 0,
    },
    End {
        at: 571,
        jobs: 1107,
        frames: 0,
    },
    End {
        at: 1019,
        jobs: 2216,
        frames: 46,
    },
    End {
        at: 1583,
        jobs: 3323,
        frames: 46,
    },
    End {
        at: 2031,
        jobs: 4432,
        frames: 92,
    },
];

/// How many octets of lines of jobs there are, with the last line.
const JOBS: usize = 4445;

/// A capture of two frames with all that is put of it.
#[derive(Drop)]
struct Capture {
    octets: Vec<u8>,
    lines: Lines,
    text: Vec<u8>,
}

impl Capture {
    fn new(rt: &impl Abort, alloc: Global, lines: Lines) -> Result<Capture, Fail> {
        let octets = zeros(alloc, &[1, 1])?;
        let mut source = Harm::None.source(alloc, &octets)?;
        let (ended, sink) = ran(alloc, lines, &mut source, Harm::None)?;
        let text = sink.held().to_vec(alloc)?;
        equal(rt, ended, Ok(2));
        Ok(Capture {
            octets,
            lines,
            text,
        })
    }

    // Asserts that a run with this harm ends with this fault, and that this number of octets of the text are put.
    fn breaks(
        &self,
        rt: &impl Abort,
        alloc: Global,
        harm: Harm,
        fault: RunFault,
        count: usize,
    ) -> Result<(), Fail> {
        let mut source = harm.source(alloc, &self.octets)?;
        let (ended, sink) = ran(alloc, self.lines, &mut source, harm)?;
        let held = sink.held();
        let is_first = self.text.starts_with(held);
        equal(
            rt,
            (harm, ended, held.len(), is_first),
            (harm, Err(fault), count, true),
        );
        Ok(())
    }
}

// Sources that fail at each offset in turn: the lines of the symbols, or of the frames, that were read whole.
#[test]
fn broken_off(rt: HostRuntime) -> Result<(), Fail> {
    let jobs = Capture::new(&rt, rt.alloc(), Lines::Jobs)?;
    let frames = Capture::new(&rt, rt.alloc(), Lines::Frames)?;
    equal(&rt, jobs.text.len(), JOBS);
    equal(&rt, frames.text.as_slice(), TWO_FRAMES.as_bytes());
    let mut written = 0;
    for offset in 0..2032u64 {
        let harm = Harm::Source(offset);
        for end in &ENDS {
            if end.at == offset {
                written = end.frames;
                jobs.breaks(&rt, rt.alloc(), harm, RunFault::Read, end.jobs)?;
            }
        }
        frames.breaks(&rt, rt.alloc(), harm, RunFault::Read, written)?;
    }
    Ok(())
}

// Sinks that fail at each offset in turn hold the text up to there.
#[test]
fn failing(rt: HostRuntime) -> Result<(), Fail> {
    for (lines, offsets) in [(Lines::Jobs, 300u64), (Lines::Frames, 105)] {
        let capture = Capture::new(&rt, rt.alloc(), lines)?;
        for offset in 0..offsets {
            let (harm, count) = (Harm::Sink(offset), offset as usize);
            capture.breaks(&rt, rt.alloc(), harm, RunFault::Write, count)?;
        }
    }
    Ok(())
}

// A source that gives one octet at a time.
#[test]
fn slow(rt: HostRuntime) -> Result<(), Fail> {
    let alloc = rt.alloc();
    for lines in [Lines::Jobs, Lines::Frames] {
        let capture = Capture::new(&rt, alloc, lines)?;
        let cuts = (0..2031u64).collect(alloc)?;
        let mut source = MemSource::new(capture.octets, cuts, Vec::new(alloc));
        let (ended, sink) = ran(alloc, lines, &mut source, Harm::None)?;
        let text = capture.text.as_slice();
        equal(&rt, (lines, ended, sink.held()), (lines, Ok(2), text));
    }
    Ok(())
}

//! What no clause says: octets through std's readers and writers, and each device once.
ghost use Rattle.std.specs.Prelude.{◌≡◌, IfOk};

use crate::common::source;
use crate::equal::equal;
use ht_io::{
    Failed, FormatFault, GrowSink, InFault, Kind, MemSink, MemSource, Sink, Source, StdSink,
    StdSource, SureSink, SureSource,
};
use std::alloc::Global;
use std::fmt::Display;
use std::io::{self, BufReader, ErrorKind, Read, Write};
use std::process::Abort;
use std::test::Fail;

// A device of std that is interrupted a number of times before each call that it does.
#[derive(Drop)]
struct Interrupted {
    times: u32,
    left: u32,
}

impl Interrupted {
    fn outcome(&mut self, count: usize) -> io::Result<usize>
        ensures { IfOk result (λ done. done ≡ count) }
    {
        if self.left > 0 {
            self.left -= 1;
            return Err(io::Error::from(ErrorKind::Interrupted));
        }
        self.left = self.times;
        Ok(count)
    }
}

impl Read for Interrupted {
    fn read(&mut self, buf: &mut [u8]) -> io::Result<usize> {
        self.outcome(buf.len())
    }
}

impl Write for Interrupted {
    fn write(&mut self, buf: &[u8]) -> io::Result<usize> {
        self.outcome(buf.len())
    }

    fn flush(&mut self) -> io::Result<()> {
        Ok(())
    }
}

// A writer that takes nothing, or one that takes all and cannot flush it.
#[derive(Drop)]
struct Broken {
    takes: bool,
}

impl Write for Broken {
    fn write(&mut self, buf: &[u8]) -> io::Result<usize> {
        if self.takes { Ok(buf.len()) } else { Ok(0) }
    }

    fn flush(&mut self) -> io::Result<()> {
        if self.takes {
            return Err(io::Error::from(ErrorKind::BrokenPipe));
        }
        Ok(())
    }
}

// What kind of error was kept, if one was.
fn kind_of(last: Option<io::Error>) -> Option<ErrorKind> {
    last.map(|error| error.kind())
}

// How often each of a number of reads of eight octets takes: the count, or None at a failure.
fn counts<S: Source>(source: &mut S) -> [Option<usize>; 6] {
    let mut into = [0u8; 8];
    let mut all = [None; 6];
    for count in all.iter_mut() {
        *count = source.read(&mut into).ok();
    }
    all
}

#[test]
fn smoke_std_source(rt: HostRuntime) -> Result<(), Fail> {
    let octets: &[u8] = b"HTCP\x01\x00\xff";
    let mut source = StdSource::new(BufReader::new(rt.alloc(), octets)?);
    for expected in [
        (Ok(4), *b"HTCP"),
        (Ok(3), *b"\x01\x00\xff\x00"),
        (Ok(0), [0; 4]),
    ] {
        let mut into = [0u8; 4];
        let read = source.read(&mut into);
        equal(&rt, (read, into), expected);
    }
    Ok(())
}

#[test]
fn smoke_std_sink(rt: HostRuntime) {
    let mut written = Vec::new(rt.alloc());
    let mut sink = StdSink::new(&mut written);
    let puts = (sink.put(b"end 1 "), sink.put(b"frames\n"));
    equal(&rt, puts, (Ok(()), Ok(())));
    equal(&rt, written.as_slice(), b"end 1 frames\n".as_slice());
}

// A source that is interrupted so often before each read.
fn with_interruptions(alloc: Global, times: u32) -> io::Result<StdSource<Interrupted>> {
    let reader = BufReader::new(alloc, Interrupted { times, left: times })?;
    Ok(StdSource::new(reader))
}

#[test]
fn interruptions(rt: HostRuntime) -> Result<(), Fail> {
    for (times, works) in [(0, true), (999, true), (1_000, true), (1_001, false)] {
        let mut source = with_interruptions(rt.alloc(), times)?;
        let mut sink = StdSink::new(Interrupted { times, left: times });
        let mut into = [0u8; 4];
        let read = source.read(&mut into).is_ok();
        let put = sink.put(&into).is_ok();
        equal(&rt, (times, read, put), (times, works, works));
    }
    Ok(())
}

// A device has no last error before it failed, and then the one that it failed with.
#[test]
fn last_errors(rt: HostRuntime) -> Result<(), Fail> {
    for (takes, kind) in [(false, ErrorKind::WriteZero), (true, ErrorKind::BrokenPipe)] {
        let mut sink = StdSink::new(Broken { takes });
        let before = kind_of(sink.last_error());
        let put = sink.put(b"x");
        let behind = kind_of(sink.last_error());
        equal(&rt, (before, put, behind), (None, Err(Failed), Some(kind)));
    }
    let mut source = with_interruptions(rt.alloc(), 1_001)?;
    let before = kind_of(source.last_error());
    let read = source.read(&mut [0; 4]);
    let behind = kind_of(source.last_error());
    equal(
        &rt,
        (before, read, behind),
        (None, Err(Failed), Some(ErrorKind::Interrupted)),
    );
    Ok(())
}

#[test]
fn smoke_sources(rt: HostRuntime) -> Result<(), Fail> {
    let mut source = source(rt.alloc(), b"0123456789", &[4], &[10, 6, 6])?;
    let pieces = [Some(4), Some(2), None, None, Some(4), None];
    equal(&rt, counts(&mut source), pieces);

    let mut sure = SureSource::new(Vec::from_slice(rt.alloc(), b"0123456789")?);
    let pieces = [Some(8), Some(2), Some(0), Some(0), Some(0), Some(0)];
    equal(&rt, counts(&mut &mut sure), pieces);
    Ok(())
}

// Pieces that are at hand, and one octet that is read wherever none is.
#[test]
fn smoke_hands(rt: HostRuntime) -> Result<(), Fail> {
    let mut source = source(rt.alloc(), b"0123456789", &[4], &[6])?;
    for (hand, count) in [("0123", 3), ("3", 1), ("45", 2), ("", 0)] {
        let found = source.at_hand();
        equal(&rt, found, hand.as_bytes());
        let most = found.len();
        source.consume(most.min(count));
    }
    equal(&rt, source.read(&mut [0u8]), Err(Failed));
    equal(&rt, source.at_hand(), b"6789".as_slice());
    Ok(())
}

#[test]
fn smoke_std_hands(rt: HostRuntime) -> Result<(), Fail> {
    let octets: &[u8] = b"abcdef";
    let mut source = StdSource::new(BufReader::with_capacity(rt.alloc(), 4, octets)?);
    equal(&rt, source.at_hand(), b"".as_slice());
    equal(&rt, source.read(&mut [0u8]), Ok(1));
    equal(&rt, source.at_hand(), b"bcd".as_slice());
    Ok(())
}

#[test]
fn refusals_memory(rt: HostRuntime) -> Result<(), Fail> {
    let alloc = rt.alloc();
    let space = Vec::with_capacity(alloc, 16)?;
    let mut sink = MemSink::new(space, Vec::from_slice(alloc, &[10])?);
    for (piece, works, held) in [
        ("abcdefgh", true, "abcdefgh"),
        ("ijkl", false, "abcdefghij"),
        ("klmn", true, "abcdefghijklmn"),
        ("opqr", false, "abcdefghijklmnop"),
    ] {
        let put = sink.put(piece.as_bytes()).is_ok();
        equal(&rt, (put, sink.held()), (works, held.as_bytes()));
    }
    Ok(())
}

#[test]
fn smoke_grow_sink(rt: HostRuntime) {
    let mut grown = GrowSink::new(rt.alloc());
    equal(&rt, grown.put(b"abc"), Ok(()));
    equal(&rt, grown.held(), b"abc".as_slice());
    equal(&rt, grown.into_held().as_slice(), b"abc".as_slice());
}

#[test]
fn smoke_sure_sink(rt: HostRuntime) -> Result<(), Fail> {
    let mut sure = SureSink::new(Vec::with_capacity(rt.alloc(), 4)?);
    equal(&rt, sure.put(b"abcd"), Ok(()));
    equal(&rt, sure.held(), Some(b"abcd".as_slice()));
    equal(&rt, sure.put(b"efg"), Ok(()));
    equal(&rt, (sure.held(), sure.dropped()), (None, 3));
    Ok(())
}

// Asserts that a value is shown as this text.
fn shows(rt: &impl Abort, alloc: Global, value: &impl Display, text: &str) -> Result<(), Fail> {
    let shown = format!(in alloc; "{value}")?;
    equal(rt, shown.as_str(), text);
    Ok(())
}

#[test]
fn vectors_texts(rt: HostRuntime) -> Result<(), Fail> {
    let fault = FormatFault {
        kind: Kind::BadMcs,
        offset: 8,
    };
    shows(&rt, rt.alloc(), &Kind::BadMagic, "BadMagic")?;
    shows(&rt, rt.alloc(), &fault, "BadMcs at 8")?;
    shows(&rt, rt.alloc(), &InFault::Format(fault), "BadMcs at 8")?;
    shows(&rt, rt.alloc(), &InFault::Read, "the input can't be read")?;
    shows(&rt, rt.alloc(), &InFault::NoMemory, "out of memory")?;
    shows(&rt, rt.alloc(), &Failed, "the device failed")
}

#[test]
fn vectors_kinds(rt: HostRuntime) {
    for (kind, number, name) in [
        (Kind::BadMagic, 1, "BadMagic"),
        (Kind::BadCount, 15, "BadCount"),
    ] {
        equal(&rt, (kind.number(), kind.name()), (number, name));
    }
}

// A device may be handed to another thread.
fn is_sent<T: Send + Sync>(_: &T) {}

#[test]
fn smoke_threads(rt: HostRuntime) -> Result<(), Fail> {
    let alloc = rt.alloc();
    is_sent(&MemSource::new(Vec::new(alloc), Vec::new(alloc), Vec::new(alloc)));
    is_sent(&MemSink::new(Vec::new(alloc), Vec::new(alloc)));
    is_sent(&GrowSink::new(alloc));
    is_sent(&SureSource::new(Vec::new(alloc)));
    is_sent(&SureSink::new(Vec::new(alloc)));
    let octets: &[u8] = &[];
    is_sent(&StdSource::new(BufReader::new(alloc, octets)?));
    is_sent(&StdSink::new(Broken { takes: true }));
    Ok(())
}

//! Several captures: whole ones, one that is none, and ones that are cut, whose source fails, or whose sink does,
//! at each offset; and bundles.
use crate::common::{Harm, TWO_FRAMES, a5, zeros};
use crate::equal::equal;
use ht_feed::OpenGate;
use ht_io::{FormatFault, GrowSink, Kind, MemSink, MemSource, SureSource};
use ht_many::{ManyEnd, many, many_alone, many_bundle, many_bundle_alone};
use ht_runs::RunFault;
use std::alloc::{AllocError, Global};
use std::process::Abort;
use std::sync::Wait;
use std::test::Fail;
use std::thread::Threads;

/// A capture and what befalls it, and how it ends and what is written of it.
#[derive(Drop)]
struct Lane {
    octets: Vec<u8>,
    harm: Harm,
    end: ManyEnd,
    text: Vec<u8>,
}

// Adds a lane.
fn push(
    alloc: Global,
    lanes: &mut Vec<Lane>,
    octets: Vec<u8>,
    harm: Harm,
    (end, text): (ManyEnd, &str),
) -> Result<(), AllocError> {
    let text = text.as_bytes().to_vec(alloc)?;
    lanes.push(Lane {
        octets,
        harm,
        end,
        text,
    })?;
    Ok(())
}

fn refused(kind: Kind, offset: u64) -> ManyEnd {
    ManyEnd::Refused(FormatFault { kind, offset })
}

fn sources(alloc: Global, lanes: &[Lane]) -> Result<Vec<MemSource>, AllocError> {
    let mut sources = Vec::new(alloc);
    for lane in lanes {
        sources.push(lane.harm.source(alloc, &lane.octets)?)?;
    }
    Ok(sources)
}

fn sinks(alloc: Global, lanes: &[Lane]) -> Result<Vec<MemSink>, AllocError> {
    let mut sinks = Vec::new(alloc);
    for lane in lanes {
        sinks.push(lane.harm.sink(alloc)?)?;
    }
    Ok(sinks)
}

// Asserts what came of the captures.
fn ends_as(rt: &impl Abort, lanes: &[Lane], ends: &[ManyEnd], sinks: &[MemSink]) {
    equal(rt, (ends.len(), sinks.len()), (lanes.len(), lanes.len()));
    for (lane, (end, sink)) in lanes.iter().zip(ends.iter().zip(sinks)) {
        equal(
            rt,
            (lane.harm, *end, sink.held()),
            (lane.harm, lane.end, lane.text.as_slice()),
        );
    }
}

// Receives captures in this thread.
fn alone(rt: &impl Abort, alloc: Global, lanes: &[Lane]) -> Result<(), Fail> {
    let mut sources = sources(alloc, lanes)?;
    let mut sinks = sinks(alloc, lanes)?;
    if sinks.len() != sources.len() {
        return Err(Fail::from("a sink for each source"));
    }
    let ends = many_alone(alloc, 50, &mut sources, &mut sinks, &OpenGate)?;
    ends_as(rt, lanes, &ends, &sinks);
    Ok(())
}

// Receives captures by two to four workers.
fn by_crew<R: Abort + Threads + Wait + Sync>(
    rt: &R,
    alloc: Global,
    (workers, window): (u8, u16),
    lanes: &[Lane],
) -> Result<(), Fail> {
    let mut sources = sources(alloc, lanes)?;
    let mut sinks = sinks(alloc, lanes)?;
    if sinks.len() != sources.len() {
        return Err(Fail::from("a sink for each source"));
    }
    let (workers, window) = (workers.clamp(2, 4), window.clamp(1, 4096));
    let ends = many(
        rt,
        alloc,
        workers,
        window,
        &mut sources,
        &mut sinks,
        &OpenGate,
    )?;
    ends_as(rt, lanes, &ends, &sinks);
    Ok(())
}

/// The text of the capture of one frame of one octet: of each of its 104 data jobs and 8 pilot jobs the distance is 100.
const ZEROS: &str = "frame 0 data 10400 pilot 800 code 0 seed zero\nend 1 frames\n";

/// The octets of a frame's line.
const LINE: usize = 46;

/// The text of the capture of the octet a5.
const ONE_OCTET: &str = "frame 0 data 0 pilot 0 code 0 octets a5\nend 1 frames\n";

// Five captures: of zeros, `HX`, of two frames from a source that fails behind the first symbol of the second, of
// zeros into a sink that fails, and of the octet a5.
fn five(alloc: Global) -> Result<Vec<Lane>, AllocError> {
    let mut lanes = Vec::new(alloc);
    let done = ManyEnd::Done(1);
    let magic = (refused(Kind::BadMagic, 1), "refused BadMagic at 1\n");
    let read = (
        ManyEnd::Read,
        "frame 0 data 10400 pilot 800 code 0 seed zero\n",
    );
    let write = (ManyEnd::Write, "frame ");
    push(
        alloc,
        &mut lanes,
        zeros(alloc, &[1])?,
        Harm::None,
        (done, ZEROS),
    )?;
    push(alloc, &mut lanes, b"HX".to_vec(alloc)?, Harm::None, magic)?;
    push(
        alloc,
        &mut lanes,
        zeros(alloc, &[1, 1])?,
        Harm::Source(1583),
        read,
    )?;
    push(alloc, &mut lanes, zeros(alloc, &[1])?, Harm::Sink(6), write)?;
    push(alloc, &mut lanes, a5(alloc)?, Harm::None, (done, ONE_OCTET))?;
    Ok(lanes)
}

#[test]
fn five_captures(rt: HostRuntime) -> Result<(), Fail> {
    let lanes = five(rt.alloc())?;
    alone(&rt, rt.alloc(), &lanes)?;
    by_crew(&rt, rt.alloc(), (2, 50), &lanes)
}

// Of frames of 94, 2 and 94 symbols, and of two of 63: each job has the distance 100.
const LONG: &str =
    "frame 0 data 488800 pilot 37600 code 0 seed zero\nframe 1 data 10400 pilot 800 code 0 seed zero\n\
frame 2 data 488800 pilot 37600 code 0 seed zero\nend 3 frames\n";

const SHORTER: &str =
    "frame 0 data 327600 pilot 25200 code 0 seed zero\nframe 1 data 327600 pilot 25200 code 0 seed zero\n\
end 2 frames\n";

// Frames of which most are long enough for a worker, by two to four of them: each capture has its own lines, in order.
#[test]
fn frames_for_workers(rt: HostRuntime) -> Result<(), Fail> {
    let alloc = rt.alloc();
    let mut lanes = Vec::new(alloc);
    let (three, two) = ((ManyEnd::Done(3), LONG), (ManyEnd::Done(2), SHORTER));
    push(
        alloc,
        &mut lanes,
        zeros(alloc, &[300, 1, 300])?,
        Harm::None,
        three,
    )?;
    push(
        alloc,
        &mut lanes,
        zeros(alloc, &[200, 200])?,
        Harm::None,
        two,
    )?;
    for workers in [2, 3, 4] {
        by_crew(&rt, alloc, (workers, 512), &lanes)?;
    }
    Ok(())
}

/// The octets of a capture of two frames of one octet, and those up to the end of the first.
const OCTETS: u64 = 2031;

const FIRST: u64 = 1019;

// The octets of the lines of the frames that are whole in front of an offset.
fn lines_before(at: u64) -> usize {
    if at < FIRST {
        0
    } else if at < OCTETS {
        LINE
    } else {
        2 * LINE
    }
}

// The first octets of the text of this capture.
fn first_octets(alloc: Global, count: usize) -> Result<Vec<u8>, AllocError> {
    let mut octets = TWO_FRAMES.as_bytes().to_vec(alloc)?;
    octets.truncate(count);
    Ok(octets)
}

// What is written of this capture where it is cut off.
fn cut_text(alloc: Global, at: u64) -> Result<Vec<u8>, AllocError> {
    let mut text = first_octets(alloc, lines_before(at))?;
    let refusal = format!(in alloc; "refused Truncated at {at}\n")?;
    text.extend_from_slice(refusal.as_bytes())?;
    Ok(text)
}

// This capture with a harm.
fn harmed(alloc: Global, octets: &[u8], harm: Harm) -> Result<Lane, AllocError> {
    let (end, text) = match harm {
        Harm::None => (ManyEnd::Done(2), first_octets(alloc, TWO_FRAMES.len())?),
        Harm::Cut(at) => (refused(Kind::Truncated, at), cut_text(alloc, at)?),
        Harm::Source(at) => (ManyEnd::Read, first_octets(alloc, lines_before(at))?),
        Harm::Sink(at) => (ManyEnd::Write, first_octets(alloc, at as usize)?),
    };
    let octets = octets.to_vec(alloc)?;
    Ok(Lane {
        octets,
        harm,
        end,
        text,
    })
}

// What befalls three captures at this offset, in each order. The sink fails at an offset of the text.
fn orders(at: u64) -> [[Harm; 3]; 3] {
    let cut = Harm::Cut(at.min(OCTETS - 1));
    let source = Harm::Source(at);
    let sink = Harm::Sink(at % TWO_FRAMES.len() as u64);
    [
        [cut, source, sink],
        [source, sink, cut],
        [sink, cut, source],
    ]
}

// The capture three times, with these harms.
fn three(alloc: Global, octets: &[u8], harms: [Harm; 3]) -> Result<Vec<Lane>, AllocError> {
    let mut lanes = Vec::new(alloc);
    for harm in harms {
        lanes.push(harmed(alloc, octets, harm)?)?;
    }
    Ok(lanes)
}

#[test]
fn at_each_offset(rt: HostRuntime) -> Result<(), Fail> {
    let octets = zeros(rt.alloc(), &[1, 1])?;
    for at in 0..OCTETS + 1 {
        for harms in orders(at) {
            alone(&rt, rt.alloc(), &three(rt.alloc(), &octets, harms)?)?;
        }
    }
    Ok(())
}

#[test]
fn at_some_offsets_by_a_crew(rt: HostRuntime) -> Result<(), Fail> {
    let octets = zeros(rt.alloc(), &[1, 1])?;
    for at in [0, 10, 122, 123, 500, 1018, 1019, 1500, 2030, 2031] {
        for harms in orders(at) {
            by_crew(
                &rt,
                rt.alloc(),
                (2, 50),
                &three(rt.alloc(), &octets, harms)?,
            )?;
        }
    }
    Ok(())
}

// The bundle of these captures: zeros, `HX`, and one of no octets.
fn bundle(alloc: Global) -> Result<Vec<u8>, AllocError> {
    let mut octets = b"HTMB\x01\x03\x00\x00\x03\xfb".to_vec(alloc)?;
    octets.extend_from_slice(&zeros(alloc, &[1])?)?;
    octets.extend_from_slice(b"\x00\x00\x00\x02HX\x00\x00\x00\x00")?;
    Ok(octets)
}

const BUNDLED: &str = "capture 0\nframe 0 data 10400 pilot 800 code 0 seed zero\nend 1 frames\n\
capture 1\nrefused BadMagic at 1\ncapture 2\nrefused Truncated at 0\n";

#[test]
fn bundles(rt: HostRuntime) -> Result<(), Fail> {
    let alloc = rt.alloc();
    let mut from = SureSource::new(bundle(alloc)?);
    let mut into = GrowSink::new(alloc);
    let ran = many_bundle(&rt, alloc, 2, 256, &mut from, &mut into, &OpenGate);
    equal(&rt, (ran, into.held()), (Ok(()), BUNDLED.as_bytes()));
    Ok(())
}

// A bundle of no captures.
#[test]
fn empty_bundle(rt: HostRuntime) -> Result<(), Fail> {
    let alloc = rt.alloc();
    let mut from = SureSource::new(b"HTMB\x01\x00".to_vec(alloc)?);
    let mut into = GrowSink::new(alloc);
    let ran = many_bundle_alone(alloc, 256, &mut from, &mut into, &OpenGate);
    let fault = FormatFault {
        kind: Kind::BadCount,
        offset: 5,
    };
    let answer = (ran, into.held().len());
    equal(&rt, answer, (Err(RunFault::Format(fault)), 0));
    Ok(())
}

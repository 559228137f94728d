//! Files of certificates of one BPSK job, with the diagonal 10 and the sample 3 - 4j. A level is written `o` where it is
//! open and `x` where it is cut.
use crate::common::{source, spoiled};
use crate::equal::equal;
use ht_certify::check_file;
use ht_io::{FormatFault, Kind, MemSink};
use ht_runs::RunFault;
use std::alloc::{AllocError, Global};
use std::process::Abort;
use std::test::Fail;

// What is claimed: the point by its I, its distance and the marks.
type Claim = (u8, u8, &'static str);

static CLAIMS: [Claim; 8] = [
    (1, 65, "oxo"),
    (1, 65, "ooo"),
    (255, 185, "ooo"),
    (1, 64, "ooo"),
    (1, 65, "x"),
    (1, 65, "ox"),
    (1, 65, "oxoo"),
    (0, 65, ""),
];

static LINES: [&str; 9] = [
    "job 0 yes\n",
    "job 1 yes\n",
    "job 2 no Better at 2\n",
    "job 3 no WrongDistance at 65\n",
    "job 4 no Early at 0\n",
    "job 5 no Short at 2\n",
    "job 6 no Long at 3\n",
    "job 7 no OffGrid at 1\n",
    "end 8 jobs yes 2\n",
];

// A file of the claims.
fn file(alloc: Global, claims: &[Claim]) -> Result<Vec<u8>, AllocError> {
    let mut octets = b"HTCT\x01".to_vec(alloc)?;
    octets.extend_from_slice(&(claims.len() as u64).to_be_bytes())?;
    for claim in claims {
        let (i, distance, marks) = *claim;
        octets.extend_from_slice(&[0, 1, 0, 10, 0, 0, 0, 3, 255, 255, 255, 252, i, 0])?;
        octets.extend_from_slice(&u128::from(distance).to_be_bytes())?;
        let count = u32::try_from(marks.len()).unwrap_or(u32::MAX);
        octets.extend_from_slice(&count.to_be_bytes())?;
        for mark in marks.chars() {
            octets.push(u8::from(mark == 'o'))?;
        }
    }
    Ok(octets)
}

// The first of the lines.
fn lines(alloc: Global, count: usize) -> Result<String, AllocError> {
    let mut text = String::new(alloc);
    for line in LINES.iter().take(count) {
        text.push_str(line)?;
    }
    Ok(text)
}

// Asserts what checking these octets answers, and what it puts, where source and sink fail in front of some octets.
fn checks(
    rt: &impl Abort,
    alloc: Global,
    octets: &[u8],
    (source_fails, sink_fails): (&[u64], Option<u64>),
    answer: Result<(), RunFault>,
    text: &str,
) -> Result<(), Fail> {
    let mut source = source(alloc, octets, &[], source_fails)?;
    let mut failing = Vec::new(alloc);
    if let Some(offset) = sink_fails {
        failing.push(offset)?;
    }
    let mut sink = MemSink::new(Vec::with_capacity(alloc, 65536)?, failing);
    let found = check_file(alloc, &mut source, &mut sink);
    equal(rt, (found, sink.held()), (answer, text.as_bytes()));
    Ok(())
}

#[test]
fn answers(rt: HostRuntime) -> Result<(), Fail> {
    let octets = file(rt.alloc(), &CLAIMS)?;
    let text = lines(rt.alloc(), 9)?;
    checks(&rt, rt.alloc(), &octets, (&[], None), Ok(()), &text)?;
    let octets = file(rt.alloc(), &[])?;
    checks(
        &rt,
        rt.alloc(),
        &octets,
        (&[], None),
        Ok(()),
        "end 0 jobs yes 0\n",
    )
}

// What is no file: how many octets of the file it has, which of them is changed or added and to what, its first fault, and how
// many lines are put.
type Spoiled = (usize, usize, u8, Kind, u64, usize);

static SPOILED: [Spoiled; 9] = [
    (4, 0, b'H', Kind::Truncated, 4, 0),
    (304, 3, b'P', Kind::BadMagic, 3, 0),
    (304, 4, 2, Kind::BadVersion, 4, 0),
    (304, 49, 2, Kind::BadMark, 49, 0),
    (304, 50, 4, Kind::BadModulation, 50, 1),
    (304, 51, 5, Kind::BadStreams, 51, 1),
    (50, 0, b'H', Kind::Truncated, 50, 1),
    (303, 0, b'H', Kind::Truncated, 303, 7),
    (304, 304, 0, Kind::Trailing, 304, 8),
];

// Of what is no file the records before its fault have their lines.
#[test]
fn faults(rt: HostRuntime) -> Result<(), Fail> {
    for &(size, place, octet, kind, offset, count) in &SPOILED {
        let mut octets = file(rt.alloc(), &CLAIMS)?;
        octets.truncate(size);
        let octets = spoiled(rt.alloc(), &octets, place, octet)?;
        let answer = Err(RunFault::Format(FormatFault { kind, offset }));
        let text = lines(rt.alloc(), count)?;
        checks(&rt, rt.alloc(), &octets, (&[], None), answer, &text)?;
    }
    Ok(())
}

#[test]
fn devices(rt: HostRuntime) -> Result<(), Fail> {
    let octets = file(rt.alloc(), &CLAIMS)?;
    let read = Err(RunFault::Read);
    let write = Err(RunFault::Write);
    checks(&rt, rt.alloc(), &octets, (&[60], None), read, "job 0 yes\n")?;
    checks(
        &rt,
        rt.alloc(),
        &octets,
        (&[], Some(17)),
        write,
        "job 0 yes\njob 1 y",
    )?;
    checks(&rt, rt.alloc(), &octets, (&[60], Some(0)), write, "")
}

// More lines than are put at once.
#[test]
fn blocks(rt: HostRuntime) -> Result<(), Fail> {
    let mut claims: Vec<Claim> = Vec::new(rt.alloc());
    let mut text = String::new(rt.alloc());
    for job in 0..2500u16 {
        let is_right = job % 3 == 0;
        claims.push((1, 65, if is_right { "oxo" } else { "ox" }))?;
        if is_right {
            write!(text, "job {job} yes\n")?;
        } else {
            write!(text, "job {job} no Short at 2\n")?;
        }
    }
    text.push_str("end 2500 jobs yes 834\n")?;
    let octets = file(rt.alloc(), &claims)?;
    checks(&rt, rt.alloc(), &octets, (&[], None), Ok(()), &text)
}

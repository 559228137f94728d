//! A line of each kind.
use crate::equal::equal;
use ht_text::{
    capture_line, demo_line, end_line, frame_line, job_line, push_checked_line, push_no_line,
    push_soft_line, push_yes_line, refused_line, usage_line,
};
use std::alloc::{AllocError, Global};
use std::process::Abort;
use std::test::Fail;

// Asserts that a line was made and that it is this text.
fn reads(
    rt: &impl Abort,
    alloc: Global,
    line: Result<Vec<u8>, AllocError>,
    text: &str,
) -> Result<(), Fail> {
    let line = line?;
    equal(rt, (text, line.as_slice()), (text, text.as_bytes()));
    Ok(())
}

#[test]
fn jobs(rt: HostRuntime) -> Result<(), Fail> {
    let alloc = rt.alloc();
    let near = job_line(alloc, 0, 0, 0, 100, &[-1, 0]);
    reads(&rt, rt.alloc(), near, "job 0 0 0 100 -1 0\n")?;
    let pilot = job_line(alloc, 0, 1, 34, 100, &[1, 0]);
    reads(&rt, rt.alloc(), pilot, "job 0 1 34 100 1 0\n")?;
    let points = [-7, 7, -7, 7, -7, 7, -7, 7];
    let far = job_line(alloc, 3, 20165, 113, 36877727455641076052, &points);
    let text = "job 3 20165 113 36877727455641076052 -7 7 -7 7 -7 7 -7 7\n";
    reads(&rt, rt.alloc(), far, text)
}

#[test]
fn frames(rt: HostRuntime) -> Result<(), Fail> {
    let alloc = rt.alloc();
    let none = frame_line(alloc, 0, 10400, 800, 0, None);
    reads(
        &rt,
        rt.alloc(),
        none,
        "frame 0 data 10400 pilot 800 code 0 seed zero\n",
    )?;
    let one = frame_line(alloc, 0, 0, 0, 1, Some(&[0xa5]));
    reads(
        &rt,
        rt.alloc(),
        one,
        "frame 0 data 0 pilot 0 code 1 octets a5\n",
    )?;
    let three = frame_line(alloc, 65535, 0, 0, 0, Some(&[0x09, 0x30, 0xa5]));
    reads(
        &rt,
        rt.alloc(),
        three,
        "frame 65535 data 0 pilot 0 code 0 octets 0930a5\n",
    )
}

// The line of a frame that was decoded from weights, in a text of its own.
fn soft_line(
    alloc: Global,
    frame: u16,
    cost: u128,
    octets: Option<&[u8]>,
) -> Result<Vec<u8>, AllocError> {
    let mut text = String::new(alloc);
    push_soft_line(&mut text, frame, cost, octets)?;
    Ok(text.into_bytes())
}

#[test]
fn soft_frames(rt: HostRuntime) -> Result<(), Fail> {
    let one = soft_line(rt.alloc(), 0, 0, Some(&[0xa5]));
    reads(&rt, rt.alloc(), one, "soft 0 cost 0 octets a5\n")?;
    let none = soft_line(rt.alloc(), 65535, 10400, None);
    reads(&rt, rt.alloc(), none, "soft 65535 cost 10400 seed zero\n")
}

#[test]
fn ends(rt: HostRuntime) -> Result<(), Fail> {
    let alloc = rt.alloc();
    reads(&rt, rt.alloc(), capture_line(alloc, 2), "capture 2\n")?;
    reads(&rt, rt.alloc(), end_line(alloc, 1), "end 1 frames\n")?;
    let refused = refused_line(alloc, "Truncated", 1018);
    reads(&rt, rt.alloc(), refused, "refused Truncated at 1018\n")?;
    let usage = "usage: radio COMMAND then options as --NAME DIGITS\n";
    reads(&rt, rt.alloc(), usage_line(alloc), usage)?;
    let demo = demo_line(alloc, 8, 120, 13680, 8, 0, 0, 0);
    let text = "demo frames 8 symbols 120 jobs 13680 matched 8 data 0 pilot 0 code 0\n";
    reads(&rt, rt.alloc(), demo, text)
}

#[test]
fn verdicts(rt: HostRuntime) -> Result<(), Fail> {
    let mut text = String::new(rt.alloc());
    push_yes_line(&mut text, 0)?;
    push_no_line(&mut text, 1, "WrongDistance", 65)?;
    push_checked_line(&mut text, 2, 1)?;
    let want = "job 0 yes\njob 1 no WrongDistance at 65\nend 2 jobs yes 1\n";
    equal(&rt, text.as_str(), want);
    Ok(())
}

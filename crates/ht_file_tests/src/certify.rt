//! A capture whose certificates were worked by hand, with ample memory.
use crate::common::{octets_of, push_times, whole};
use crate::equal::equal;
use ht_certify::certify_capture;
use ht_io::GrowSink;
use std::alloc::{AllocError, Global};
use std::test::Fail;

/// A capture of a frame at 20 MHz, MCS 0, of one octet, and so of two symbols, in which subcarriers 6 and 7 alone are
/// present, with the diagonal 10 of one stream: the second of them is a pilot. Each sample is 3 - 4j.
static CAPTURE: [(u16, &[u8]); 5] = [
    (1, b"HTCP\x02\x00\x01\x00\x00\x00\x01"),
    (6, &[1]),
    (2, &[0, 0, 10]),
    (48, &[1]),
    (4, &[0, 0, 0, 3, 255, 255, 255, 252]),
];

/// The record of a subcarrier: one stream of BPSK, the diagonal 10, the sample, the point (1, 0), the distance 65, and the
/// marks open, cut and open.
static RECORD: [(u16, &[u8]); 3] = [
    (1, &[0, 1, 0, 10, 0, 0, 0, 3, 255, 255, 255, 252, 1, 0]),
    (15, &[0]),
    (1, &[65, 0, 0, 0, 3, 1, 0, 1]),
];

/// The file of certificates: two records.
fn certificates(alloc: Global) -> Result<Vec<u8>, AllocError> {
    let record = octets_of(alloc, &RECORD)?;
    let mut octets = b"HTCT\x01\x00\x00\x00\x00\x00\x00\x00\x02".to_vec(alloc)?;
    push_times(&mut octets, 2, &record)?;
    Ok(octets)
}

#[test]
fn certifies(rt: HostRuntime) -> Result<(), Fail> {
    let mut source = whole(rt.alloc(), octets_of(rt.alloc(), &CAPTURE)?);
    let mut sink = GrowSink::new(rt.alloc());
    let answer = certify_capture(rt.alloc(), &mut source, &mut sink);
    let expected = certificates(rt.alloc())?;
    equal(&rt, (answer, sink.held()), (Ok(()), expected.as_slice()));
    Ok(())
}

//! Fields from sources in pieces that fail or end within one.
use crate::common::{bad, source};
use crate::equal::equal;
use ht_fields::{Field, fill_low, read_field};
use ht_io::{InFault, Kind, Source};
use std::test::Fail;

// Octets 1 to 9 in pieces, with one failure in front of the octet 6.
#[test]
fn smoke(rt: HostRuntime) -> Result<(), Fail> {
    let mut source = source(rt.alloc(), &[1, 2, 3, 4, 5, 6, 7, 8, 9], &[1, 2, 7], &[5])?;
    for expected in [
        (Field::Whole, [1, 2, 3, 4]),
        (Field::Broken, [5, 0, 0, 0]),
        (Field::Whole, [6, 7, 8, 9]),
        (Field::Ended(0), [0, 0, 0, 0]),
    ] {
        let mut into = [0; 4];
        let read = read_field(&mut source, &mut into);
        equal(&rt, (read, into), expected);
    }
    Ok(())
}

// An input that ends within a field, and a field of no octets, which takes none.
#[test]
fn refusals(rt: HostRuntime) -> Result<(), Fail> {
    let mut source = source(rt.alloc(), &[1, 2, 3], &[], &[])?;
    let none = read_field(&mut source, &mut []);
    let mut into = [0; 4];
    let read = read_field(&mut source, &mut into);
    equal(
        &rt,
        (none, read, into),
        (Field::Whole, Field::Ended(3), [1, 2, 3, 0]),
    );
    Ok(())
}

// Octets in pieces, with one failure in front of the sixth, and one above behind the seventh.
#[test]
fn low(rt: HostRuntime) -> Result<(), Fail> {
    let mut source = source(rt.alloc(), &[1, 0, 1, 1, 0, 0, 1, 2, 1], &[2], &[5])?;
    let mut into = [7; 4];
    for (at, answer, octets) in [
        (0, Ok(()), [1, 0, 1, 1]),
        (4, Err(InFault::Read), [0, 0, 1, 1]),
        (5, Err(bad(Kind::BadMark, 7)), [0, 1, 1, 1]),
    ] {
        let filled = fill_low(&mut source, at, 1, Kind::BadMark, &mut into);
        equal(&rt, (at, filled, into), (at, answer, octets));
    }
    equal(&rt, source.at_hand(), [1u8].as_slice());
    Ok(())
}

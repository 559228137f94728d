//! Heads that are read and written.
use crate::equal::equal;
use ht_heads::{head, head_of, magic, start_of};
use ht_io::{FormatFault, InFault, Kind, MemSource};
use std::alloc::{AllocError, Global};
use std::test::Fail;

// A source of these octets that never fails.
fn source(alloc: Global, octets: &[u8]) -> Result<MemSource, AllocError> {
    Ok(MemSource::new(octets.to_vec(alloc)?, Vec::new(alloc), Vec::new(alloc)))
}

fn format<T>(kind: Kind, offset: u64) -> Result<T, InFault> {
    Err(InFault::Format(FormatFault { kind, offset }))
}

// The head of a frame at 40 MHz, MCS 31, with a PSDU of 1500 octets, and each of its octets as another one: what is read
// is written back.
#[test]
fn heads(rt: HostRuntime) -> Result<(), Fail> {
    for (octets, answer) in [
        ([1, 31, 5, 0xdc], Ok([1, 31, 5, 0xdc])),
        ([2, 31, 5, 0xdc], format(Kind::BadBandwidth, 7)),
        ([1, 32, 5, 0xdc], format(Kind::BadMcs, 8)),
        ([1, 31, 0, 0xdc], Ok([1, 31, 0, 0xdc])),
    ] {
        let again = match head(&mut source(rt.alloc(), &octets)?, 7) {
            Ok((rate, length)) => Ok(head_of(&rate, length)),
            Err(fault) => Err(fault),
        };
        equal(&rt, (octets, again), (octets, answer));
    }
    Ok(())
}

// What stands in front of 258 frames, and a magic that is another one.
#[test]
fn starts(rt: HostRuntime) -> Result<(), Fail> {
    let octets = start_of(b"HTTX", 1, 258);
    equal(&rt, octets, [72, 84, 84, 88, 1, 1, 2]);
    let read = magic(&mut source(rt.alloc(), &octets)?, b"HTCP");
    equal(&rt, read, format(Kind::BadMagic, 2));
    Ok(())
}

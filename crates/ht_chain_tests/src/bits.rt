//! Octets of the standard's order, each call with ample memory.
use crate::equal::equal;
use ht_bits::{bits_to_octets, octet_of, octets_to_bits};
use std::test::Fail;

#[test]
fn vectors(rt: HostRuntime) -> Result<(), Fail> {
    // a5 and then 03, the least significant bit of each first.
    let bits = [
        true, false, true, false, false, true, false, true, true, true, false, false, false, false,
        false, false,
    ];
    let octets = [0xa5u8, 0x03];
    let read = octets_to_bits(rt.alloc(), &octets)?;
    equal(&rt, read.as_slice(), bits.as_slice());
    let written = bits_to_octets(rt.alloc(), &bits)?;
    equal(&rt, written.as_slice(), octets.as_slice());
    let single = [
        octet_of(&[]),
        octet_of(&[true, true, false]),
        octet_of(&bits[..8]),
    ];
    equal(&rt, single, [0, 3, 0xa5]);
    Ok(())
}

//! What the tests of several libraries make.
use ht_io::{FormatFault, InFault, Kind, MemSource};
use std::alloc::{AllocError, Global};

/// A source of the octets, which cuts them at some offsets and fails in front of others.
pub(crate) fn source(
    alloc: Global,
    octets: &[u8],
    cuts: &[u64],
    failing: &[u64],
) -> Result<MemSource, AllocError> {
    Ok(MemSource::new(
        octets.to_vec(alloc)?,
        cuts.to_vec(alloc)?,
        failing.to_vec(alloc)?,
    ))
}

/// A source of the octets that never fails.
pub(crate) fn whole(alloc: Global, octets: Vec<u8>) -> MemSource {
    MemSource::new(octets, Vec::new(alloc), Vec::new(alloc))
}

/// Adds a part to octets this number of times.
pub(crate) fn push_times(octets: &mut Vec<u8>, times: u16, part: &[u8]) -> Result<(), AllocError> {
    for _ in 0..times {
        octets.extend_from_slice(part)?;
    }
    Ok(())
}

/// The octets of these parts, each as often as it says.
pub(crate) fn octets_of(alloc: Global, parts: &[(u16, &[u8])]) -> Result<Vec<u8>, AllocError> {
    let mut octets = Vec::new(alloc);
    for &(times, part) in parts {
        push_times(&mut octets, times, part)?;
    }
    Ok(octets)
}

/// A file with this octet at this place, or behind it where it has no such place.
pub(crate) fn spoiled(
    alloc: Global,
    file: &[u8],
    place: usize,
    octet: u8,
) -> Result<Vec<u8>, AllocError> {
    let mut octets = file.to_vec(alloc)?;
    if place < octets.len() {
        octets[place] = octet;
    } else {
        octets.push(octet)?;
    }
    Ok(octets)
}

/// The fault of a file.
pub(crate) fn bad(kind: Kind, offset: u64) -> InFault {
    InFault::Format(FormatFault { kind, offset })
}

//! A checksum over what was found.

use ht_metric::Hit;

/// The checksum with one number more.
pub fn folded(sum: u64, number: u64) -> u64 {
    (sum ^ number).wrapping_mul(0x100_0000_01b3)
}

/// The checksum with the distance and the vector of a hit.
pub fn with_hit(start: u64, hit: &Hit) -> u64 {
    let vector = hit.vector();
    let mut sum = folded(start, (hit.distance() % (1 << 64)) as u64);
    for stream in 1..vector.len() + 1 {
        let point = vector.point(stream);
        sum = folded(sum, u64::from(point.i.cast_unsigned()));
        sum = folded(sum, u64::from(point.q.cast_unsigned()));
    }
    sum
}

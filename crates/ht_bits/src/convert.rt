//! Octets to bits, and back.
ghost use Rattle.std.specs.Prelude.{◌≡◌, ◌%◌, ◌≤◌, length, IfOk};
ghost use Rattle.ht_bits.specs.Bits.{octet_bits, bits_of, number_of, octets_of};

use std::alloc::{AllocError, Global};

/// The number of bits of an octet.
const OCTET: usize = 8;

// The bits of one octet, the least significant first.
fn bits_of_octet(octet: u8) -> [bool; 8]
    ensures { result ≡ octet_bits octet }
{
    let mut bits = [false; 8];
    for (place, bit) in bits.iter_mut().enumerate() {
        *bit = (octet >> place) & 1 == 1;
    }
    bits
}

/// The number that at most eight bits give, the least significant first: bit `i` counts `2^i`.
pub fn octet_of(bits: &[bool]) -> u8
    requires { length bits.now ≤ 8 }
    ensures { result ≡ number_of bits.now }
{
    let mut octet = 0;
    for (place, bit) in bits.iter().enumerate() {
        octet += u8::from(*bit) << place;
    }
    octet
}

/// The bits of octets, eight for each, the least significant first: bit `8 * m + i` of the answer
/// is the bit of value `2^i` of octet `m`.
///
/// The only error is lack of memory.
pub fn octets_to_bits(alloc: Global, octets: &[u8]) -> Result<Vec<bool>, AllocError>
    ensures bits { IfOk result (λ v. v.items ≡ bits_of octets.now) }
{
    let count = octets.len().checked_mul(OCTET).ok_or(AllocError)?;
    let mut bits = Vec::with_capacity(alloc, count)?;
    for octet in octets {
        bits.extend_from_slice(&bits_of_octet(*octet))?;
    }
    Ok(bits)
}

/// The octets that have these bits, eight for each, the least significant first. It undoes
/// [`octets_to_bits`]. The number of bits must be a multiple of 8.
///
/// The only error is lack of memory.
pub fn bits_to_octets(alloc: Global, bits: &[bool]) -> Result<Vec<u8>, AllocError>
    requires { length bits.now % 8 ≡ 0 }
    ensures octets { IfOk result (λ v. v.items ≡ octets_of bits.now) }
{
    let count = bits.len() / OCTET;
    let mut octets = Vec::with_capacity(alloc, count)?;
    for m in 0..count {
        octets.push(octet_of(&bits[OCTET * m..OCTET * (m + 1)]))?;
    }
    Ok(octets)
}

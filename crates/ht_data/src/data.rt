//! From octets to the bits that the encoders take.
ghost use Rattle.std.specs.Prelude.{◌≡◌, ◌+◌, ◌*◌, ◌≤◌, IfOk, length};
ghost use Rattle.ht_scramble.specs.Sequence.{scrambled};
ghost use Rattle.ht_data.specs.Data.{data_of, scrambled_data_of, zeroed};

use ht_bits::octets_to_bits;
use ht_scramble::{Seed, scramble};
use std::alloc::{AllocError, Global};

/// The bits of SERVICE, all zeros.
static SERVICE: [bool; 16] = [false; 16];

// SERVICE, the bits of the octets and a number of zeros.
fn data_bits(alloc: Global, octets: &[u8], zeros: usize) -> Result<Vec<bool>, AllocError>
    requires octets { length octets.now ≤ 65535 }
    requires zeros { zeros ≤ 65535 }
    ensures { IfOk result (λ bits. bits.items ≡ data_of octets.now zeros) }
{
    let psdu = octets_to_bits(alloc, octets)?;
    let mut bits = Vec::with_capacity(alloc, SERVICE.len() + psdu.len() + zeros)?;
    bits.extend_from_slice(&SERVICE)?;
    bits.extend_from_slice(psdu.as_slice())?;
    bits.resize(bits.len() + zeros, false)?;
    Ok(bits)
}

// Scrambles bits, and sets those of the tail to zero again, which stand from a place on.
fn scramble_data(bits: &mut [bool], seed: Seed, from: usize, tail: usize)
    requires { from + tail ≤ length bits.old }
    ensures { bits.new ≡ zeroed from tail (scrambled seed bits.old) }
{
    scramble(bits, seed);
    bits[from..from + tail].fill(false);
}

/// The bits that the encoders of a frame take together: SERVICE, the octets with the least significant bit first, these
/// numbers of tail bits and pads, scrambled, with the places of the tail zero again.
///
/// There are at most 65535 octets, and at most 65535 bits of tail and pads together. The only refusal is lack of memory.
///
/// IEEE Std 802.11-2012, clauses 18.3.5.2 to 18.3.5.5 and 20.3.11.2 to 20.3.11.4.
pub fn scrambled_data(
    alloc: Global,
    octets: &[u8],
    seed: Seed,
    tail: usize,
    pads: usize,
) -> Result<Vec<bool>, AllocError>
    requires octets { length octets.now ≤ 65535 }
    requires zeros { tail + pads ≤ 65535 }
    ensures { IfOk result (λ bits. bits.items ≡ scrambled_data_of seed octets.now tail pads) }
{
    let mut bits = data_bits(alloc, octets, tail + pads)?;
    scramble_data(
        bits.as_mut_slice(),
        seed,
        SERVICE.len() + 8 * octets.len(),
        tail,
    );
    Ok(bits)
}

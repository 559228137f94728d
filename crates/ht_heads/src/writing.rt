//! What stands in front of frames, as octets.
ghost use Rattle.std.specs.Prelude.{◌≡◌};
ghost use Rattle.ht_rate.specs.Schemes.{bandwidth_code};
ghost use Rattle.ht_heads.specs.Heads.{head_octets, start_octets};

use ht_rate::{Bandwidth, Rate};

// The code of a bandwidth.
fn code(bandwidth: Bandwidth) -> u8
    ensures { result ≡ bandwidth_code bandwidth }
{
    match bandwidth {
        Bandwidth::Mhz20 => 0,
        Bandwidth::Mhz40 => 1,
    }
}

/// The head of a frame at this rate with a PSDU of this number of octets: the bandwidth (0 is 20 MHz, 1 is 40 MHz), the MCS
/// index and the length, big-endian.
pub fn head_of(rate: &Rate, length: u16) -> [u8; 4]
    ensures { result ≡ head_octets rate.now length }
{
    let number = length.to_be_bytes();
    [code(rate.bandwidth()), rate.mcs(), number[0], number[1]]
}

/// What stands in front of this number of frames: the magic, the version and the number, big-endian.
#[tactic(auto, unfolding(crate::specs::Heads::start_octets))]
pub fn start_of(magic: &[u8; 4], version: u8, count: u16) -> [u8; 7]
    ensures { result ≡ start_octets magic.now version count }
{
    let number = count.to_be_bytes();
    [
        magic[0], magic[1], magic[2], magic[3], version, number[0], number[1],
    ]
}

//! Captures as they are written.
ghost use Rattle.std.specs.Prelude.{◌≡◌, ◌≤◌, ◌+◌, ◌*◌, ◌++◌, length};
ghost use Rattle.ht_legacy_files.specs.CaptureFiles.{head_octets};

use ht_clause18::LegacyRate;
use ht_fields::Chunk;

/// Adds what stands in front of the samples of a frame: its rate, the number of octets of its PSDU, and the diagonals.
pub fn add_head(chunk: &mut Chunk, rate: LegacyRate, octets: u16, diagonals: &[u16])
    requires room { length chunk.old + 3 + 2 * length diagonals.now ≤ 4096 }
    ensures { chunk.new ≡ chunk.old ++ head_octets (record { rate = rate; length = octets; diagonals = diagonals.now }) }
{
    chunk.add(&[rate.index()]);
    chunk.add(&octets.to_be_bytes());
    for diagonal in diagonals {
        chunk.add(&diagonal.to_be_bytes());
    }
}

//! Octets that are put at once, as a writer of a format gathers them.
ghost use Rattle.std.specs.Prelude.{◌≡◌, ◌≤◌, ◌+◌, [], ◌++◌, length};

use std::marker::Model;

/// The most octets of a chunk. The head of a frame of a capture with its flags and triangles has up to 3,766, the samples of a
/// symbol up to 3,648.
const ROOM: usize = 4096;

/// At most 4,096 octets, one behind another.
#[derive(Debug, Drop)]
pub struct Chunk {
    octets: [u8; ROOM],
    count: usize,
}

impl Model for Chunk {
    ghost use Rattle.std.specs.Prelude.{◌≡◌, ◌≤◌, ℕ, List, length, take};

    ghost Value = { List ℕ };

    ghost view = { λ c. take c.count c.octets };

    ghost invariant = { λ c. (c.count ≤ 4096) × (length c.octets ≡ 4096) };
}

impl Chunk {
    /// No octets.
    pub fn new() -> Self
        ensures { result ≡ [] }
    {
        Chunk {
            octets: [0; ROOM],
            count: 0,
        }
    }

    /// Drops all octets.
    pub fn clear(&mut self)
        ensures { self.new ≡ [] }
    {
        self.count = 0;
    }

    /// Adds octets at the end; the caller sees to it that no more than 4,096 come together. It takes no memory.
    pub fn add(&mut self, piece: &[u8])
        requires { length self.old + length piece.now ≤ 4096 }
        ensures { self.new ≡ self.old ++ piece.now }
    {
        let end = self.count + piece.len();
        self.octets[self.count..end].copy_from_slice(piece);
        self.count = end;
    }

    /// The octets in order.
    pub fn as_slice(&self) -> &[u8]
        ensures { result.now ≡ self.now }
    {
        &self.octets[..self.count]
    }
}

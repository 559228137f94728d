//! Files of symbols as they are written.
ghost use Rattle.std.specs.Prelude.{◌≡◌, ◌≤◌, length};
ghost use Rattle.ht_io.specs.Devices.{Puts};
ghost use Rattle.ht_files.specs.Points.{point_octets};
ghost use Rattle.ht_files.specs.SymbolFiles.{symbols_file_of, symbols_octets};

use ht_counted::{Packer, Putter, put_packed, write_whole};
use ht_fields::Chunk;
use ht_heads::head_of;
use ht_io::{Failed, Sink};
use ht_pam::Point;
use ht_tx::Symbols;

// The octets of a point.
fn octets_of_point(point: &Point) -> [u8; 2]
    ensures { result ≡ point_octets point.now }
{
    let i = point.i.to_be_bytes();
    let q = point.q.to_be_bytes();
    [i[0], q[0]]
}

// Points, packed one by one.
struct Points;

impl Packer for Points {
    type Item = Point;

    ghost octets = { point_octets };

    fn size(_point: &Point) -> usize {
        2
    }

    fn add(point: &Point, chunk: &mut Chunk) {
        chunk.add(&octets_of_point(point));
    }
}

// Puts the symbols of a frame.
#[tactic(auto, unfolding(crate::specs::SymbolFiles::symbols_octets))]
fn put_symbols<K: Sink>(frame: &Symbols, chunk: &mut Chunk, sink: &mut K) -> Result<(), Failed>
    ensures { Puts (K.shown sink.old) (K.shown sink.new) (symbols_octets frame.now) result }
{
    chunk.clear();
    chunk.add(&head_of(&frame.rate(), frame.length()));
    put_packed::<Points, K>(frame.points(), chunk, sink)
}

// The symbols of frames, put frame by frame by way of a chunk.
#[derive(Drop)]
struct SymbolFrames {
    chunk: Chunk,
}

impl Putter for SymbolFrames {
    type Entry = Symbols;

    ghost octets = { symbols_octets };

    fn put<K: Sink>(&mut self, frame: &Symbols, sink: &mut K) -> Result<(), Failed> {
        put_symbols(frame, &mut self.chunk, sink)
    }
}

/// Puts the file of the symbols of these frames (HTSY). It takes no memory.
///
/// Where the sink fails, a part of the file from its front was put.
#[tactic(auto, unfolding(crate::specs::SymbolFiles::symbols_file_of))]
pub fn write_symbols<K: Sink>(frames: &[Symbols], sink: &mut K) -> Result<(), Failed>
    requires few { length frames.now ≤ 65535 }
    ensures { Puts (K.shown sink.old) (K.shown sink.new) (symbols_file_of frames.now) result }
{
    let mut putter = SymbolFrames {
        chunk: Chunk::new(),
    };
    write_whole(b"HTSY", frames, &mut putter, sink)
}

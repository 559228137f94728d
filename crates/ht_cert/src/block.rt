//! Records that are put together.
ghost use Rattle.std.specs.Prelude.{◌≡◌, ◌≤◌, ◌++◌, [], length, map, OnOk};
ghost use Rattle.ht_io.specs.Devices.{Puts};
ghost use Rattle.ht_cert.specs.Files.{mark_octet, record_octets, records_start};

use crate::record::Record;
use crate::writing::{add_marks, front, start};
use ht_fields::Chunk;
use ht_io::{Failed, Sink};
use std::alloc::{AllocError, Global};
use std::marker::Model;

/// From how many octets on a block is full.
const FULL: usize = 32768;

/// The number of marks that are added with what stands in front of them: so few are written sooner one by one.
const FIRST_MARKS: usize = 4;

// Writes marks into as many octets.
fn write_marks(marks: &[bool], into: &mut [u8])
    requires { length into.old ≡ length marks.now }
    ensures { into.new ≡ map mark_octet marks.now }
{
    for k in 0..marks.len() {
        into[k] = u8::from(marks[k]);
    }
}

// Appends marks.
fn append_marks(octets: &mut Vec<u8>, marks: &[bool]) -> Result<(), AllocError>
    ensures added { OnOk result (octets.new.items ≡ octets.old.items ++ map mark_octet marks.now) }
{
    let at = octets.len();
    octets.resize(at + marks.len(), 0)?;
    write_marks(marks, &mut octets[at..]);
    Ok(())
}

/// The octets of records that wait to be put, so that many records are put at once. A contract sees these octets.
#[derive(Debug, Drop)]
pub struct Block {
    // Where the front of a record is made.
    chunk: Chunk,
    octets: Vec<u8>,
}

impl Model for Block {
    ghost use Rattle.std.specs.Prelude.{ℕ, List};

    ghost Value = { List ℕ };

    ghost view = { λ b. b.octets.items };
}

impl Block {
    /// A block of no octets. It takes no memory.
    pub fn new(alloc: Global) -> Block
        ensures { result ≡ [] }
    {
        Block {
            chunk: Chunk::new(),
            octets: Vec::new(alloc),
        }
    }

    /// Adds what stands in front of this number of records. The only refusal is lack of memory.
    pub fn add_start(&mut self, count: u64) -> Result<(), AllocError>
        ensures added { OnOk result (self.new ≡ self.old ++ records_start count) }
    {
        self.octets.extend_from_slice(&start(count))
    }

    /// Adds a record, which has at most 2^25 marks. The only refusal is lack of memory: then a part of the record may
    /// have been added.
    #[tactic(auto, unfolding(crate::specs::Files::record_octets))]
    pub fn add(&mut self, recorded: &Record) -> Result<(), AllocError>
        requires marks { length recorded.now.certificate.marks ≤ 33554432 }
        ensures added { OnOk result (self.new ≡ self.old ++ record_octets recorded.now) }
    {
        let marks = recorded.certificate.marks.as_slice();
        let (first, rest) = marks.split_at(marks.len().min(FIRST_MARKS));
        front(&mut self.chunk, recorded);
        add_marks(&mut self.chunk, first);
        self.octets.extend_from_slice(self.chunk.as_slice())?;
        append_marks(&mut self.octets, rest)
    }

    /// Whether enough octets wait to be put, at least 32,768. No clause says so.
    pub fn is_full(&self) -> bool {
        self.octets.len() >= FULL
    }

    /// Puts what waits, and keeps the memory.
    ///
    /// Where the sink fails, a part of it from its front was put.
    pub fn put<K: Sink>(&mut self, sink: &mut K) -> Result<(), Failed>
        ensures puts { Puts (K.shown sink.old) (K.shown sink.new) self.old result }
        ensures none { OnOk result (self.new ≡ []) }
    {
        sink.put(&self.octets)?;
        self.octets.clear();
        Ok(())
    }
}

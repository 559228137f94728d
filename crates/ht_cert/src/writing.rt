//! Files of certificates as they are written.
ghost use Rattle.std.specs.Prelude.{◌≡◌, ◌≤◌, ◌<◌, ◌+◌, ◌*◌, ◌-◌, [], ◌∷◌, ◌++◌, length, map, flat_map, slice_index_or};
ghost use Rattle.byteorder.specs.Endian.{big_bytes};
ghost use Rattle.ht_io.specs.Devices.{Puts};
ghost use Rattle.ht_metric.specs.Arrays.{legs, samples};
ghost use Rattle.ht_metric.specs.Rows.{no_row};
ghost use Rattle.ht_capture.specs.Files.{leg_octets, legs_octets, sample_octets};
ghost use Rattle.ht_cert.specs.Records.{code_of};
ghost use Rattle.ht_cert.specs.Files.{front_octets, leg_of, mark_octet, point_octets, record_octets, records_start};

use crate::record::Record;
use ht_capture::numbers;
use ht_counted::{Packer, put_packed};
use ht_fields::Chunk;
use ht_io::{Failed, Sink};
use ht_metric::{System, Vector};
use ht_rate::Modulation;

// The code of a modulation.
fn code(modulation: Modulation) -> u8
    ensures { result ≡ code_of modulation }
{
    match modulation {
        Modulation::Bpsk => 0,
        Modulation::Qpsk => 1,
        Modulation::Qam16 => 2,
        Modulation::Qam64 => 3,
    }
}

// Adds the diagonal of a row and the entries to its right.
fn add_row(chunk: &mut Chunk, system: &System, row: u8)
    requires row { row < length system.now }
    requires room { length chunk.old + 14 ≤ 4096 }
    ensures put { chunk.new ≡ chunk.old ++ leg_octets (length system.now - row - 1) (leg_of (slice_index_or system.now row no_row)) }
    ensures size { length chunk.new ≤ length chunk.old + 14 }
{
    let below = system.streams() - row - 1;
    chunk.add(&system.diagonal(row + 1).to_be_bytes());
    for entry in 0..below {
        numbers::add_tap(chunk, system.above(row + 1, row + 2 + entry));
    }
}

// Adds the triangle of a system.
fn add_triangle(chunk: &mut Chunk, system: &System)
    requires room { length chunk.old ≤ 4000 }
    ensures put { chunk.new ≡ chunk.old ++ legs_octets (legs system.now) }
    ensures size { length chunk.new ≤ length chunk.old + 56 }
{
    for row in 0..system.streams() {
        add_row(chunk, system, row);
    }
}

// Adds what was received.
fn add_samples(chunk: &mut Chunk, system: &System)
    requires room { length chunk.old ≤ 4000 }
    ensures put { chunk.new ≡ chunk.old ++ flat_map sample_octets (samples system.now) }
    ensures size { length chunk.new ≤ length chunk.old + 32 }
{
    for row in 0..system.streams() {
        numbers::add_sample(chunk, system.sample(row + 1));
    }
}

// Adds the claimed points.
fn add_points(chunk: &mut Chunk, vector: &Vector)
    requires room { length chunk.old ≤ 4000 }
    ensures put { chunk.new ≡ chunk.old ++ flat_map point_octets vector.now }
    ensures size { length chunk.new ≤ length chunk.old + 8 }
{
    for stream in 0..vector.len() {
        let point = vector.point(stream + 1);
        chunk.add(&point.i.to_be_bytes());
        chunk.add(&point.q.to_be_bytes());
    }
}

// Adds a distance. Nearly every one fits in the lower eight of its octets.
fn add_distance(chunk: &mut Chunk, distance: u128)
    requires { length chunk.old + 16 ≤ 4096 }
    ensures put { chunk.new ≡ chunk.old ++ big_bytes 16 distance }
    ensures size { length chunk.new ≡ length chunk.old + 16 }
{
    match u64::try_from(distance) {
        Ok(low) => {
            chunk.add(&[0; 8]);
            chunk.add(&low.to_be_bytes());
        }
        Err(_) => chunk.add(&distance.to_be_bytes()),
    }
}

// Fills the chunk with what stands in front of the marks of a record.
pub(crate) fn front(chunk: &mut Chunk, recorded: &Record)
    requires { length recorded.now.certificate.marks ≤ 33554432 }
    ensures put { chunk.new ≡ front_octets recorded.now }
    ensures size { length chunk.new ≤ 118 }
{
    let system = recorded.job.system();
    let marks = recorded.certificate.marks.as_slice().len() as u32;
    chunk.clear();
    chunk.add(&[code(recorded.modulation), system.streams()]);
    add_triangle(chunk, system);
    add_samples(chunk, system);
    add_points(chunk, &recorded.certificate.vector);
    add_distance(chunk, recorded.certificate.distance);
    chunk.add(&marks.to_be_bytes());
}

// Adds marks.
pub(crate) fn add_marks(chunk: &mut Chunk, marks: &[bool])
    requires few { length chunk.old + length marks.now ≤ 4096 }
    ensures { chunk.new ≡ chunk.old ++ map mark_octet marks.now }
{
    for mark in marks {
        chunk.add(&[u8::from(*mark)]);
    }
}

// Marks, packed one by one.
struct Marks;

impl Packer for Marks {
    type Item = bool;

    ghost octets = { λ mark. mark_octet mark ∷ [] };

    fn size(_mark: &bool) -> usize {
        1
    }

    fn add(mark: &bool, chunk: &mut Chunk) {
        chunk.add(&[u8::from(*mark)]);
    }
}

// What stands in front of this number of records.
#[tactic(auto, unfolding(ht_heads::specs::Starts::started_octets))]
pub(crate) fn start(count: u64) -> [u8; 13]
    ensures { result ≡ records_start count }
{
    let n = count.to_be_bytes();
    [
        b'H', b'T', b'C', b'T', 1, n[0], n[1], n[2], n[3], n[4], n[5], n[6], n[7],
    ]
}

/// Puts what stands in front of this number of records.
///
/// Where the sink fails, a part of it from its front was put.
pub fn write_start<K: Sink>(count: u64, sink: &mut K) -> Result<(), Failed>
    ensures { Puts (K.shown sink.old) (K.shown sink.new) (records_start count) result }
{
    sink.put(&start(count))
}

/// Puts a record, which has at most 2^25 marks. It takes no memory.
///
/// Where the sink fails, a part of the record from its front was put.
#[tactic(auto, unfolding(crate::specs::Files::record_octets))]
pub fn write_record<K: Sink>(recorded: &Record, sink: &mut K) -> Result<(), Failed>
    requires marks { length recorded.now.certificate.marks ≤ 33554432 }
    ensures { Puts (K.shown sink.old) (K.shown sink.new) (record_octets recorded.now) result }
{
    let mut chunk = Chunk::new();
    front(&mut chunk, recorded);
    let marks = recorded.certificate.marks.as_slice();
    put_packed::<Marks, K>(marks, &mut chunk, sink)
}

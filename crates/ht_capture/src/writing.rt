//! Captures as they are written.
ghost use Rattle.std.specs.Prelude.{◌≡◌, ◌≤◌, ◌<◌, ◌+◌, ◌*◌, ◌-◌, ◌++◌, ◌==◌, false, All, length, flat_map, slice_index_or};
ghost use Rattle.ht_io.specs.Devices.{Puts};
ghost use Rattle.ht_rate.specs.Rates.{carriers_of};
ghost use Rattle.ht_metric.specs.Rows.{no_leg};
ghost use Rattle.ht_capture.specs.Files.{AreCaptureFrames, FitsFrame, HasAllCarriers, triangles_behind};
ghost use Rattle.ht_capture.specs.Files.{capture_file_of, flagged, flagged_octets, capture_frame_octets};
ghost use Rattle.ht_capture.specs.Files.{front_octets, is_erased as erased_at, leg_octets, legs_octets, present_of, sample_octets, capture_start};

use crate::frames::CaptureFrame;
use crate::numbers;
use ht_fields::Chunk;
use ht_heads::{head_of, start_of};
use ht_io::{Failed, Sink};
use ht_metric::{Sample, Triangle};

/// The number of samples that are put at once: the most of a symbol.
const SAMPLES: usize = 456;

// Adds a row of a triangle.
fn add_row(chunk: &mut Chunk, triangle: &Triangle, row: u8)
    requires row { row < length triangle.now }
    requires room { length chunk.old + (2 + 4 * (length triangle.now - row - 1)) ≤ 4096 }
    ensures { chunk.new ≡ chunk.old ++ leg_octets (length triangle.now - row - 1) (slice_index_or triangle.now row no_leg) }
{
    let below = triangle.streams() - row - 1;
    chunk.add(&triangle.diagonal(row + 1).to_be_bytes());
    for entry in 0..below {
        numbers::add_tap(chunk, triangle.above(row + 1, row + 2 + entry));
    }
}

// Adds a triangle.
fn add_triangle(chunk: &mut Chunk, triangle: &Triangle)
    requires room { length chunk.old + 32 ≤ 4096 }
    ensures put { chunk.new ≡ chunk.old ++ legs_octets triangle.now }
    ensures size { length chunk.new ≤ length chunk.old + 32 }
{
    for row in 0..triangle.streams() {
        add_row(chunk, triangle, row);
    }
}

// Adds the triangles of a frame of version 1.
fn add_triangles(chunk: &mut Chunk, triangles: &[Triangle])
    requires few { length triangles.now ≤ 114 }
    requires room { length chunk.old ≤ 4 }
    ensures { chunk.new ≡ chunk.old ++ flat_map legs_octets triangles.now }
{
    for triangle in triangles {
        add_triangle(chunk, triangle);
    }
}

// Whether a subcarrier is erased.
fn is_erased(erased: u128, carrier: u8) -> bool
    requires { carrier < 128 }
    ensures { result ≡ erased_at erased carrier }
{
    erased >> carrier & 1 == 1
}

// Adds a subcarrier of version 2, and gives the triangles of those behind it.
fn add_flagged<'a>(chunk: &mut Chunk, erased: bool, triangles: &'a [Triangle]) -> &'a [Triangle]
    requires room { length chunk.old + 33 ≤ 4096 }
    requires some { erased ≡ false → 0 < length triangles.now }
    ensures put { chunk.new ≡ chunk.old ++ flagged erased triangles.now }
    ensures behind { result.now ≡ triangles_behind erased triangles.now }
    ensures size { length chunk.new ≤ length chunk.old + 33 }
{
    chunk.add(&[u8::from(erased)]);
    if erased {
        return triangles;
    }
    add_triangle(chunk, &triangles[0]);
    &triangles[1..]
}

// Adds the subcarriers of a frame of version 2.
fn add_carriers(chunk: &mut Chunk, frame: &CaptureFrame)
    requires triangles { length frame.now.triangles ≡ present_of frame.now }
    requires room { length chunk.old ≤ 4 }
    ensures { chunk.new ≡ chunk.old ++ flagged_octets (carriers_of frame.now.rate) 0 frame.now.erased frame.now.triangles }
{
    let mut triangles = frame.triangles.as_slice();
    for carrier in 0..frame.rate.carriers() {
        triangles = add_flagged(chunk, is_erased(frame.erased, carrier), triangles);
    }
}

// Fills the chunk with what stands in front of the samples of a frame.
#[tactic(auto, unfolding(crate::specs::Files::front_octets, crate::specs::Files::carriers_octets))]
fn front(chunk: &mut Chunk, version: u8, frame: &CaptureFrame)
    requires fits { FitsFrame frame.now }
    ensures { chunk.new ≡ front_octets version frame.now }
{
    chunk.clear();
    chunk.add(&head_of(&frame.rate, frame.length));
    if version == 2 {
        add_carriers(chunk, frame);
    } else {
        add_triangles(chunk, frame.triangles.as_slice());
    }
}

// Fills the chunk with samples.
fn fill(chunk: &mut Chunk, samples: &[Sample])
    requires few { length samples.now ≤ 456 }
    ensures { chunk.new ≡ flat_map sample_octets samples.now }
{
    chunk.clear();
    for sample in samples {
        numbers::add_sample(chunk, *sample);
    }
}

// Puts samples, as many at once as a symbol may have.
fn put_samples<K: Sink>(samples: &[Sample], chunk: &mut Chunk, sink: &mut K) -> Result<(), Failed>
    ensures { Puts (K.shown sink.old) (K.shown sink.new) (flat_map sample_octets samples.now) result }
{
    let mut rest = samples;
    while !rest.is_empty() {
        let (now, later) = rest.split_at(rest.len().min(SAMPLES));
        fill(chunk, now);
        sink.put(chunk.as_slice())?;
        rest = later;
    }
    Ok(())
}

// Puts a frame.
#[tactic(auto, unfolding(crate::specs::Files::capture_frame_octets))]
fn put_frame<K: Sink>(
    version: u8,
    frame: &CaptureFrame,
    chunk: &mut Chunk,
    sink: &mut K,
) -> Result<(), Failed>
    requires fits { FitsFrame frame.now }
    ensures { Puts (K.shown sink.old) (K.shown sink.new) (capture_frame_octets version frame.now) result }
{
    front(chunk, version, frame);
    sink.put(chunk.as_slice())?;
    put_samples(frame.samples.as_slice(), chunk, sink)
}

// Fills the chunk with what stands in front of the frames.
fn start(chunk: &mut Chunk, version: u8, count: u16)
    ensures { chunk.new ≡ capture_start version count }
{
    chunk.clear();
    chunk.add(&start_of(b"HTCP", version, count));
}

// Puts the file of frames in a version.
#[tactic(auto, unfolding(crate::specs::Files::capture_file_of))]
fn put_file<K: Sink>(version: u8, frames: &[CaptureFrame], sink: &mut K) -> Result<(), Failed>
    requires frames { AreCaptureFrames frames.now }
    ensures { Puts (K.shown sink.old) (K.shown sink.new) (capture_file_of version frames.now) result }
{
    let mut chunk = Chunk::new();
    start(&mut chunk, version, frames.len() as u16);
    sink.put(chunk.as_slice())?;
    for frame in frames {
        put_frame(version, frame, &mut chunk, sink)?;
    }
    Ok(())
}

/// Puts the capture of at most 65535 frames, in version 1, which has no erased subcarriers. Each frame has the
/// triangles and samples that its rate and its length ask for. It takes no memory.
///
/// Where the sink fails, a part of the file from its front has been put.
pub fn write_captures<K: Sink>(frames: &[CaptureFrame], sink: &mut K) -> Result<(), Failed>
    // At most 65535 frames, each with what its rate, its length and its present subcarriers ask for, and none erased.
    requires frames { AreCaptureFrames frames.now }
    requires whole { All HasAllCarriers frames.now }

    ensures { Puts (K.shown sink.old) (K.shown sink.new) (capture_file_of 1 frames.now) result }
{
    put_file(1, frames, sink)
}

/// Puts the capture of at most 65535 frames, in version 2, which has a flag for each subcarrier. Each frame has a
/// subcarrier that is present, and the triangles and samples that its rate, its length and its present subcarriers ask
/// for. It takes no memory.
///
/// Where the sink fails, a part of the file from its front has been put.
pub fn write_captures_2<K: Sink>(frames: &[CaptureFrame], sink: &mut K) -> Result<(), Failed>
    // At most 65535 frames, each with what its rate, its length and its present subcarriers ask for.
    requires frames { AreCaptureFrames frames.now }

    ensures { Puts (K.shown sink.old) (K.shown sink.new) (capture_file_of 2 frames.now) result }
{
    put_file(2, frames, sink)
}

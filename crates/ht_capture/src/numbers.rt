//! Triangles and samples from their octets, and as octets, big-endian.
ghost use Rattle.std.specs.Prelude.{◌≡◌, ◌+◌, ◌*◌, ◌≤◌, ◌-◌, ◌++◌, length, replicate};
ghost use Rattle.ht_metric.specs.Rows.{no_sample};
ghost use Rattle.ht_capture.specs.Files.{sample_octets, tap_octets};
ghost use Rattle.ht_capture.specs.Numbers.{sample_at, tap_at, unsigned_at};
ghost use Rattle.ht_capture.specs.Systems.{samples_at, triangle_octets, triangle_of};

use byteorder::{BigEndian, ByteOrder};
use ht_fields::Chunk;
use ht_metric::{Sample, Tap, Triangle};

/// The entry in the unused places of a triangle.
const NO_TAP: Tap = Tap { re: 0, im: 0 };

/// The sample in the unused places of a system.
const NO_SAMPLE: Sample = Sample { re: 0, im: 0 };

// The diagonal at a place.
fn diagonal(octets: &[u8], at: usize) -> u16
    requires { at + 2 ≤ length octets.now }
    ensures { result ≡ unsigned_at octets.now at }
{
    BigEndian::read_u16(&octets[at..])
}

// The entry at a place.
#[tactic(auto, unfolding(crate::specs::Numbers::tap_at))]
fn tap(octets: &[u8], at: usize) -> Tap
    requires { at + 4 ≤ length octets.now }
    ensures { result ≡ tap_at octets.now at }
{
    Tap {
        re: BigEndian::read_i16(&octets[at..]),
        im: BigEndian::read_i16(&octets[at + 2..]),
    }
}

/// The sample at a place.
#[tactic(auto, unfolding(crate::specs::Numbers::sample_at))]
pub fn sample(octets: &[u8], at: usize) -> Sample
    requires { at + 8 ≤ length octets.now }
    ensures { result ≡ sample_at octets.now at }
{
    Sample {
        re: BigEndian::read_i32(&octets[at..]),
        im: BigEndian::read_i32(&octets[at + 4..]),
    }
}

/// The number of octets of a triangle of one to four streams: 2, 8, 18 or 32.
pub fn triangle_width(streams: u8) -> usize
    requires some { 1 ≤ streams }
    requires few { streams ≤ 4 }
    ensures value { result ≡ triangle_octets streams }
    ensures low { 2 ≤ result }
    ensures high { result ≤ 32 }
{
    match streams {
        1 => 2,
        2 => 8,
        3 => 18,
        _ => 32,
    }
}

/// The triangle of one to four streams.
#[tactic(auto, unfolding(crate::specs::Systems::triangle_of))]
pub fn triangle(streams: u8, octets: &[u8]) -> Triangle
    requires some { 1 ≤ streams }
    requires few { streams ≤ 4 }
    requires whole { triangle_octets streams ≤ length octets.now }
    ensures { result ≡ triangle_of streams octets.now }
{
    match streams {
        1 => Triangle::new(1, [diagonal(octets, 0), 0, 0, 0], [NO_TAP; 6]),
        2 => two_rows(octets),
        3 => three_rows(octets),
        _ => four_rows(octets),
    }
}

// The triangle of two streams.
#[tactic(auto, unfolding(crate::specs::Systems::triangle_of))]
fn two_rows(octets: &[u8]) -> Triangle
    requires { 8 ≤ length octets.now }
    ensures { result ≡ triangle_of 2 octets.now }
{
    let above = [tap(octets, 2), NO_TAP, NO_TAP, NO_TAP, NO_TAP, NO_TAP];
    Triangle::new(2, [diagonal(octets, 0), diagonal(octets, 6), 0, 0], above)
}

// The triangle of three streams.
#[tactic(auto, unfolding(crate::specs::Systems::triangle_of))]
fn three_rows(octets: &[u8]) -> Triangle
    requires { 18 ≤ length octets.now }
    ensures { result ≡ triangle_of 3 octets.now }
{
    let above = [
        tap(octets, 2),
        tap(octets, 6),
        tap(octets, 12),
        NO_TAP,
        NO_TAP,
        NO_TAP,
    ];
    Triangle::new(
        3,
        [
            diagonal(octets, 0),
            diagonal(octets, 10),
            diagonal(octets, 16),
            0,
        ],
        above,
    )
}

// The triangle of four streams.
#[tactic(auto, unfolding(crate::specs::Systems::triangle_of))]
fn four_rows(octets: &[u8]) -> Triangle
    requires { 32 ≤ length octets.now }
    ensures { result ≡ triangle_of 4 octets.now }
{
    let above = [
        tap(octets, 2),
        tap(octets, 6),
        tap(octets, 10),
        tap(octets, 16),
        tap(octets, 20),
        tap(octets, 26),
    ];
    Triangle::new(
        4,
        [
            diagonal(octets, 0),
            diagonal(octets, 14),
            diagonal(octets, 24),
            diagonal(octets, 30),
        ],
        above,
    )
}

/// The samples of one to four rows from a place on, in an array whose other places are zero.
pub fn samples(streams: u8, octets: &[u8], at: usize) -> [Sample; 4]
    requires few { streams ≤ 4 }
    requires whole { at + 8 * streams ≤ length octets.now }
    ensures { result ≡ samples_at streams octets.now at ++ replicate (4 - streams) no_sample }
{
    match streams {
        0 => [NO_SAMPLE; 4],
        1 => [sample(octets, at), NO_SAMPLE, NO_SAMPLE, NO_SAMPLE],
        2 => [
            sample(octets, at),
            sample(octets, at + 8),
            NO_SAMPLE,
            NO_SAMPLE,
        ],
        3 => [
            sample(octets, at),
            sample(octets, at + 8),
            sample(octets, at + 16),
            NO_SAMPLE,
        ],
        _ => [
            sample(octets, at),
            sample(octets, at + 8),
            sample(octets, at + 16),
            sample(octets, at + 24),
        ],
    }
}

/// Adds the octets of an entry of a triangle.
pub fn add_tap(chunk: &mut Chunk, tap: Tap)
    requires { length chunk.old + 4 ≤ 4096 }
    ensures { chunk.new ≡ chunk.old ++ tap_octets tap }
{
    chunk.add(&tap.re.to_be_bytes());
    chunk.add(&tap.im.to_be_bytes());
}

/// Adds the octets of a sample: the real part, and then the imaginary part.
pub fn add_sample(chunk: &mut Chunk, sample: Sample)
    requires { length chunk.old + 8 ≤ 4096 }
    ensures { chunk.new ≡ chunk.old ++ sample_octets sample }
{
    chunk.add(&sample.re.to_be_bytes());
    chunk.add(&sample.im.to_be_bytes());
}

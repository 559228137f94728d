//! The parts of a record from their octets.
ghost use Rattle.std.specs.Prelude.{◌≡◌, ◌+◌, ◌*◌, ◌≤◌, length};
ghost use Rattle.ht_cert.specs.Records.{claim_width as claim_width_of, claimed, code_of, full_grid, modulation_at, point_at, points_at};
ghost use Rattle.ht_cert.specs.Schemes.{scheme_of};

use crate::record::Record;
use byteorder::{BigEndian, ByteOrder};
use ht_capture::numbers;
use ht_map::grid;
use ht_metric::{Job, Place, System, Vector};
use ht_pam::{Grid, Point};
use ht_rate::{Modulation, Rate};

/// The modulation of a code, 0 to 3.
pub fn modulation_of(code: u8) -> Modulation
    requires { code ≤ 3 }
    ensures value { result ≡ modulation_at code }
    ensures back { code_of result ≡ code }
{
    match code {
        0 => Modulation::Bpsk,
        1 => Modulation::Qpsk,
        2 => Modulation::Qam16,
        _ => Modulation::Qam64,
    }
}

// The MCS of one stream with a modulation and the lowest coding rate that it has.
fn scheme(modulation: Modulation) -> u8
    ensures value { result ≡ scheme_of modulation }
    ensures few { result ≤ 5 }
{
    match modulation {
        Modulation::Bpsk => 0,
        Modulation::Qpsk => 1,
        Modulation::Qam16 => 3,
        Modulation::Qam64 => 5,
    }
}

// The full constellation on one to four streams: the grid of a rate that has them.
#[tactic(auto, using(crate::proofs::Grids::grid_is))]
fn constellation(modulation: Modulation, streams: u8) -> Grid
    requires some { 1 ≤ streams }
    requires few { streams ≤ 4 }
    ensures { result ≡ full_grid modulation streams }
{
    match Rate::of(0, 8 * (streams - 1) + scheme(modulation)) {
        Ok(rate) => grid(&rate),
        Err(_) => unreachable!(),
    }
}

// The point at a place.
#[tactic(auto, unfolding(crate::specs::Records::point_at))]
fn point(octets: &[u8], at: usize) -> Point
    requires { at + 2 ≤ length octets.now }
    ensures { result ≡ point_at octets.now at }
{
    Point {
        i: octets[at].cast_signed(),
        q: octets[at + 1].cast_signed(),
    }
}

// The points of up to four streams from a place on.
fn points(streams: u8, octets: &[u8], at: usize) -> Vector
    requires few { streams ≤ 4 }
    requires whole { at + 2 * streams ≤ length octets.now }
    ensures { result ≡ points_at streams octets.now at }
{
    let mut points = Vector::new();
    for stream in 0..streams {
        points.push(point(octets, at + 2 * usize::from(stream)));
    }
    points
}

/// The octets of triangle, samples, points and distance of one to four streams.
pub fn claim_width(streams: u8) -> usize
    requires some { 1 ≤ streams }
    requires few { streams ≤ 4 }
    ensures value { result ≡ claim_width_of streams }
    ensures high { result ≤ 88 }
{
    numbers::triangle_width(streams) + 10 * usize::from(streams) + 16
}

/// Fills a record with the job and the claim of these octets, and leaves it without marks. The memory of the marks that it
/// had is kept.
#[tactic(auto, unfolding(crate::specs::Records::claimed))]
pub fn fill_record(
    into: &mut Record,
    number: u64,
    modulation: Modulation,
    streams: u8,
    octets: &[u8],
)
    requires some { 1 ≤ streams }
    requires few { streams ≤ 4 }
    requires whole { length octets.now ≡ claim_width_of streams }
    ensures { into.new ≡ claimed number modulation streams octets.now }
{
    let samples_at = numbers::triangle_width(streams);
    let points_at = samples_at + 8 * usize::from(streams);
    let distance_at = points_at + 2 * usize::from(streams);
    let triangle = numbers::triangle(streams, octets);
    let samples = numbers::samples(streams, octets, samples_at);
    let place = Place {
        frame: 0,
        symbol: 0,
        carrier: 0,
    };
    into.modulation = modulation;
    into.job = Job::new(
        number,
        place,
        constellation(modulation, streams),
        System::new(triangle, samples),
    );
    into.certificate.vector = points(streams, octets, points_at);
    into.certificate.distance = BigEndian::read_u128(&octets[distance_at..]);
    into.certificate.marks.clear();
}

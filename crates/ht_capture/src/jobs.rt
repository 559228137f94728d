//! The jobs of a symbol.
ghost use Rattle.std.specs.Prelude.{◌≡◌, ◌+◌, ◌*◌, ◌≤◌, ◌<◌, length, replicate};
ghost use Rattle.ht_map.specs.Constellation.{grid_of as full_grid};
ghost use Rattle.ht_rate.specs.Rates.{carriers_of, pilots_of, streams_of};
ghost use Rattle.ht_metric.specs.Rows.{no_sample};
ghost use Rattle.ht_capture.specs.Frames.{carrier_octets, grid_at, job_at, one_point, pilot_grid};
ghost use Rattle.ht_capture.specs.Parts.{IsTemplate};
ghost use Rattle.ht_capture.specs.Presents.{present_of};

use crate::items::FrameHead;
use crate::numbers;
use crate::places::Present;
use crate::template::Template;
use ht_metric::{Job, Place, Sample, System};
use ht_pam::{Grid, Ladder};
use ht_pilot::pilot;
use ht_rate::{Carrier, Rate};

// The levels of I that a pilot's value allows: of -1 and 1 the one that it is.
fn one_level(value: i8) -> Ladder
    ensures { result ≡ (one_point value).i }
{
    Ladder::of(2, if value == 1 { 0b10 } else { 0b01 })
}

// The grid of a pilot: one point on each stream. Pilots are few, and no caller has a copy of it.
#[inline(never)]
#[tactic(auto, unfolding(crate::specs::Frames::pilot_grid))]
fn pilot_points(rate: &Rate, symbol: u32, index: u8) -> Grid
    requires { index < pilots_of rate.now }
    ensures { result ≡ pilot_grid rate.now symbol index }
{
    let streams = rate.streams();
    let zero = Ladder::of(1, 0b1);
    let mut grid = Grid::one(one_level(pilot(rate, symbol, index, 1)), zero);
    for stream in 1..streams {
        grid = grid.and(one_level(pilot(rate, symbol, index, stream + 1)), zero);
    }
    grid
}

// The grid of a subcarrier in a symbol, where this is that of the data subcarriers.
#[tactic(auto, unfolding(crate::specs::Frames::grid_at))]
fn grid_of(rate: &Rate, symbol: u32, carrier: u8, full: &Grid) -> Grid
    requires carrier { carrier < carriers_of rate.now }
    requires full { full.now ≡ full_grid rate.now }
    ensures value { result ≡ grid_at rate.now symbol carrier }
    ensures streams { length result ≡ streams_of rate.now }
{
    match rate.carrier(carrier) {
        Carrier::Data(_) => *full,
        Carrier::Pilot(index) => pilot_points(rate, symbol, index),
    }
}

/// The job of a present subcarrier, whose samples stand in the octets of its symbol from a place on. `full` is the grid of
/// the frame's data subcarriers.
#[tactic(auto, unfolding(crate::specs::Frames::job_at))]
pub fn job(
    head: &FrameHead,
    symbol: u32,
    number: u64,
    present: &Present,
    full: &Grid,
    octets: &[u8],
    at: usize,
) -> Job
    requires carrier { present.now.carrier < carriers_of head.now.rate }
    requires triangle { length present.now.triangle ≡ streams_of head.now.rate }
    requires full { full.now ≡ full_grid head.now.rate }
    requires whole { at + carrier_octets head.now.rate ≤ length octets.now }
    ensures value { result ≡ job_at head.now symbol number present.now octets.now at }
    ensures number { result.number ≡ number }
    ensures place { result.place ≡ record { frame = head.now.frame; symbol = symbol; carrier = present.now.carrier } }
{
    let samples = numbers::samples(head.rate.streams(), octets, at);
    let place = Place {
        frame: head.frame,
        symbol,
        carrier: present.carrier,
    };
    let grid = grid_of(&head.rate, symbol, present.carrier, full);
    Job::new(number, place, grid, System::new(present.triangle, samples))
}

// No sample on any row.
fn silence() -> [Sample; 4]
    ensures { result ≡ replicate 4 no_sample }
{
    [Sample { re: 0, im: 0 }; 4]
}

/// What the jobs of a present subcarrier share in all symbols. `full` is the grid of the frame's data subcarriers.
pub fn template(head: &FrameHead, present: &Present, full: &Grid) -> Template
    requires carrier { present.now.carrier < carriers_of head.now.rate }
    requires triangle { length present.now.triangle ≡ streams_of head.now.rate }
    requires full { full.now ≡ full_grid head.now.rate }
    ensures template { IsTemplate head.now result }
    ensures present { present_of result.job ≡ present.now }
{
    let place = Place {
        frame: head.frame,
        symbol: 0,
        carrier: present.carrier,
    };
    let grid = grid_of(&head.rate, 0, present.carrier, full);
    Template {
        job: Job::new(0, place, grid, System::new(present.triangle, silence())),
        kind: head.rate.carrier(present.carrier),
    }
}

// The grid of a subcarrier in a symbol, out of the subcarrier's template: that of all symbols, but on a pilot.
#[inline(always)]
fn grid_on(head: &FrameHead, symbol: u32, template: &Template) -> Grid
    requires { IsTemplate head.now template.now }
    ensures value { result ≡ grid_at head.now.rate symbol template.now.job.place.carrier }
    ensures streams { length result ≡ streams_of head.now.rate }
{
    match template.kind {
        Carrier::Data(_) => *template.job.grid(),
        Carrier::Pilot(index) => pilot_points(&head.rate, symbol, index),
    }
}

/// The job of a subcarrier in a symbol, whose samples stand in octets from a place on, out of the subcarrier's template.
#[inline]
pub fn heard(
    head: &FrameHead,
    symbol: u32,
    number: u64,
    template: &Template,
    octets: &[u8],
    at: usize,
) -> Job
    requires template { IsTemplate head.now template.now }
    requires whole { at + carrier_octets head.now.rate ≤ length octets.now }
    ensures { result ≡ job_at head.now symbol number (present_of template.now.job) octets.now at }
{
    let samples = numbers::samples(head.rate.streams(), octets, at);
    let place = Place {
        frame: head.frame,
        symbol,
        carrier: template.job.place().carrier,
    };
    let grid = grid_on(head, symbol, template);
    let triangle = *template.job.system().triangle();
    Job::new(number, place, grid, System::new(triangle, samples))
}

//! The detector: the first nearest vector of a data subcarrier.
ghost use Rattle.std.specs.Prelude.{◌≡◌, ◌⊎◌, ◌↔◌, ◌<◌, ◌≤◌, length, Ok};
ghost use Rattle.ht_rate.specs.Rates.{rate_of, streams_of};
ghost use Rattle.ht_rate.specs.declared.rates.Rate.{Rate as RateView};
ghost use Rattle.ht_map.specs.Constellation.{grid_of};
ghost use Rattle.ht_metric.specs.Jobs.{near};
ghost use Rattle.ht_library.specs.Detected.{IsHit, job_at, job_of, system_of};

use crate::crossing::{MizgaureChannel, MizgaureHit, MizgaureReceived};
use crate::fault::{DONE, NO_RATE};
use ht_feed::detect;
use ht_map::grid;
use ht_metric::{Found, Job, Place, Sample, System, Tap, Triangle};
use ht_pam::{Grid, Point};
use ht_rate::Rate;

const NO_TAP: Tap = Tap { re: 0, im: 0 };

const NO_SAMPLE: Sample = Sample { re: 0, im: 0 };

// The system of one to four streams.
pub(crate) fn system(streams: u8, channel: &MizgaureChannel, received: &MizgaureReceived) -> System
    requires some { 1 ≤ streams }
    requires few { streams ≤ 4 }
    ensures value { result ≡ system_of streams channel.now received.now }
    ensures rows { length result ≡ streams }
{
    let [d1, d2, d3, _] = channel.diagonal;
    let [a, b, c, _, _, _] = channel.above;
    let [y1, y2, y3, _] = received.samples;
    match streams {
        1 => System::new(
            Triangle::new(1, [d1, 0, 0, 0], [NO_TAP; 6]),
            [y1, NO_SAMPLE, NO_SAMPLE, NO_SAMPLE],
        ),
        2 => System::new(
            Triangle::new(
                2,
                [d1, d2, 0, 0],
                [a, NO_TAP, NO_TAP, NO_TAP, NO_TAP, NO_TAP],
            ),
            [y1, y2, NO_SAMPLE, NO_SAMPLE],
        ),
        3 => System::new(
            Triangle::new(3, [d1, d2, d3, 0], [a, b, c, NO_TAP, NO_TAP, NO_TAP]),
            [y1, y2, y3, NO_SAMPLE],
        ),
        4 => System::new(
            Triangle::new(4, channel.diagonal, channel.above),
            received.samples,
        ),
        _ => unreachable!(),
    }
}

// The job of a data subcarrier, whose grid is made once for all of them: made for each it cost as much as the rest of the job.
#[inline(always)]
fn job_on(rate: &Rate, grid: &Grid, channel: &MizgaureChannel, received: &MizgaureReceived) -> Job
    requires { grid.now ≡ grid_of rate.now }
    ensures value { result ≡ job_of rate.now channel.now received.now }
    ensures streams { length result.system ≡ streams_of rate.now }
{
    let place = Place {
        frame: 0,
        symbol: 0,
        carrier: 0,
    };
    Job::new(0, place, *grid, system(rate.streams(), channel, received))
}

// The job of a data subcarrier.
pub(crate) fn job(rate: &Rate, channel: &MizgaureChannel, received: &MizgaureReceived) -> Job
    ensures value { result ≡ job_of rate.now channel.now received.now }
    ensures streams { length result.system ≡ streams_of rate.now }
{
    job_on(rate, &grid(rate), channel, received)
}

// What was found, in the form that crosses.
#[tactic(auto, unfolding(crate::specs::Detected::IsHit))]
pub(crate) fn hit_of(found: &Found) -> MizgaureHit
    ensures { IsHit found.now result }
{
    let mut points = [Point { i: 0, q: 0 }; 4];
    let streams = found.vector.len();
    // Always four turns: by the number of streams the compiler would copy them by a call.
    for k in 0..4u8 {
        if k < streams {
            points[usize::from(k)] = found.vector.point(k + 1);
        }
    }
    MizgaureHit {
        points,
        low: (found.distance % (1 << 64)) as u64,
        high: (found.distance / (1 << 64)) as u64,
    }
}

// The hit of a data subcarrier.
#[inline(always)]
fn hit(
    rate: &Rate,
    grid: &Grid,
    channel: &MizgaureChannel,
    received: &MizgaureReceived,
) -> MizgaureHit
    requires { grid.now ≡ grid_of rate.now }
    ensures { IsHit (near (job_of rate.now channel.now received.now)) result }
{
    hit_of(&detect(&job_on(rate, grid, channel, received)))
}

/// The first nearest vector of a data subcarrier (clause 20.3.11.9), and its squared distance.
#[unsafe(no_mangle)]
pub extern "C" fn mizgaure_nearest(
    bandwidth: u8,
    mcs: u8,
    channel: &MizgaureChannel,
    received: &MizgaureReceived,
    found: &mut MizgaureHit,
) -> u32
    ensures done { (result ≡ 0) ↔ ((bandwidth ≤ 1) × (mcs ≤ 31)) }
    ensures fault { (result ≡ 0) ⊎ (result ≡ 2) }
    ensures kept { (result ≡ 0 → ⊥) → found.new ≡ found.old }
    ensures value { result ≡ 0 → (rate : RateView) → rate_of bandwidth mcs ≡ Ok rate → IsHit (near (job_of rate channel.now received.now)) found.new }
{
    let Ok(rate) = Rate::of(bandwidth, mcs) else {
        return NO_RATE;
    };
    *found = hit(&rate, &grid(&rate), channel, received);
    DONE
}

// The job of the sample that has `at` others before it.
#[inline(always)]
pub(crate) fn job_at(
    rate: &Rate,
    grid: &Grid,
    channels: &[MizgaureChannel],
    received: &[MizgaureReceived],
    at: usize,
) -> Job
    requires grid { grid.now ≡ grid_of rate.now }
    requires some { 1 ≤ length channels.now }
    requires within { at < length received.now }
    ensures value { result ≡ job_at rate.now channels.now received.now at }
    ensures streams { length result.system ≡ streams_of rate.now }
{
    job_on(rate, grid, &channels[at % channels.len()], &received[at])
}

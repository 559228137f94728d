//! The line of a demonstration.
ghost use Rattle.std.specs.Prelude.{◌≡◌, ◌^◌, ◌<◌, ◌≤◌, IfOk, length};
ghost use Rattle.ht_demo.specs.Demos.{SumsFit, all_symbols, code_in, data_in, is_outcome as is_outcome_of, line_of, matched_in, pilot_in, planned};

use crate::plan::Plan;
use ht_inverse::Outcome;
use ht_results::FrameResult;
use ht_text::demo_line;
use ht_tx::Frame;
use std::alloc::{AllocError, Global};

// Whether the outcome of a frame is these octets.
fn is_outcome(octets: &[u8], outcome: &Outcome) -> bool
    ensures { result ≡ is_outcome_of octets.now outcome.now }
{
    match outcome {
        Outcome::Octets(those) => those.as_slice() == octets,
        Outcome::SeedZero => false,
    }
}

// How many frames came back as they were sent.
fn matched(frames: &[Frame], results: &[FrameResult]) -> u16
    requires { length results.now ≤ 65535 }
    ensures { result ≡ matched_in frames.now results.now }
{
    let mut matched = 0;
    for (frame, received) in frames.iter().zip(results) {
        if is_outcome(frame.octets(), &received.outcome) {
            matched += 1;
        }
    }
    matched
}

// The sum of the distances of the data jobs of all frames.
fn data_sum(results: &[FrameResult]) -> u128
    requires { data_in results.now < 2 ^ 128 }
    ensures { result ≡ data_in results.now }
{
    results.iter().map(|received| received.data_sum).sum()
}

// The same of the pilot jobs.
fn pilot_sum(results: &[FrameResult]) -> u128
    requires { pilot_in results.now < 2 ^ 128 }
    ensures { result ≡ pilot_in results.now }
{
    results.iter().map(|received| received.pilot_sum).sum()
}

// The sum of the Hamming distances of the codewords of all frames.
fn code_sum(results: &[FrameResult]) -> u64
    requires { length results.now ≤ 65535 }
    ensures { result ≡ code_in results.now }
{
    let mut sum = 0;
    for received in results {
        sum += u64::from(received.code);
    }
    sum
}

// The number of symbols of all frames.
fn symbols(plan: &Plan) -> u64
    requires { 1 ≤ plan.now.length }
    ensures value { result ≡ all_symbols plan.now }
    ensures bound { result < 2 ^ 48 }
{
    u64::from(plan.frames) * u64::from(plan.rate.symbols(plan.length))
}

// The line of a plan whose frames are these and have these results.
#[tactic(auto, unfolding(crate::specs::Demos::line_of))]
pub(crate) fn line(
    alloc: Global,
    plan: &Plan,
    frames: &[Frame],
    results: &[FrameResult],
) -> Result<Vec<u8>, AllocError>
    requires planned { frames.now ≡ planned plan.now }
    requires sums { SumsFit results.now }
    requires some { 1 ≤ plan.now.length }
    ensures { IfOk result (λ line. line.items ≡ line_of plan.now results.now) }
{
    let symbols = symbols(plan);
    let jobs = symbols * u64::from(plan.rate.carriers());
    demo_line(
        alloc,
        plan.frames,
        symbols,
        jobs,
        matched(frames, results),
        data_sum(results),
        pilot_sum(results),
        code_sum(results),
    )
}

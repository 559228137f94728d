//! Frames that are sent through the channel.
ghost use Rattle.std.specs.Prelude.{◌≡◌, ◌≤◌, All, IfOk, length};
ghost use Rattle.ht_capture.specs.Contents.{AreTyped};
ghost use Rattle.ht_capture.specs.Files.{AreCaptureFrames, HasAllCarriers, capture_file_of};
ghost use Rattle.ht_results.specs.Results.{results_of};
ghost use Rattle.ht_demo.specs.Demos.{ArePassed, AreSent, CanBeSent, IsPassed, SumsFit};

use crate::plan::Plan;
use ht_capture::{CaptureFrame, write_captures};
use ht_io::{GrowSink, SureSource};
use ht_sim::{sample_frames, through_channel};
use ht_tx::{Frame, transmit_all};
use std::alloc::{AllocError, Global};

// Sends frames through the channel of a plan. Their symbols are let go once they have passed.
fn passed(alloc: Global, plan: &Plan, frames: &[Frame]) -> Result<Vec<CaptureFrame>, AllocError>
    requires { length frames.now ≤ 65535 }
    ensures passed { IfOk result (λ captured. ArePassed plan.now frames.now captured.items) }
    ensures fit { IfOk result (λ captured. AreCaptureFrames captured.items) }
    ensures whole { IfOk result (λ captured. All HasAllCarriers captured.items) }
    ensures typed { IfOk result (λ captured. AreTyped captured.items) }
{
    let sent = transmit_all(alloc, frames)?;
    let captured = through_channel(alloc, plan.seed, plan.noise, &sent)?;
    Ok(captured)
}

// The octets of a capture. Its frames are let go once they are written.
fn written(alloc: Global, captured: Vec<CaptureFrame>) -> Result<Vec<u8>, AllocError>
    requires fit { AreCaptureFrames captured.items }
    requires whole { All HasAllCarriers captured.items }
    ensures { IfOk result (λ octets. octets.items ≡ capture_file_of 1 captured.items) }
{
    let mut sink = GrowSink::new(alloc);
    match write_captures(&captured, &mut sink) {
        Ok(()) => Ok(sink.into_held()),
        Err(_) => Err(AllocError),
    }
}

// The octets of the capture that frames come to.
fn capture(alloc: Global, plan: &Plan, frames: &[Frame]) -> Result<Vec<u8>, AllocError>
    requires { length frames.now ≤ 65535 }
    ensures passed { IfOk result (λ octets. IsPassed plan.now frames.now octets.items) }
    ensures sums { IfOk result (λ octets. SumsFit (results_of octets.items)) }
{
    let captured = passed(alloc, plan, frames)?;
    written(alloc, captured)
}

// The frames of a plan, and a source of the capture, in version 1, that they come to behind the plan's channel. The only error
// is lack of memory.
pub(crate) fn send(alloc: Global, plan: &Plan) -> Result<(Vec<Frame>, SureSource), AllocError>
    requires { 1 ≤ plan.now.length }
    ensures sent { IfOk result (λ sent. AreSent plan.now sent.0.items sent.1) }

    // What the types of the plan's numbers say; proofs need it said.
    ensures plan { IfOk result (λ _. CanBeSent plan.now) }
{
    let frames = sample_frames(alloc, plan.seed, &plan.rate, plan.length, plan.frames)?;
    let octets = capture(alloc, plan, &frames)?;
    Ok((frames, SureSource::new(octets)))
}

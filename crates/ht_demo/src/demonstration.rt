//! The whole way: sample frames are sent, pass the channel and are received.
ghost use Rattle.std.specs.Prelude.{◌≤◌, IfOk};
ghost use Rattle.ht_feed.specs.Limits.{IsCrewSize, IsWindowSize};
ghost use Rattle.ht_demo.specs.Demos.{AreResults, CanBeSent, Demonstrates};

use crate::line::line;
use crate::plan::Plan;
use crate::sent::send;
use ht_feed::Gate;
use ht_frames::ListBook;
use ht_results::FrameResult;
use ht_rx::{receive, receive_alone};
use ht_tx::Frame;
use std::alloc::{AllocError, Global};
use std::sync::Wait;
use std::thread::Threads;

// The line of a plan, made of its frames as they were sent and of the results that were received for them. The only error is
// lack of memory.
fn demo_line_of(
    alloc: Global,
    plan: &Plan,
    frames: &[Frame],
    results: &[FrameResult],
) -> Result<Vec<u8>, AllocError>
    requires plan { CanBeSent plan.now }
    requires received { AreResults plan.now frames.now results.now }
    ensures { IfOk result (λ line. Demonstrates plan.now line.items) }
{
    line(alloc, plan, frames, results)
}

/// Samples the frames of a plan, sends them through its channel, receives the capture and gives the line that sums it
/// up.
///
/// Every job runs in this thread, between the two calls of the gate. At most `window` jobs, 1 to 4096, were read and not
/// yet taken at any moment. The frames' octets, their samples and the capture are kept in memory, about 9 MB a frame at
/// most. No clause says how much is due or kept. The only error is lack of memory.
pub fn demo_alone<G: Gate>(
    alloc: Global,
    window: u16,
    plan: &Plan,
    gate: &G,
) -> Result<Vec<u8>, AllocError>
    requires window { IsWindowSize window }
    requires octets { 1 ≤ plan.now.length }
    ensures { IfOk result (λ line. Demonstrates plan.now line.items) }
{
    let (frames, mut source) = send(alloc, plan)?;
    let mut book = ListBook::new(alloc);
    match receive_alone(alloc, window, &mut source, &mut book, gate) {
        Ok(_) => demo_line_of(alloc, plan, &frames, book.results()),
        Err(_) => Err(AllocError),
    }
}

/// Does as [`demo_alone`], and receives the capture with workers, 1 to 64, of which the caller is one: the others run
/// jobs in threads of their own.
pub fn demo<R: Threads + Wait + Sync, G: Gate + Sync>(
    rt: &R,
    alloc: Global,
    workers: u8,
    window: u16,
    plan: &Plan,
    gate: &G,
) -> Result<Vec<u8>, AllocError>
    requires crew { IsCrewSize workers }
    requires window { IsWindowSize window }
    requires octets { 1 ≤ plan.now.length }
    ensures { IfOk result (λ line. Demonstrates plan.now line.items) }
{
    let (frames, mut source) = send(alloc, plan)?;
    let mut book = ListBook::new(alloc);
    match receive(rt, alloc, workers, window, &mut source, &mut book, gate) {
        Ok(_) => demo_line_of(alloc, plan, &frames, book.results()),
        Err(_) => Err(AllocError),
    }
}

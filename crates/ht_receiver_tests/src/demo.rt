//! Plans whose lines are known, without threads and with.
ghost use Rattle.std.specs.Prelude.{◌≤◌};
ghost use Rattle.ht_feed.specs.Limits.{IsWindowSize};

use crate::equal::equal;
use ht_demo::{Plan, demo, demo_alone};
use ht_feed::OpenGate;
use ht_rate::Rate;
use std::alloc::{AllocError, Global};
use std::process::Abort;
use std::sync::Wait;
use std::test::Fail;
use std::thread::Threads;

/// Asserts that this is the line of a plan.
fn says<R: Abort + Threads + Wait + Sync>(
    rt: &R,
    alloc: Global,
    window: u16,
    plan: &Plan,
    wanted: &str,
) -> Result<(), AllocError>
    requires window { IsWindowSize window }
    requires octets { 1 ≤ plan.now.length }
{
    let alone = demo_alone(alloc, window, plan, &OpenGate)?;
    let together = demo(rt, alloc, 3, window, plan, &OpenGate)?;
    let wanted = wanted.as_bytes();
    equal(
        rt,
        (alone.as_slice(), together.as_slice()),
        (wanted, wanted),
    );
    Ok(())
}

// Frames of one octet without noise, and frames at two streams with noise.
#[test]
fn lines(rt: HostRuntime) -> Result<(), Fail> {
    let mut plan = Plan {
        seed: 42,
        noise: 0,
        frames: 64,
        rate: Rate::of(0, 0)?,
        length: 1,
    };
    let wanted = "demo frames 64 symbols 128 jobs 7168 matched 64 data 0 pilot 0 code 0\n";
    says(&rt, rt.alloc(), 4096, &plan, wanted)?;
    plan.noise = 8;
    plan.frames = 8;
    plan.rate = Rate::of(0, 15)?;
    plan.length = 1500;
    let wanted = "demo frames 8 symbols 192 jobs 10752 matched 8 data 954810 pilot 72702 code 0\n";
    says(&rt, rt.alloc(), 256, &plan, wanted)?;
    Ok(())
}

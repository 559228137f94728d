//! Frames that are drawn from a seed.
use crate::equal::equal;
use ht_rate::Rate;
use ht_sim::sample_frames;
use std::test::Fail;

// The first frame of the seed 42: its scrambler's seed and its first octets.
#[test]
fn samples(rt: HostRuntime) -> Result<(), Fail> {
    let rate = Rate::of(0, 0)?;
    let frames = sample_frames(rt.alloc(), 42, &rate, 5, 1)?;
    equal(&rt, frames.len(), 1);
    for frame in &frames {
        let drawn = (frame.seed().value(), frame.octets());
        equal(&rt, drawn, (66, [0x09, 0x30, 0x93, 0x4b, 0x6e].as_slice()));
    }
    Ok(())
}

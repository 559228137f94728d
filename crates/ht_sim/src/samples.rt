//! Frames of random octets.
ghost use Rattle.std.specs.Prelude.{◌≡◌, ◌≤◌, IfOk, length};
ghost use Rattle.ht_sim.specs.Samples.{frames_drawn, octet_drawn, sample_frame_drawn};
ghost use Rattle.ht_sim.specs.Draws.{drawn, several};

use crate::words::Words;
use ht_rate::Rate;
use ht_tx::Frame;
use std::alloc::{AllocError, Global};

// A number of octets.
fn octets(alloc: Global, words: &mut Words, count: u16) -> Result<Vec<u8>, AllocError>
    ensures drawn { IfOk result (λ octets. drawn octets.items words.new ≡ several octet_drawn count words.old) }
    ensures count { IfOk result (λ octets. length octets.items ≡ count) }
{
    let mut octets = Vec::with_capacity(alloc, usize::from(count))?;
    for _index in 0..count {
        octets.push(words.octet())?;
    }
    Ok(octets)
}

// A frame: the seed of its scrambler is drawn first, and then its octets.
#[tactic(auto, unfolding(crate::specs::Samples::sample_frame_drawn))]
fn sample_frame(
    alloc: Global,
    words: &mut Words,
    rate: &Rate,
    length: u16,
) -> Result<Frame, AllocError>
    requires { 1 ≤ length }
    ensures { IfOk result (λ frame. drawn frame words.new ≡ sample_frame_drawn rate.now length words.old) }
{
    let seed = words.seed();
    let octets = octets(alloc, words, length)?;
    match Frame::new(*rate, seed, octets) {
        Some(frame) => Ok(frame),
        None => unreachable!(),
    }
}

/// A number of frames of this rate with random octets, `length` of them each, and a random seed of the scrambler.
///
/// For each frame the seed is drawn and then the octets. The words of all frames come from one generator. The only
/// refusal is lack of memory.
#[tactic(auto, unfolding(crate::specs::Samples::frames_drawn))]
pub fn sample_frames(
    alloc: Global,
    seed: u64,
    rate: &Rate,
    length: u16,
    count: u16,
) -> Result<Vec<Frame>, AllocError>
    requires { 1 ≤ length }
    ensures { IfOk result (λ frames. frames.items ≡ frames_drawn seed rate.now length count) }
{
    let mut words = Words::new(seed);
    let mut frames = Vec::with_capacity(alloc, usize::from(count))?;
    for _index in 0..count {
        frames.push(sample_frame(alloc, &mut words, rate, length)?)?;
    }
    Ok(frames)
}

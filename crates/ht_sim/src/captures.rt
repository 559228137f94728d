//! Frames that pass the channel.
ghost use Rattle.std.specs.Prelude.{◌≡◌, ◌*◌, ◌≤◌, All, IfOk, OnOk, length};
ghost use Rattle.ht_rate.specs.Rates.{carriers_of, streams_of, symbols_of};
ghost use Rattle.ht_capture.specs.Contents.{AreSamples, AreTyped, IsTyped};
ghost use Rattle.ht_capture.specs.Files.{FitsFrame, HasAllCarriers};
ghost use Rattle.ht_sim.specs.Channel.{captures_of, frame_drawn, sample_drawn, symbol_mixed, symbols_mixed};
ghost use Rattle.ht_sim.specs.Draws.{drawn, each, joined};

use crate::rows::add_samples;
use crate::triangles::triangles;
use crate::words::Words;
use ht_capture::{CaptureFrame, Samples, Triangles};
use ht_metric::{Sample, Triangle};
use ht_pam::Point;
use ht_rate::Rate;
use ht_tx::Symbols;
use std::alloc::{AllocError, Global};

// Adds the samples of a symbol, subcarrier by subcarrier.
fn add_symbol(
    words: &mut Words,
    noise: u16,
    streams: usize,
    triangles: &[Triangle],
    points: &[Point],
    samples: &mut Vec<Sample>,
) -> Result<(), AllocError>
    requires streams { All (λ t. length t ≡ streams) triangles.now }
    requires points { length points.now ≡ length triangles.now * streams }
    ensures added { OnOk result (drawn samples.new.items words.new
        ≡ joined samples.old.items (each (sample_drawn noise) (symbol_mixed streams triangles.now points.now) words.old)) }
    ensures typed { AreSamples samples.old.items → OnOk result (AreSamples samples.new.items) }
{
    let mut rest = points;
    for triangle in triangles {
        let (vector, behind) = rest.split_at(streams);
        add_samples(words, noise, triangle, vector, samples)?;
        rest = behind;
    }
    Ok(())
}

// The samples of a number of symbols.
fn samples(
    alloc: Global,
    words: &mut Words,
    noise: u16,
    symbols: u32,
    streams: usize,
    triangles: &[Triangle],
    points: &[Point],
) -> Result<Vec<Sample>, AllocError>
    requires streams { All (λ t. length t ≡ streams) triangles.now }
    requires points { length points.now ≡ symbols * (length triangles.now * streams) }
    ensures drawn { IfOk result (λ samples. drawn samples.items words.new
        ≡ each (sample_drawn noise) (symbols_mixed symbols streams triangles.now points.now) words.old) }
    ensures count { IfOk result (λ samples. length samples.items ≡ symbols * (length triangles.now * streams)) }
    ensures typed { IfOk result (λ samples. AreSamples samples.items) }
{
    let mut samples = Vec::with_capacity(alloc, points.len())?;
    let mut rest = points;
    for _symbol in 0..symbols {
        let (now, later) = rest.split_at(triangles.len() * streams);
        add_symbol(words, noise, streams, triangles, now, &mut samples)?;
        rest = later;
    }
    Ok(samples)
}

// The capture of the frame with these points.
#[tactic(auto, unfolding(crate::specs::Channel::frame_drawn))]
pub(crate) fn capture(
    alloc: Global,
    words: &mut Words,
    noise: u16,
    rate: Rate,
    octets: u16,
    points: &[Point],
) -> Result<CaptureFrame, AllocError>
    requires some { 1 ≤ octets }
    requires points { length points.now ≡ symbols_of rate octets * (carriers_of rate * streams_of rate) }
    ensures drawn { IfOk result (λ captured. drawn captured words.new
        ≡ frame_drawn noise (record { rate = rate; length = octets; points = points.now }) words.old) }
    ensures fits { IfOk result FitsFrame }
    ensures whole { IfOk result HasAllCarriers }
    ensures typed { IfOk result IsTyped }
{
    let triangles = triangles(alloc, words, &rate)?;
    let symbols = rate.symbols(octets);
    let streams = usize::from(rate.streams());
    let samples = samples(alloc, words, noise, symbols, streams, &triangles, points)?;
    Ok(CaptureFrame {
        rate,
        length: octets,
        erased: 0,
        triangles: Triangles::from(triangles),
        samples: Samples::from(samples),
    })
}

/// Passes frames through the channel that a seed makes, with noise of at most `noise` in each part.
///
/// For each frame the triangles of its subcarriers are drawn and then the noise of its samples, in the order in which
/// both stand in a capture. The words of all frames come from one generator. Words are drawn for the noise also where
/// it is 0. The only refusal is lack of memory.
#[tactic(auto, unfolding(crate::specs::Channel::captures_of))]
pub fn through_channel(
    alloc: Global,
    seed: u64,
    noise: u16,
    frames: &[Symbols],
) -> Result<Vec<CaptureFrame>, AllocError>
    ensures drawn { IfOk result (λ captured. captured.items ≡ captures_of seed noise frames.now) }

    // They can be written as a capture of version 1, where they are at most 65535: each has the triangles and the samples
    // that its rate and its length ask for, no subcarrier is erased, and every number fits its field.
    ensures count { IfOk result (λ captured. length captured.items ≡ length frames.now) }
    ensures fit { IfOk result (λ captured. All FitsFrame captured.items) }
    ensures whole { IfOk result (λ captured. All HasAllCarriers captured.items) }
    ensures typed { IfOk result (λ captured. AreTyped captured.items) }
{
    let mut words = Words::new(seed);
    let mut captured = Vec::with_capacity(alloc, frames.len())?;
    for frame in frames {
        let points = frame.points();
        captured.push(capture(
            alloc,
            &mut words,
            noise,
            frame.rate(),
            frame.length(),
            points,
        )?)?;
    }
    Ok(captured)
}

//! Random triangles.
ghost use Rattle.std.specs.Prelude.{◌≡◌, ◌≤◌, All, IfOk, length};
ghost use Rattle.ht_rate.specs.Rates.{carriers_of, streams_of};
ghost use Rattle.ht_capture.specs.Contents.{AreTriangles};
ghost use Rattle.ht_sim.specs.Channel.{triangle_drawn, triangles_drawn};
ghost use Rattle.ht_sim.specs.Draws.{drawn};

use crate::words::Words;
use ht_metric::{Tap, Triangle};
use ht_rate::Rate;
use std::alloc::{AllocError, Global};

/// No entry of a triangle.
const NO_TAP: Tap = Tap { re: 0, im: 0 };

// The triangle of one stream.
#[tactic(auto, unfolding(crate::specs::Channel::triangle_drawn))]
fn one_row(words: &mut Words) -> Triangle
    ensures value { result ≡ (triangle_drawn 1 words.old).value }
    ensures behind { words.new ≡ (triangle_drawn 1 words.old).state }
{
    Triangle::new(1, [words.diagonal(), 0, 0, 0], [NO_TAP; 6])
}

// The triangle of two streams.
#[tactic(auto, unfolding(crate::specs::Channel::triangle_drawn))]
fn two_rows(words: &mut Words) -> Triangle
    ensures value { result ≡ (triangle_drawn 2 words.old).value }
    ensures behind { words.new ≡ (triangle_drawn 2 words.old).state }
{
    let d1 = words.diagonal();
    let r12 = words.tap();
    let d2 = words.diagonal();
    Triangle::new(
        2,
        [d1, d2, 0, 0],
        [r12, NO_TAP, NO_TAP, NO_TAP, NO_TAP, NO_TAP],
    )
}

// The triangle of three streams.
#[tactic(auto, unfolding(crate::specs::Channel::triangle_drawn))]
fn three_rows(words: &mut Words) -> Triangle
    ensures value { result ≡ (triangle_drawn 3 words.old).value }
    ensures behind { words.new ≡ (triangle_drawn 3 words.old).state }
{
    let d1 = words.diagonal();
    let r12 = words.tap();
    let r13 = words.tap();
    let d2 = words.diagonal();
    let r23 = words.tap();
    let d3 = words.diagonal();
    Triangle::new(3, [d1, d2, d3, 0], [r12, r13, r23, NO_TAP, NO_TAP, NO_TAP])
}

// The triangle of four streams.
#[tactic(auto, unfolding(crate::specs::Channel::triangle_drawn))]
fn four_rows(words: &mut Words) -> Triangle
    ensures value { result ≡ (triangle_drawn 4 words.old).value }
    ensures behind { words.new ≡ (triangle_drawn 4 words.old).state }
{
    let d1 = words.diagonal();
    let r12 = words.tap();
    let r13 = words.tap();
    let r14 = words.tap();
    let d2 = words.diagonal();
    let r23 = words.tap();
    let r24 = words.tap();
    let d3 = words.diagonal();
    let r34 = words.tap();
    let d4 = words.diagonal();
    Triangle::new(4, [d1, d2, d3, d4], [r12, r13, r14, r23, r24, r34])
}

// The triangle of one to four streams.
fn triangle(words: &mut Words, streams: u8) -> Triangle
    requires some { 1 ≤ streams }
    requires few { streams ≤ 4 }
    ensures value { result ≡ (triangle_drawn streams words.old).value }
    ensures behind { words.new ≡ (triangle_drawn streams words.old).state }
{
    match streams {
        1 => one_row(words),
        2 => two_rows(words),
        3 => three_rows(words),
        _ => four_rows(words),
    }
}

/// The triangles of a frame's subcarriers, the lowest subcarrier's first.
pub fn triangles(alloc: Global, words: &mut Words, rate: &Rate) -> Result<Vec<Triangle>, AllocError>
    ensures value { IfOk result (λ triangles. drawn triangles.items words.new ≡ triangles_drawn rate.now words.old) }
    ensures count { IfOk result (λ triangles. length triangles.items ≡ carriers_of rate.now) }
    ensures streams { IfOk result (λ triangles. All (λ t. length t ≡ streams_of rate.now) triangles.items) }
    ensures typed { IfOk result (λ triangles. AreTriangles (streams_of rate.now) triangles.items) }
{
    let carriers = rate.carriers();
    let streams = rate.streams();
    let mut triangles = Vec::with_capacity(alloc, usize::from(carriers))?;
    for _carrier in 0..carriers {
        triangles.push(triangle(words, streams))?;
    }
    Ok(triangles)
}

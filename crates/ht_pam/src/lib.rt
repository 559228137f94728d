//! The amplitude levels of a constellation and the grids that are made of them.
//!
//! BPSK, QPSK, 16-QAM and 64-QAM (IEEE Std 802.11-2012, 18.3.5.8) lie on a grid of whole numbers, before
//! the factor that normalises their power. Each coordinate of a point has one of 1, 2, 4 or 8 levels, the
//! odd numbers from -7 to 7 or those in the middle of them: in 16-QAM -3, -1, 1 and 3. In BPSK Q has the
//! one level 0.
//!
//! A [`Ladder`] has the levels of one coordinate and a mask that says which of them are allowed: `of(8, 255)`
//! allows all eight, and `of(8, 129)` the outermost ones, -7 and 7. The ladders of I and Q are the [`Axes`] of
//! one spatial stream, and a [`Grid`] has those of one to four streams. A pilot has a grid of one point on
//! each stream: `of(2, 1)` for I allows -1 alone.
//!
//! A detector tries the levels of a coordinate nearest first. A [`Zigzag`] gives them in that order, and counts its
//! [`Steps`]: for target 0 and d = 10 in 16-QAM these are -1, 1, -3 and 3.
#![tactic(auto)]

mod axes;
mod grid;
mod ladder;
pub mod laws;
mod point;
mod steps;
mod zigzag;

pub use axes::Axes;
pub use grid::Grid;
pub use ladder::Ladder;
pub use point::Point;
pub use steps::Steps;
pub use zigzag::Zigzag;

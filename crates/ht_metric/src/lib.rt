//! What a multiple-antenna detector is given and what it answers (IEEE Std 802.11-2012, clause 20).
//!
//! On each subcarrier of each OFDM symbol the receiver has samples y of one to four streams that the
//! channel has mixed. With the channel in triangular form a vector x of constellation points is at the
//! distance `|y_1 - d_1 x_1 - r_12 x_2 - ..|^2 + |y_2 - d_2 x_2 - ..|^2 + ..` from what was received.
//! A [`Job`] has such a [`System`] and the [`Grid`](ht_pam::Grid) of the vectors that may have been sent.
//! Its answer, a [`Hit`], has the first nearest vector: none of the grid is nearer, and none that comes
//! before it is as near. One vector comes before another if, at the lowest stream where they differ, its
//! I is less, or its I is equal and its Q is less.
//!
//! [`plain_nearest`] finds it by trying every vector. In BPSK on one stream with d = 10, y = (3, -4) gives
//! (1, 0) at distance 65, and y = (0, 0) gives (-1, 0) at 100, where (1, 0) is as near and comes later.
//! All is in whole numbers, and no sum overflows, whatever the samples and the channel are: every distance is
//! below 2^66.
//!
//! The module [`laws`] has what follows from the definitions: what is received without noise is detected as it
//! was sent, at distance 0, where no diagonal is 0.
#![tactic(auto)]

mod complex;
mod found;
mod grid_points;
mod hit;
mod job;
pub mod laws;
mod metric;
mod nearest;
mod place;
mod rows;
mod sample;
mod system;
mod tap;
mod triangle;
mod vector;

pub use complex::Complex;
pub use found::Found;
pub use hit::Hit;
pub use job::Job;
pub use metric::distance;
pub use nearest::plain_nearest;
pub use place::Place;
pub use rows::stretched;
pub use sample::Sample;
pub use system::System;
pub use tap::Tap;
pub use triangle::Triangle;
pub use vector::Vector;

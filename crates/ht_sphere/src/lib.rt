//! The sphere detector: the first nearest vector of a job, without trying them all.
//!
//! A job (crate `ht_metric`) has a triangular system of one to four rows and a grid of points per stream
//! (IEEE Std 802.11-2012, 20.3.11). The real and the imaginary part of a row are real rows of their own, so
//! n streams have the 2n coordinates I_1, Q_1, I_2, Q_2 and so on. [`nearest`] walks them from Q_n down to
//! I_1; [`find`] does the same and answers the vector and its distance alone, and [`into_hit`] moves the job into
//! its hit. A level's cost is the square of what it leaves of the sample once the levels behind it are taken
//! away; the costs so far are the partial distance, which never falls. Each coordinate's levels come nearest
//! first, so a level that is too far ends its coordinate: all later ones are too far as well.
//!
//! Successive rounding gives the first vector, and with it how far all others are at least. Where it is nearer than
//! that, it is the answer at once. Else the tree is walked: only strictly farther branches are left out, and vectors that
//! are as near are compared by their order, so ties end as in `plain_nearest`. In QPSK on two streams with
//! d = 0 and 0, r_12 = 10, y = (10 - 10i, 0), rounding ends at (-1, -1), (-1, -1) at distance 400; the answer
//! is (-1, -1), (1, -1) at 0, after at most 54 steps.
#![tactic(auto)]

mod detector;
mod look;
pub mod remainder;
mod round;
mod search;
mod vectors;

pub use detector::{find, into_hit, nearest};

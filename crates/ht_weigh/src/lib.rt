//! All weights of a subcarrier by one search.
//!
//! A label bit cuts the vectors of a job in two halves, and its weight is the difference of their least distances, cut to the
//! range from -65535 to 65535 (crate `ht_soft`). [`weigh`] finds the least distances of all halves at once: it finds the
//! first nearest vector, and then walks the tree of suffixes (crate `ht_sphere`) once, through those with a partial distance
//! below the *clip*, which is 65535 more than the least distance. [`weigh_near`] is given that distance. A half without a
//! vector below the clip weighs as if its least distance were the clip, since the weight is cut there.
//!
//! The walk ends above the first stream: I and Q of it stand alone there, so the least distance of a half is that of the
//! nearest levels with the bit, which a table gives. On one stream nothing is searched or walked: the weights are written at
//! once.
#![tactic(auto)]

mod alone;
mod first;
mod leasts;
mod streams;
mod walk;
mod weighing;

pub use weighing::{weigh, weigh_near};

//! Detection of eight jobs at once, in the lanes of vectors.
//!
//! Successive rounding gives each coordinate of a job, from the last stream's on, the level that is nearest to what the
//! streams behind leave of the sample. Here it is done for eight jobs of the same constellations together. Lanes only
//! propose: all arithmetic is modulo 2^32, and a test certifies at the end that the rounded vector of a lane is its job's
//! first nearest one. Where the test fails, as at each tie, the lane says nothing, and `find` of `ht_sphere` answers.
//!
//! [`detect_one`] to [`detect_four`] do this for one to four streams. [`find_eight`] answers eight jobs of any kind,
//! and [`label_eight`] says the labels of the points that were found, where lanes are sure.
#![tactic(auto)]

mod block;
mod columns;
mod eight;
mod labels;
mod levels;
mod loading;
mod only;
mod rows;
mod streams;
mod words;

pub use block::find_eight;
pub use columns::Columns;
pub use eight::{Eight, Labelled, label_eight, label_lanes};
pub use levels::Levels;
pub use loading::word;
pub use only::find_only;
pub use rows::{Parts, Reached};
pub use streams::{
    Channel, Four, RowLanes, SampleLanes, Three, Two, detect_four, detect_one, detect_three,
    detect_two,
};

//! Tallies of blocks whose jobs are found eight at a time, for each kind of frames of which labels are kept.
//!
//! [`LaneWork`] makes the tally of a block that says the labels of eight jobs at once (`InLanes` of crate
//! `ht_capture_blocks`): runs of jobs on data subcarriers go to it as a whole, and pilots, and jobs of which lanes say
//! nothing, one by one. A [`LabelKind`] says what labels are kept.
#![tactic(auto)]

mod found;
mod in_lanes;
mod label_kind;

pub use found::found_by;
pub use in_lanes::{LaneWork, is_sure, lanes_from};
pub use label_kind::LabelKind;

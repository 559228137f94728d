//! Frames under way, and where their results go.
//!
//! A receiver of frames of some kind brings a [`Kind`], which says what is kept of a job, where it stands in the frame, and
//! what a whole frame comes to. This crate does the rest. Whoever runs a block makes its [`Tally`] without the frame, as
//! [`TallyWork`] does, each job between the two calls of a gate. A [`Frame`] takes one tally after another, each with the
//! head of its frame; with its last job it is whole, and is decoded in place or handed over as a [`Whole`]. A [`Receiver`]
//! decodes each whole frame and books its result in a [`Book`]; a [`ReceiverTogether`] hands frames over, and has workers decode
//! long ones ([`Frames`]) while more answers come. Both are consumers (`Consumer` of crate `ht_feed`): what they put is what
//! is booked of the results that the jobs give, `booked_in` in `specs/Gathering.antt` of `results_by` in
//! `specs/Frames.antt`, whatever the blocks and the threads are. A caller that keeps whole frames back longer than a
//! receiver with workers uses [`gather_block`] and [`book_frames`]. A [`ListBook`] keeps the results, and a [`TextBook`] puts the
//! [`Line`] of each into a sink.
//!
//! Say a frame is whole with its second job, its result is the sum of the two distances, and its line is that number.
//! Of five jobs with the distances 7, 7, 4, 0 and 9 a receiver with a [`TextBook`] puts `14` and `4`, and keeps the
//! fifth job under way.
#![tactic(auto)]

mod book;
mod decodes;
mod decoding;
mod errand;
mod frame;
mod frames;
mod gated;
mod gathering;
mod kind;
mod list_book;
mod receiver;
mod receiver_together;
mod tally;
mod text_book;
mod under_way;
mod whole_frame;

pub use book::Book;
pub use decoding::Decoding;
pub use frame::{Frame, Whole};
pub use frames::Frames;
pub use gated::{BesideFrames, run_gated};
pub use gathering::book_frames;
pub use ht_results::Line;
pub use kind::{Kind, TogetherKind};
pub use list_book::ListBook;
pub use receiver::Receiver;
pub use receiver_together::{ReceiverTogether, gather_block};
pub use tally::{Tally, TallyWork, tally_of};
pub use text_book::TextBook;
pub use under_way::{UnderWay, UnderWayTogether};
pub use whole_frame::WholeFrame;

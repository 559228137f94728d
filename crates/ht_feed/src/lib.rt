//! What a receiver does between any reader of blocks and the detector.
//!
//! A [`BlockReader`] gives the heads of frames, and after each head the jobs of its frame in blocks. A block stands for a list of
//! jobs ([`Jobs`]), and every contract is about that list, so that nothing depends on how jobs are divided. An [`InFlight`] has a
//! reader and a ring of the blocks that are due, which means given and their answers not taken yet; how much may be due is
//! counted in jobs. The thread that runs a block makes an [`Answer`] to it ([`Work`]), which the in-flight reader hands, in
//! order, to a [`Consumer`]. What is put in all is decided by the consumer alone, as a function of the jobs that come, each with
//! the head of its frame. An [`InFlightFeed`] is an in-flight reader between its source and its consumer as a [`BlockFeed`],
//! which gives blocks to a drive and takes their answers back; the type of the in-flight reader that it borrows is a parameter,
//! and [`KeepsInFlight`] says what an in-flight reader does. [`tell_alone`] goes through a whole input in this thread.
//!
//! The outcome of a run is defined once for all readers and consumers: for a whole input, for one with a fault, where the
//! source or the consumer's device failed, and where memory ran out (`specs/Outcomes.antt`).
//!
//! A block may be [one job](OneJob), whose answer is [one hit](OneHit); [`Hits`] are the answers of the [`Detector`]; a
//! [`Meter`] puts an octet for each; and a [`Gate`] is called before and after a job, by the thread that runs it. So for a
//! frame of two BPSK symbols with 56 subcarriers in one spatial stream, whose diagonals are 10 and whose samples are 0,
//! [`tell_alone`] puts 112 octets of 100, whatever the blocks are, and answers `Ended { frames: 1, jobs: 112 }`.
#![tactic(auto)]

mod answer;
mod book_fault;
mod came;
mod consumer;
mod drive;
mod due_block;
mod ended;
mod feed;
mod feeding;
mod gate;
mod hard;
mod hits;
mod in_flight;
mod in_flight_feed;
mod in_frame;
mod jobs;
mod keeps_in_flight;
mod meter;
mod one_job;
mod reader;
mod reading;
mod room;
mod shared;
mod stop;
mod telling;

pub use answer::{Answer, Work};
pub use book_fault::BookFault;
pub use came::Came;
pub use consumer::Consumer;
pub use drive::{DriveFault, drive_alone};
pub use due_block::DueBlock;
pub use ended::Ended;
pub use feed::BlockFeed;
pub use gate::{Gate, OpenGate};
pub use hard::{is_hard, is_last_hard};
pub use hits::{Detector, Finder, Hits, detect, hits_of};
pub use in_flight::InFlight;
pub use in_flight_feed::InFlightFeed;
pub use in_frame::InFrame;
pub use jobs::Jobs;
pub use keeps_in_flight::KeepsInFlight;
pub use meter::Meter;
pub use one_job::{OneHit, OneJob};
pub use reader::BlockReader;
pub use room::make_room;
pub use shared::Shared;
pub use stop::Stop;
pub use telling::{end_of, tell_alone};

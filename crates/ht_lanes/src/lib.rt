//! Several lanes as one feed of blocks.
//!
//! A [`Lane`] gives blocks out of a source of its own, and puts what comes of their answers into a sink of its own.
//! [`Lanes`] is a feed (`BlockFeed` of crate `ht_feed`) over lanes, sources and sinks that it borrows as slices: it asks
//! the lanes that aren't over in turn, numbers the jobs of all of them from 0, and hands each answer to the lane of the oldest
//! block that is due; a block ([`LaneBlock`]) also has the number of its first job in its lane. A lane whose sink failed
//! rests: what is still due of it is dropped, and the others go on. What a lane keeps back it puts once no answers come
//! any more ([`finish_lanes`]). [`drive_lanes_alone`] runs all blocks of lanes in the calling thread, and finishes them.
//!
//! What the feed leads to is said by a relation that sees one lane with its own source and sink (`AllLead` in
//! `specs/Lanes.antt`). So nothing is said of an order, and nothing said of one lane mentions another.
//!
//! An [`InFlightLane`] is a lane over an in-flight reader, and a [`LaneConsumer`] says what becomes of its hits. Its relation is
//! that of a feed over one in-flight reader (`TellsBy` of crate `ht_feed`), so all that is said there of whole inputs, faults,
//! failing sources and lack of memory holds of it.
//!
//! Of two lanes with three and one blocks of two jobs, say, the four blocks have the jobs 0 and 1, 2 and 3, 4 and 5,
//! and 6 and 7 of all lanes. The one lane numbers its own jobs from 0 to 5, and the other from 0 to 1. No clause says
//! which lane a block is of.
#![tactic(auto)]

mod asking;
mod driving;
mod finishing;
mod giving;
mod in_flight_lane;
mod lane;
mod lane_block;
mod lane_consumer;
mod lane_due;
mod lanes;
mod settling;

pub use driving::drive_lanes_alone;
pub use finishing::finish_lanes;
pub use in_flight_lane::InFlightLane;
pub use lane::Lane;
pub use lane_block::LaneBlock;
pub use lane_consumer::LaneConsumer;
pub use lane_due::LaneDue;
pub use lanes::Lanes;

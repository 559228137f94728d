//! Where the receiver meets the outside: what octets are read from, what they are put into, and
//! what can be wrong with them.
//!
//! A [`Source`] gives octets in pieces of any length and answers `Ok(0)` at its end. A [`Sink`] takes
//! one piece after another. Either may fail, and then counts it: a caller that blames a device can be
//! held against the device's own count of faults. Contracts also see the octets that a source has
//! left and a sink holds, where they are known: of the devices in memory always, of those over std's
//! readers and writers never.
//!
//! [`MemSource`] and [`MemSink`] fail where a test wants it, [`SureSource`] and [`SureSink`] never,
//! [`GrowSink`] only for lack of memory; [`StdSource`] and [`StdSink`] are the edge to the machine.
//! What is read is judged by its reader, whose answer is an [`InFault`].
//!
//! So a source of the ten octets `0123456789` with a cut at 4 and failing offsets 6 and 6, read
//! with room for eight, gives `0123`, then `45`, fails twice, and gives `6789`.
#![tactic(auto)]

pub mod devices;
pub mod faults;
pub mod grow_sink;
pub mod mem_sink;
pub mod mem_source;
mod space;
pub mod std_device;
mod std_sink;
mod std_source;
pub mod sure_sink;
pub mod sure_source;

pub use devices::{Failed, Sink, Source};
pub use faults::{FormatFault, InFault, Kind};
pub use grow_sink::GrowSink;
pub use mem_sink::MemSink;
pub use mem_source::MemSource;
pub use std_device::{StdDevice, StdSink, StdSource};
pub use sure_sink::SureSink;
pub use sure_source::SureSource;

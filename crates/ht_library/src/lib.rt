//! The layers of the reference receiver as calls for C: each export is one call of a layer, and promises what the layer's own
//! definitions say.
//!
//! A call answers a number: 0 where it did what it promises, else the fault, by the names in [`fault`]. Where it is a fault
//! each output is as it was. No call starts a thread, and none keeps anything once it has answered.
#![tactic(auto)]

mod captures;
mod certificates;
mod chain;
mod crossing;
mod detection;
mod encoders;
mod fault;
mod files;
mod frames;
mod handing;
mod legacy;
mod legacy_decoding;
mod mapping;
mod parsing;
mod sending;
mod sizes;
mod symbols;
mod version;
mod weights;

pub use crossing::{
    MizgaureChannel, MizgaureCost, MizgaureDistance, MizgaureFlaw, MizgaureHit, MizgaureReceived,
    MizgaureRefusal,
};

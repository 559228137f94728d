//! Tests of detection, workers, receivers and commands.
//!
//! The public calls of these crates are called here with ample memory, over jobs and captures whose answers are known, by
//! one thread and by several, and over sources and sinks that fail at each offset in turn. The sphere detector is also held
//! against the one that tries all vectors (`plain_nearest` of `ht_metric`).
//!
//! The tests have a crate of their own, since a check of tests proves their whole crate once more. A test that needs what
//! its crate keeps to itself stands in that crate.
#![tactic(auto)]

#[cfg(test)]
mod cli;
#[cfg(test)]
mod common;
#[cfg(test)]
mod crew;
#[cfg(test)]
mod demo;
#[cfg(test)]
mod equal;
#[cfg(test)]
mod gate;
#[cfg(test)]
mod legacy_rx;
#[cfg(test)]
mod machine;
#[cfg(test)]
mod many;
#[cfg(test)]
mod pam;
#[cfg(test)]
mod pool;
#[cfg(test)]
mod rx;
#[cfg(test)]
mod soft_rx;
#[cfg(test)]
mod sphere;
#[cfg(test)]
mod window;

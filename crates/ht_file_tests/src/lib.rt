//! Tests of devices, words, texts, files, captures and certificates.
//!
//! Each module but `common` and `equal` has tests of one library or of a few that belong together, by their public calls
//! alone: calls with ample memory, files at fault, and sources and sinks that fail or cut their octets where a test wants
//! it. Where a test says so, what is expected was worked by hand from the rules, or comes from files that another program
//! made or spoiled.
//!
//! The tests have a crate of their own because a check of tests proves the whole crate that they stand in once more. Here
//! there is nothing else to prove.
#![tactic(auto)]

// What the tests share.
#[cfg(test)]
mod common;
#[cfg(test)]
mod equal;

// Devices, and what is read from them field by field.
#[cfg(test)]
mod fields;
#[cfg(test)]
mod io;

// What a command is asked, and its lines.
#[cfg(test)]
mod text;
#[cfg(test)]
mod words;

// Files of frames, symbols and bundles, and frames that are drawn.
#[cfg(test)]
mod files;
#[cfg(test)]
mod sim;

// Captures: job by job, in blocks, through an in-flight reader, and written.
#[cfg(test)]
mod capture;
#[cfg(test)]
mod capture_symbol_blocks;
#[cfg(test)]
mod capture_writing;
#[cfg(test)]
mod in_flights;

// Certificates.
#[cfg(test)]
mod certify;
#[cfg(test)]
mod check;
#[cfg(test)]
mod witness;

//! Tests of the coding chain, sending and decoding, from the bits of octets over the scrambler, the encoder, the parsers,
//! the interleaver and the constellations to the frames of both clauses, and back again, also by weights.
//!
//! Each module has the name of the crate whose public calls it makes, without `ht_`, and makes them with ample memory: on
//! worked examples, on the longest lengths, on what they refuse, and on words and frames with errors. The modules' comments
//! say where expected values come from: `rate` and `scramble` have values of the standard, `clause18` those of its annex
//! L.1, `interleave` values from outside, and `soft` what other programs found. `viterbi` tries all inputs of short words
//! in turn, and holds its decoders against each other. `weighing` holds all weights of a job that one search finds against those
//! of the two halves of each label bit, of which every vector is tried. `rounding` holds what lanes find of hostile jobs against
//! the detector that tries all vectors.
//!
//! These tests have a crate of their own because a check of tests proves their whole crate once more.
#![tactic(auto)]

// What the tests share.
#[cfg(test)]
mod equal;

// Octets, and what rates and frames are called.
#[cfg(test)]
mod bits;
#[cfg(test)]
mod heads;
#[cfg(test)]
mod rate;

// The steps of the chain, in the order of sending.
#[cfg(test)]
mod conv;
#[cfg(test)]
mod interleave;
#[cfg(test)]
mod landing;
#[cfg(test)]
mod map;
#[cfg(test)]
mod parse;
#[cfg(test)]
mod pilot;
#[cfg(test)]
mod scramble;

// Frames that are sent.
#[cfg(test)]
mod clause18;
#[cfg(test)]
mod tx;

// Points that are detected.
#[cfg(test)]
mod rounding;

// Frames that are decoded.
#[cfg(test)]
mod inverse;
#[cfg(test)]
mod legacy_inverse;
#[cfg(test)]
mod soft;
#[cfg(test)]
mod viterbi;
#[cfg(test)]
mod weighing;

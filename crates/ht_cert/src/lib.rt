//! Files of certificates of detection (HTCT), read as they come from any source and written.
//!
//! A file begins with the octets `HTCT`, the version 1 and the number of records, at most 2^37. A record has a job and
//! its certificate: the modulation (0 to 3 for BPSK, QPSK, 16-QAM and 64-QAM), the number of streams (1 to 4), the
//! triangle and the samples as a capture has them, a claimed point for each stream, the claimed distance in 16 octets, and
//! the number of marks, at most 2^25; then the marks, 1 for an open level and 0 for a cut one. Behind the last record the
//! file ends. The job has the full constellation on each stream (IEEE Std 802.11-2012, clause 20.3.11.9).
//!
//! `48 54 43 54 01 00 00 00 00 00 00 00 01` begins a file of one record. `00 01 00 0a 00 00 00 03 ff ff ff fc` is a job
//! in BPSK on one stream, with the diagonal 10 and the sample 3 - 4j; `01 00` claims the point (1, 0), 15 octets 0 and
//! `41` the distance 65, and `00 00 00 03 01 00 01` has the marks open, cut and open. With a 2 as the last octet the
//! file is BadMark there, at 49, and with an octet more it is Trailing at 50.
//!
//! `RecordReader` reads the records one by one into a record of the caller's. A number of marks takes no memory: each is
//! kept as it comes. `write_start` and `write_record` put a file and take none; a `Block` gathers records, so that many are
//! put at once. What was written is a file of these
//! records, each file is the one that is written of its records, and no file is a prefix of another.
#![tactic(auto)]

mod block;
mod decoding;
mod fields;
pub mod laws;
mod reader;
mod record;
mod turn;
mod writing;

pub use block::Block;
pub use reader::{RecordReader, RecordStep};
pub use record::Record;
pub use writing::{write_record, write_start};

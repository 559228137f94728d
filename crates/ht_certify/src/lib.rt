//! The certificates of a capture, by which anyone can check each detected vector without trusting the detector, and files of
//! them checked.
//!
//! `certify_capture` reads a capture of either version (HTCP, crate `ht_capture`) to its end, and then puts the file of
//! certificates (HTCT, crate `ht_cert`) of its data jobs, in their order. A record has the modulation of the job's frame,
//! the job, its first nearest vector with the distance, and the marks of a walk that cuts wherever it may (crate
//! `ht_witness`). The jobs of pilot subcarriers have one vector each and no record (IEEE Std 802.11-2012, clause
//! 20.3.11.10). The number of records stands in front of them, so the data jobs are counted before anything is put.
//!
//! In BPSK on one stream with d = 10 and y = (3, -4) the record claims (1, 0) at 65, with the marks open, cut and open.
//!
//! [`check_file`] reads such a file from a source and puts a line for each record into a sink: whether its certificate holds,
//! and if not, the first thing that is wrong with it, as crate `ht_witness` judges. Nothing is searched, and the file may come
//! from anyone. For a file of three certificates, the first that of the job above, the second with the distance 64, and the
//! third without its last mark, the lines are
//!
//! ```text
//! job 0 yes
//! job 1 no WrongDistance at 65
//! job 2 no Short at 2
//! end 3 jobs yes 1
//! ```
//!
//! If the input isn't a file of certificates, the records before the first fault have their lines, and the answer names the
//! fault.
#![tactic(auto)]

mod certifying;
pub mod check_laws;
mod check_putting;
mod checking;
pub mod laws;
mod lines;
mod making;
mod putting;
mod score;
mod subcarriers;

pub use certifying::certify_capture;
pub use checking::check_file;

//! Certificates of detection: what lets somebody check a detected vector without trust in the search.
//!
//! A job (crate `ht_metric`) asks for the first nearest vector of its grid (IEEE Std 802.11-2012, 20.3.11). A
//! [`Certificate`] claims a vector and its distance, and has the marks of a walk through the tree of suffixes (crate
//! `ht_sphere`). The walk begins at the empty suffix. At each suffix it goes through the allowed levels of the next
//! coordinate, from Q of the last stream down to I of the first, in ascending order, and takes one mark for each. A level
//! that is cut has a partial distance above the claimed one, so nothing behind it is as near. A level that is open is
//! walked in turn before the next one, or completes a vector, which is neither nearer than the claimed one nor as near
//! and before it. So the marks leave no better vector out.
//!
//! [`certify`] searches, and cuts wherever it may. [`check`] doesn't search: it takes one step for each mark, and no memory.
//! Whatever it accepts has the job's first nearest vector, whoever made the certificate; the law stands in [`laws`].
//!
//! In BPSK on one stream with d = 10 and y = (3, -4) the vector is (1, 0) at 65. Q has the one level 0, at 16: open.
//! I = -1 is at 185: cut. I = 1 is at 65: open, and it completes the claimed vector itself. These three marks are the
//! certificate. With the first two of them alone the answer is `Short(2)`, and with a fourth one `Long(3)`.
#![tactic(auto)]

mod ascending;
mod certificate;
mod certifying;
mod check_fault;
mod checking;
mod claim;
mod flaw;
pub mod laws;
mod levels;
mod marking;
mod marks;
mod off_grid;
mod visitor;
mod walk;

pub use certificate::Certificate;
pub use certifying::{certify, certify_into};
pub use check_fault::CheckFault;
pub use checking::check;
pub use marks::Marks;

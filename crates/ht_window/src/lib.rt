//! Answers that come in any order, given out in the order in which their jobs were issued.
//!
//! A [`Window`] has a slot for each job that was issued and whose hit was not yet given out, in order. What is found
//! for the jobs comes in any order, as hits ([`Window::accept`]) or beside the jobs ([`Window::accept_found`]); each
//! answer goes into the slot of its job, and [`Window::emit`] joins job and answer of the first slot, once it is there,
//! to its hit. An answer is only taken for the very job that was issued: another of the same number is a stranger.
//!
//! In a window of three slots the jobs 0, 1 and 2 are issued. The answer to 1 comes and is kept, and nothing is given
//! out. The answer to 0 comes: the hit of 0 is given out, then that of 1, and there is room for the jobs 3 and 4.
#![tactic(auto)]

mod slot;
mod window;

pub use window::{Accepted, Window};

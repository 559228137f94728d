//! Lists inside larger values.
//!
//! A [`List`] holds a vector. A contract sees it as the list of its items, and nothing of how the vector grows. So a
//! struct with a list in it is seen as a record with a list in it, wherever a contract speaks of the struct:
//!
//! ```text
//! pub struct Symbol {
//!     pub number: u32,
//!     pub points: List<Point>,
//! }
//!
//! pub fn symbol(number: u32, points: Vec<Point>) -> Symbol
//!     ensures { result ≡ record { number = number; points = points.items } }
//! {
//!     Symbol {
//!         number,
//!         points: List::from(points),
//!     }
//! }
//! ```
//!
//! `symbol.points.as_slice()` lends the items, and `symbol.points.into_vec()` gives the vector back.
//!
//! Where workers take jobs in any order, what is known of two lists is often that they have the same members, each as often.
//! `SameCounts` of `specs/Counts.antt` is that word, for all crates that cite it.
#![tactic(auto)]

mod list;

pub use list::List;

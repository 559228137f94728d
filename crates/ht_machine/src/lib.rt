//! The pool of workers as a machine with no threads: what may happen, and what holds whatever happens.
//!
//! A [`Machine`] has the issued jobs, what each actor has in hand, each actor's deque, the results (hits that are finished
//! and not booked), the booked hits and the emitted ones. Actor 0 is the caller. An [`Event`] is one step: [`enabled`]
//! says whether it may come, [`step`] makes it, and [`place_of`] says where a job is.
//!
//! After every legal list of events each issued job is in one place, once; at most as many jobs as the window are
//! issued and not emitted; the emitted hits are those of the first issued jobs, in order; and while a job is under
//! way, some event other than `Issue` may come. `laws` says so of the definitions, for whole lists of events.
//!
//! With two actors: the caller issues job 0 and pushes it on its deque, and actor 1 steals it. The caller issues job
//! 1, finishes it and accepts its hit. `Emit` may not come yet, since job 0 is still in hand 1. Once it is finished
//! and accepted, `Emit` comes twice, for job 0 and then for job 1.
#![tactic(auto)]

mod deque;
mod enabling;
mod event;
mod finding;
pub mod laws;
mod machine;
mod moves;
pub mod window_laws;

pub use enabling::enabled;
pub use event::{Event, Spot, StepFault};
pub use finding::place_of;
pub use machine::Machine;
pub use moves::step;

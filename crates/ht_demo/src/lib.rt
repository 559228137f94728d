//! A demonstration of the whole receiver from a few numbers: sample frames are sent, pass a simulated channel and are
//! received, and one line sums up the result.
//!
//! A [`Plan`] says which frames, at which rate, and how much noise. The frames are those of `sample_frames` of `ht_sim`,
//! their symbols those of `transmit_all` of `ht_tx` (IEEE Std 802.11-2012, clause 20.3.11), and the capture is what
//! `through_channel` of `ht_sim` makes of them. The channel has a random generator of its own, which begins from the same
//! seed as that of the frames. The capture is received as `ht_rx` receives any other, without knowing what was sent.
//!
//! `IsDemoLine` in `specs/Demos.antt` says which line that is. A plan of eight frames of 100 octets at 20 MHz, MCS 0, from
//! the seed 42, without noise, has the line
//!
//! ```text
//! demo frames 8 symbols 256 jobs 14336 matched 8 data 0 pilot 0 code 0
//! ```
//!
//! with 32 symbols a frame and 56 subcarriers a symbol. [`demo_alone`] makes it in the calling thread, and [`demo`] with
//! workers in threads. Without noise every frame comes back, at distance 0, whatever the plan ([`laws::noiseless`]).
#![tactic(auto)]

mod demonstration;
pub mod laws;
mod line;
mod plan;
mod sent;

pub use demonstration::{demo, demo_alone};
pub use plan::Plan;

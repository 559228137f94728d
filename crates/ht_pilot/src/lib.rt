//! The pilots.
//!
//! Each symbol carries known values on its pilot subcarriers, 4 at 20 MHz and 6 at 40 MHz, on each
//! spatial stream (IEEE Std 802.11-2012, clause 20.3.11.10). Pilot k of symbol n has the value
//! (v, 0), and [`pilot`] gives v: the polarity `p[(n + 3) mod 127]` of the scrambling sequence,
//! where the 3 counts the symbols of L-SIG and HT-SIG in an HT-mixed header, and negated where
//! `(n + k + i) mod N_SP = 0` on stream i. Symbols and pilots count from 0, and streams from 1.
//! This pattern over pilots and streams is the project's own: the tables of that clause give one
//! for each number of streams.
//!
//! At 20 MHz and one stream, p[3] is 1 and p[4] is -1: the pilots of symbol 0 are 1, 1, 1, -1, and
//! those of symbol 1 are -1, -1, 1, -1.
#![tactic(auto)]

mod pilots;

pub use pilots::pilot;

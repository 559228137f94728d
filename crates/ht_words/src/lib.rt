//! What the words of a call of `radio` ask for.
//!
//! The first word is a command. The words behind it come in pairs: an option of that command with two dashes, and a
//! number of 1 to 20 decimal digits, in any order and no option twice. [`Asked::of`] takes the words without the
//! program's name and gives the command with a value for each of its options, or nothing where the words aren't
//! accepted: any other form, an option that the command hasn't, or a number that is none of the option's values.
//!
//! `rx --window 007` asks for a receiver with 4 workers, which is the default, and a window of 7 jobs; `rx --window=7`,
//! `rx --window +7` and `rx --seed 7` aren't accepted. The words are this receiver's own; the standard has none.
//!
//! The digits of an option, or those of its default, are read by `clap`, which takes memory. The only error is a lack
//! of it.
#![tactic(auto)]

mod asked;
pub mod laws;
mod plain;
mod read;
mod setting;

pub use asked::Asked;

//! What "the first of the nearest" means, said once for every detector and decoder.
//!
//! A detector looks for the constellation vector that lies nearest to what was received, and a
//! Viterbi decoder for the codeword that differs from it in the fewest bits. Both have ties, and
//! both settle a tie by an order: of two that are as near, the earlier one is the answer.
//!
//! The definitions in `specs/Nearest.antt` say this for any kind of value, any cost, any test of
//! membership and any test of order: as a relation, `IsFirstNearest`, and as a function over a list
//! of candidates, `first_nearest`. Of the costs 5, 3, 4, 3 at the numbers 0, 1, 2, 3 the first
//! nearest number is 1.
//!
//! The module `laws` has what follows from the definitions alone.
#![tactic(auto)]

pub mod laws;

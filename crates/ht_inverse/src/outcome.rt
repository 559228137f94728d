//! What a frame comes to.

use crate::octets::Octets;

/// What the decoded bits of a frame come to.
#[derive(Debug, Drop)]
pub enum Outcome {
    /// The octets of the PSDU.
    Octets(Octets),
    /// The seven bits that give the seed of the scrambler are all 0, which no seed gives.
    SeedZero,
}

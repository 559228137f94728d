//! What a step costs from each state, and how much more by a 1: a lane for each of the 64 states, for each pair of
//! received places.
ghost use Rattle.std.specs.Prelude.{◌≡◌, ◌<◌, ℕ, false};
ghost use Rattle.ht_viterbi.specs.Trellis.{StepCosts, branch_cost};
ghost use Rattle.ht_viterbi.specs.Lanes.{HasLanes, HoldsRows, StepPlaces, hard_costs, rise, row_costs};

use crate::bit_costs::BitCosts;
use crate::lanes::differences;
use crate::pairs::{StepCosts, cost_of_branch};
use std::simd::prelude::*;

// The received places of a step's bits A and B; None where one is erased or punctured.
type StepPlaces = (Option<bool>, Option<bool>);

/// A row of all states for each of the nine pairs.
pub(crate) type Branches = [u8x64; 9];

// What its places cost.
fn costs_at(pair: StepPlaces) -> StepCosts
    ensures { result ≡ hard_costs pair }
{
    (BitCosts::at(pair.0), BitCosts::at(pair.1))
}

// What a step of this pair costs from each state.
fn costs_of_pair(pair: StepPlaces, bit: bool) -> u8x64
    ensures { HasLanes result (λ k. branch_cost (hard_costs pair) k bit) }
{
    let step = costs_at(pair);
    let mut costs = [0u8; 64];
    for state in 0..64usize {
        costs[state] = cost_of_branch(step, state, bit) as u8;
    }
    u8x64::from_array(costs)
}

// What a 1 costs more than a 0 in a step of this pair, from each state, modulo 256.
fn rises_of_pair(pair: StepPlaces) -> u8x64
    ensures { HasLanes result (rise (hard_costs pair)) }
{
    differences(costs_of_pair(pair, true), costs_of_pair(pair, false))
}

// What a 0 costs at each pair.
pub(crate) fn costs_of_zero() -> Branches
    ensures { HoldsRows result (λ step k. branch_cost step k false) }
{
    [
        costs_of_pair((None, None), false),
        costs_of_pair((None, Some(false)), false),
        costs_of_pair((None, Some(true)), false),
        costs_of_pair((Some(false), None), false),
        costs_of_pair((Some(false), Some(false)), false),
        costs_of_pair((Some(false), Some(true)), false),
        costs_of_pair((Some(true), None), false),
        costs_of_pair((Some(true), Some(false)), false),
        costs_of_pair((Some(true), Some(true)), false),
    ]
}

// What a 1 costs more at each pair.
pub(crate) fn rises() -> Branches
    ensures { HoldsRows result rise }
{
    [
        rises_of_pair((None, None)),
        rises_of_pair((None, Some(false))),
        rises_of_pair((None, Some(true))),
        rises_of_pair((Some(false), None)),
        rises_of_pair((Some(false), Some(false))),
        rises_of_pair((Some(false), Some(true))),
        rises_of_pair((Some(true), None)),
        rises_of_pair((Some(true), Some(false))),
        rises_of_pair((Some(true), Some(true))),
    ]
}

// The row of a step.
#[inline(always)]
pub(crate) fn lanes_of(branches: &Branches, row: u8) -> u8x64
    requires { row < 9 }
    ensures { (value : StepCosts → ℕ → ℕ) → HoldsRows branches.now value → HasLanes result (value (row_costs row)) }
{
    branches[usize::from(row)]
}

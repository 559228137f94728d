//! The walk through the tree of suffixes.
ghost use Rattle.std.specs.Prelude.{◌+◌, ◌-◌, ◌*◌, ◌^◌, [], ◌++◌, List, drop, OnOk};
ghost use Rattle.ht_metric.specs.Jobs.{IsJob};
ghost use Rattle.ht_sphere.specs.Coordinates.{i_at, from_q, from_i, IsAimed};
ghost use Rattle.ht_witness.specs.Walks.{AreChosen, CanWalk, Suffix, Walked, below};
ghost use Rattle.ht_witness.specs.Certificates.{roots};

use crate::ascending::{ascending, next};
use crate::visitor::Visitor;
use ht_metric::Job;
use ht_sphere::remainder::{cost, remainder_of};

// Walks the tree of a job from the empty suffix on.
pub(crate) fn walk<V: Visitor>(job: &Job, visitor: &V, state: &mut V::State) -> Result<(), V::Break>
    ensures walked { Walked (V.outcome visitor.now) V.stops state.old (roots job.now) state.new [] result }
    ensures job { IsJob job.now }
{
    let streams = job.system().streams();
    let mut levels = [0i8; 8];
    let levels = &mut levels[..2 * usize::from(streams)];
    quadrature(job, visitor, streams, levels, 0, state)
}

// Walks what is below the chosen levels, from Q of stream k on, which is counted from 1.
#[cycle(walk)]
fn quadrature<V: Visitor>(
    job: &Job,
    visitor: &V,
    k: u8,
    levels: &mut [i8],
    partial: u128,
    state: &mut V::State,
) -> Result<(), V::Break>
    requires { CanWalk job.now k levels.old partial (2 ^ 128) }
    ensures levels { OnOk result (AreChosen (2 * k) levels.old levels.new) }
    ensures walked { (rest : List Suffix) → Walked (V.outcome visitor.now) V.stops
        state.old (below (from_q job.now.system job.now.grid (k - 1)) (drop (2 * k) levels.old) partial ++ rest) state.new rest result }
{
    let slot = 2 * usize::from(k) - 1;
    let left = remainder_of(job, k, levels);
    let mut walk = ascending(job.grid().q_ladder(k));
    while let Some(level) = next(&mut walk) {
        let next = partial + u128::from(cost(left.d, left.im, level));
        levels[slot] = level;
        match visitor.visit(slot, levels, next, state) {
            Ok(true) => {
                match in_phase(job, visitor, k, left.d, left.re, levels, next, state) {
                    Ok(()) => (),
                    Err(stop) => return Err(stop),
                }
            }
            Ok(false) => (),
            Err(stop) => return Err(stop),
        }
    }
    Ok(())
}

// The same from I of stream k on, of which Q is chosen.
#[cycle(walk)]
fn in_phase<V: Visitor>(
    job: &Job,
    visitor: &V,
    k: u8,
    d: u16,
    target: i64,
    levels: &mut [i8],
    partial: u128,
    state: &mut V::State,
) -> Result<(), V::Break>
    requires ready { CanWalk job.now k levels.old partial (2 ^ 128 + 2 ^ 64) }
    requires aimed { IsAimed (i_at job.now.system job.now.grid (k - 1)) (drop (2 * k - 1) levels.old) d target }
    ensures levels { OnOk result (AreChosen (2 * k - 1) levels.old levels.new) }
    ensures walked { (rest : List Suffix) → Walked (V.outcome visitor.now) V.stops
        state.old (below (from_i job.now.system job.now.grid (k - 1)) (drop (2 * k - 1) levels.old) partial ++ rest) state.new rest result }
{
    let slot = 2 * usize::from(k) - 2;
    let mut walk = ascending(job.grid().i_ladder(k));
    while let Some(level) = next(&mut walk) {
        let both = partial + u128::from(cost(d, target, level));
        levels[slot] = level;
        match visitor.visit(slot, levels, both, state) {
            Ok(true) => {
                if k > 1 {
                    match quadrature(job, visitor, k - 1, levels, both, state) {
                        Ok(()) => (),
                        Err(stop) => return Err(stop),
                    }
                }
            }
            Ok(false) => (),
            Err(stop) => return Err(stop),
        }
    }
    Ok(())
}

//! How the deques of a pool are made, with a taker at each for each thread.
ghost use Rattle.std.specs.Prelude.{◌≡◌, ◌<◌, ◌≤◌, length, map, IfOk, OnOk, vec_capacity};
ghost use Rattle.std.specs.List.{All};
ghost use Rattle.ht_pool.specs.Takers.{OwnView, fresh_taker, fresh_own};
ghost use Rattle.ht_pool.specs.Opening.{AreReady, own_deques, lent};

use crate::own::OwnDeque;
use crate::taker::Taker;
use std::alloc::{AllocError, Global};

// A number of deques, each surely with room for `capacity` tasks.
fn open_all<T: Drop>(
    alloc: Global,
    workers: usize,
    capacity: u16,
) -> Result<Vec<OwnDeque<T>>, AllocError>
    requires few { workers ≤ 64 }
    ensures fresh { IfOk result (λ owners. owners.items ≡ map (fresh_own 1024 capacity) (own_deques owners.items)) }
    ensures count { IfOk result (λ owners. length owners.items ≡ workers) }
    ensures room { IfOk result (λ owners. workers ≤ vec_capacity owners) }
{
    let mut owners = Vec::with_capacity(alloc, workers)?;
    for _ in 0..workers {
        owners.push_reserved(OwnDeque::open(alloc, capacity)?);
    }
    Ok(owners)
}

// A taker at each deque.
fn taker_row<T: Drop>(
    alloc: Global,
    owners: &mut [OwnDeque<T>],
) -> Result<Vec<Taker<T>>, AllocError>
    requires few { length owners.old ≤ 64 }
    requires some { All (λ (o : OwnView T). 1 < o.parts) owners.old }
    ensures owners { OnOk result (owners.new ≡ lent 1 owners.old) }
    ensures takers { IfOk result (λ takers. takers.items ≡ map fresh_taker (own_deques owners.old)) }
{
    let mut takers = Vec::with_capacity(alloc, owners.len())?;
    for at in 0..owners.len() {
        takers.push_reserved(owners[at].taker()?);
    }
    Ok(takers)
}

// For each thread a taker at each deque.
fn taker_rows<T: Drop>(
    alloc: Global,
    owners: &mut [OwnDeque<T>],
) -> Result<Vec<Vec<Taker<T>>>, AllocError>
    requires few { length owners.old ≤ 64 }
    requires all { All (λ (o : OwnView T). o.parts ≡ 1024) owners.old }
    ensures owners { OnOk result (owners.new ≡ lent (length owners.old) owners.old) }
    ensures rows { IfOk result (λ rows. All (λ takers. takers.items ≡ map fresh_taker (own_deques owners.old)) rows.items) }
    ensures count { IfOk result (λ rows. length rows.items ≡ length owners.old) }
    ensures room { IfOk result (λ rows. length owners.old ≤ vec_capacity rows) }
{
    let mut rows = Vec::with_capacity(alloc, owners.len())?;
    for _ in 0..owners.len() {
        rows.push_reserved(taker_row(alloc, owners)?);
    }
    Ok(rows)
}

/// A number of deques, each with room for a number of tasks, and for each thread a taker at each.
pub(crate) fn open_with_takers<T: Drop>(
    alloc: Global,
    workers: usize,
    capacity: u16,
) -> Result<(Vec<OwnDeque<T>>, Vec<Vec<Taker<T>>>), AllocError>
    requires few { workers ≤ 64 }
    ensures ready { IfOk result (λ made. AreReady (own_deques made.0.items) made.0.items made.1.items) }
    ensures capacities { IfOk result (λ made. All (λ (o : OwnView T). o.capacity ≡ capacity) made.0.items) }
    ensures count { IfOk result (λ made. (length made.0.items ≡ workers) × (workers ≤ vec_capacity made.0)) }
    ensures rows { IfOk result (λ made. (length made.1.items ≡ workers) × (workers ≤ vec_capacity made.1)) }
{
    let mut owners = open_all(alloc, workers, capacity)?;
    let rows = taker_rows(alloc, owners.as_mut_slice())?;
    Ok((owners, rows))
}

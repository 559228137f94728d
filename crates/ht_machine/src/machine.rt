//! The state of a pool.
ghost use Rattle.std.specs.Prelude.{◌≡◌, ◌≤◌, [], replicate, None, IfOk};
ghost use Rattle.ht_machine.specs.Machine.{empty};
ghost use Rattle.ht_machine.specs.Facts.{IsMachine, CanGoOn};

use crate::deque::Deque;
use ht_metric::{Hit, Job};
use std::alloc::{AllocError, Global};
use std::marker::Model;

/// The state of a pool: the issued jobs, and where each of them is.
///
/// Each issued job is in one place, once: in an actor's hand, in an actor's deque, among the results, booked, or
/// emitted. At most as many jobs as the window are issued and not emitted. The emitted hits are those of the first
/// issued jobs, in order.
#[derive(Drop)]
pub struct Machine {
    pub(crate) workers: u8,
    pub(crate) window: u16,
    pub(crate) issued: Vec<Job>,
    pub(crate) hands: Vec<Option<Job>>,
    pub(crate) deques: Vec<Deque>,
    pub(crate) results: Vec<Hit>,
    pub(crate) booked: Vec<Hit>,
    pub(crate) emitted: Vec<Hit>,
}

impl Model for Machine {
    ghost use Rattle.ht_machine.specs.Machine.{MachineView, machine_view};
    ghost use Rattle.ht_machine.specs.Facts.{IsMachine};

    ghost Value = { MachineView };

    ghost view = { λ c. machine_view c.workers c.window c.issued.items c.hands.items c.deques.items c.results.items c.booked.items c.emitted.items };

    ghost invariant = { λ c. IsMachine
        (machine_view c.workers c.window c.issued.items c.hands.items c.deques.items c.results.items c.booked.items c.emitted.items) };
}

impl Machine {
    /// A pool of 1 to 64 actors, the caller among them, and a window of 1 to 4096 jobs. Nothing is issued.
    pub fn new(alloc: Global, workers: u8, window: u16) -> Result<Machine, AllocError>
        requires some { 1 ≤ workers }
        requires few { workers ≤ 64 }
        requires wide { 1 ≤ window }
        requires narrow { window ≤ 4096 }
        ensures empty { IfOk result (λ c. c ≡ empty workers window) }
        ensures machine { IfOk result IsMachine }
        ensures going { IfOk result CanGoOn }
    {
        Ok(Machine {
            workers,
            window,
            issued: Vec::new(alloc),
            hands: hands(alloc, workers)?,
            deques: deques(alloc, workers)?,
            results: Vec::new(alloc),
            booked: Vec::new(alloc),
            emitted: Vec::new(alloc),
        })
    }
}

// An empty hand for each actor.
fn hands(alloc: Global, workers: u8) -> Result<Vec<Option<Job>>, AllocError>
    ensures { IfOk result (λ hands. hands.items ≡ replicate workers None) }
{
    let mut hands = Vec::new(alloc);
    for _ in 0..workers {
        hands.push(None)?;
    }
    Ok(hands)
}

// An empty deque for each actor.
fn deques(alloc: Global, workers: u8) -> Result<Vec<Deque>, AllocError>
    ensures { IfOk result (λ deques. deques.items ≡ replicate workers []) }
{
    let mut deques = Vec::new(alloc);
    for _ in 0..workers {
        deques.push(Deque::new(alloc))?;
    }
    Ok(deques)
}

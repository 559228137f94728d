//! What holds after every legal list of events. None of these functions does anything.
ghost use Rattle.std.specs.Prelude.{◌≡◌, ◌≢◌, ◌<◌, ◌≤◌, ℕ, List, length, map, take};
ghost use Rattle.ht_machine.specs.declared.event.Event.{Event as EventValue};
ghost use Rattle.ht_machine.specs.declared.event.Spot.{Spot as SpotValue};
ghost use Rattle.ht_metric.specs.Hits.{found_of};
ghost use Rattle.ht_metric.specs.Jobs.{near};
ghost use Rattle.ht_machine.specs.Machine.{MachineView, after_all, empty, IsLegal};
ghost use Rattle.ht_machine.specs.Facts.{IsMachine, CanGoOn, jobs_at, numbered};

/// What holds after every list of events, begun with the empty machine, of which each is enabled in its turn.
pub fn after_legal_events()
    ensures machine { (workers window : ℕ) (events : List EventValue)
        → 1 ≤ workers → workers ≤ 64 → 1 ≤ window → window ≤ 4096
        → IsLegal (empty workers window) events
        → IsMachine (after_all (empty workers window) events) }
    ensures going { (workers window : ℕ) (events : List EventValue)
        → 1 ≤ workers → workers ≤ 64 → 1 ≤ window → window ≤ 4096
        → IsLegal (empty workers window) events
        → CanGoOn (after_all (empty workers window) events) }
{}

/// The emitted hits have the first nearest vectors of the first issued jobs, in order.
pub fn emitted_are_near()
    ensures { (c : MachineView) → IsMachine c → map found_of c.emitted ≡ map near (take (length c.emitted) c.issued) }
{}

/// A place that has a job of some number has it once, the number is issued, and no other place has it.
pub fn one_place()
    ensures { (c : MachineView) (number : ℕ) (spot : SpotValue)
        → IsMachine c → 0 < numbered number (jobs_at c spot)
        → (number < length c.issued) × (numbered number (jobs_at c spot) ≡ 1)
        × ((other : SpotValue) → other ≢ spot → numbered number (jobs_at c other) ≡ 0) }
{}

//! What each event of the pool does to its window. None of these functions does anything.
ghost use Rattle.std.specs.Prelude.{◌≡◌, ◌↔◌, ◌+◌, ◌^◌, ◌<◌, ℕ, [], ◌∷◌, ◌++◌, length, drop, Some, IsSome, option_map};
ghost use Rattle.ht_metric.specs.Hits.{parts_of};
ghost use Rattle.ht_metric.specs.Jobs.{JobView};
ghost use Rattle.ht_metric.specs.declared.hit.Hit.{Hit};
ghost use Rattle.ht_machine.specs.declared.event.Event.TheVariants.{Issue, Push, Pop, Steal, Finish, Accept, Emit};
ghost use Rattle.ht_machine.specs.Machine.{MachineView, IsEnabled, after, hit_of};
ghost use Rattle.ht_machine.specs.Facts.{IsMachine};
ghost use Rattle.ht_window.specs.Windows.{unbooked, front_hit, IsWindow};
ghost use Rattle.ht_window.specs.Accepting.{IsUnbooked, Books};
ghost use Rattle.ht_machine.specs.Shown.{window_of};

/// The slots are no more than the window, numbered from the front on, and what is in a slot is the first nearest vector
/// of its job.
pub fn is_window()
    ensures { (c : MachineView) → IsMachine c → length c.issued < 2 ^ 64 → IsWindow (window_of c) }
{}

/// `Issue` is `issue`: where it may come there is a free slot and the job's number is the next one, and the job is then the
/// last slot, and waits.
pub fn issue()
    ensures free_slot { (c : MachineView) (job : JobView) → IsMachine c → IsEnabled c (Issue job) → length (window_of c).slots < (window_of c).capacity }
    ensures next { (c : MachineView) (job : JobView) → IsMachine c → IsEnabled c (Issue job) → job.number ≡ (window_of c).front + length (window_of c).slots }
    ensures issued { (c : MachineView) (job : JobView) → IsMachine c → IsEnabled c (Issue job) → window_of (after c (Issue job)) ≡ record {
      capacity = (window_of c).capacity;
      front = (window_of c).front;
      slots = (window_of c).slots ++ unbooked job ∷ [];
    } }
{}

/// `Accept` is `accept` of the result of its number: a slot holds its job and waits for the answer, which it then has.
pub fn accept()
    ensures unbooked { (c : MachineView) (number : ℕ) (hit : Hit) → IsMachine c → hit_of number c.results ≡ Some hit → IsUnbooked (window_of c) hit.job }
    ensures books { (c : MachineView) (number : ℕ) (hit : Hit) → IsMachine c → hit_of number c.results ≡ Some hit
        → Books (window_of c) hit.job (window_of (after c (Accept number))) }
{}

/// `Emit` is `emit`: it may come where the first slot doesn't wait, its hit is the one emitted, and the slot is then out.
pub fn emit()
    ensures enabled { (c : MachineView) → IsMachine c → IsEnabled c Emit ↔ IsSome (front_hit (window_of c).slots) }
    ensures hit { (c : MachineView) → IsMachine c
        → option_map parts_of (hit_of (length c.emitted) c.booked) ≡ front_hit (window_of c).slots }
    ensures emitted { (c : MachineView) → IsMachine c → IsEnabled c Emit → window_of (after c Emit) ≡ record {
      capacity = (window_of c).capacity;
      front = (window_of c).front + 1;
      slots = drop 1 (window_of c).slots;
    } }
{}

/// The other events change no window.
pub fn others()
    ensures push { (c : MachineView) (a : ℕ) → window_of (after c (Push a)) ≡ window_of c }
    ensures pop { (c : MachineView) (a : ℕ) → window_of (after c (Pop a)) ≡ window_of c }
    ensures steal { (c : MachineView) (thief owner : ℕ) → window_of (after c (Steal thief owner)) ≡ window_of c }
    ensures finish { (c : MachineView) (a : ℕ) (hit : Hit) → window_of (after c (Finish a hit)) ≡ window_of c }
{}

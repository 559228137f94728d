//! What follows from the definition of a demonstration's line. The function does nothing: its contract is a law.
ghost use Rattle.std.specs.Prelude.{◌≡◌, ℕ, List};
ghost use Rattle.ht_demo.specs.declared.plan.Plan.{Plan as PlanValue};
ghost use Rattle.ht_demo.specs.Demos.{CanBeSent, IsDemoLine, returned_line};

/// Without noise every frame comes back with the octets that were sent, and all sums are 0.
///
/// So eight frames of 100 octets at 20 MHz, MCS 0, have the line
/// `demo frames 8 symbols 256 jobs 14336 matched 8 data 0 pilot 0 code 0`, whatever the seed.
pub fn noiseless()
    ensures { (plan : PlanValue) (line : List ℕ) → CanBeSent plan → IsDemoLine plan line → plan.noise ≡ 0 → line ≡ returned_line plan }
{}

//! What holds of files of symbols that pass the channel.
ghost use Rattle.std.specs.Prelude.{◌≡◌, ℕ, List};
ghost use Rattle.ht_sim.specs.Passing.{PassesTo};

/// With the same seed and noise a file of symbols passes to no more than one capture.
pub fn one_capture()
    ensures { (seed noise : ℕ) (octets first second : List ℕ)
        → PassesTo seed noise octets first → PassesTo seed noise octets second → first ≡ second }
{}

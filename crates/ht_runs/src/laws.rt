//! What the promise of a run says where octets are known, or where no device failed.
//!
//! Each law is a function with an empty body. A run goes from the source `a` to `b` and from the sink `c` to `d`.
ghost use Rattle.std.specs.Prelude.{◌≡◌, ◌⊎◌, ℕ, List, [], Some};
ghost use Rattle.ht_io.specs.Devices.{Device, Grows, Rose};
ghost use Rattle.ht_io.specs.declared.faults.FormatFault.{FormatFault as FormatFaultValue};
ghost use Rattle.ht_fields.specs.Grammar.{Grammar};
ghost use Rattle.ht_fields.specs.Meanings.{meaning};
ghost use Rattle.ht_runs.specs.declared.faults.RunFault.{RunFault as RunFaultValue};
ghost use Rattle.ht_runs.specs.Formats.{IsWhole, filter};
ghost use Rattle.ht_runs.specs.Streamed.{FinishesRun, StopsAtFault, StreamFails};

use crate::faults::RunFault;

/// What a call comes to that reads a file of a format and writes while it reads.
pub fn streams<S, I>()
    // Known octets were all taken where the answer is good, and are a file, whose text was put. At their first fault the
    // text of them all was put but for the line of the fault.
    ensures known_whole { (f : Grammar S I) (text lines : List ℕ → List ℕ) (all : List ℕ) (a b c d : Device ℕ) → a.known ≡ Some all
        → FinishesRun (filter f text lines) a b c d → IsWhole f all × Grows c d (text all) × (b.known ≡ Some []) }
    ensures known_fault { (f : Grammar S I) (text lines : List ℕ → List ℕ) (all : List ℕ) (fault : FormatFaultValue) (a b c d : Device ℕ)
        → a.known ≡ Some all → StopsAtFault (filter f text lines) a b c d fault
        → (IsWhole f all → ⊥) × ((meaning f f.start 0 all).fault ≡ Some fault) × Grows c d (lines all) }

    // Where no device failed and the answer isn't the good one, it is the first fault or lack of memory.
    ensures unfailed { (f : Grammar S I) (text lines : List ℕ → List ℕ) (fault : RunFaultValue) (a b c d : Device ℕ)
        → StreamFails (filter f text lines) a b c d fault → (Rose a b → ⊥) → (Rose c d → ⊥)
        → ((first : FormatFaultValue) × (fault ≡ RunFault.Format first)) ⊎ (fault ≡ RunFault.NoMemory) }
{}

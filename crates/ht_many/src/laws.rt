//! What the ends of captures say where octets are known and no device failed.
ghost use Rattle.std.specs.Prelude.{◌≡◌, ◌⊎◌, ℕ, List, Some};
ghost use Rattle.ht_io.specs.Devices.{Device, Grows, Rose};
ghost use Rattle.ht_io.specs.declared.faults.FormatFault.{FormatFault as FormatFaultValue};
ghost use Rattle.ht_results.specs.Texts.{rx_text};
ghost use Rattle.ht_many.specs.declared.many_end.ManyEnd.{ManyEnd as ManyEndValue};
ghost use Rattle.ht_many.specs.declared.many_end.ManyEnd.TheVariants.{Done, Refused};
ghost use Rattle.ht_many.specs.Alone.{Alone};

/// Where neither device of a capture failed, the capture is Done or Refused, and its text is that of its octets alone,
/// whatever the other captures hold and whichever of their devices fail: so two calls put the same text of the same
/// capture.
pub fn unfailed()
    ensures ends { (end : ManyEndValue) (a b c d : Device ℕ) → Alone a b c d end → (Rose a b → ⊥) → (Rose c d → ⊥)
        → ((frames : ℕ) × (end ≡ Done frames)) ⊎ ((fault : FormatFaultValue) × (end ≡ Refused fault)) }
    ensures text { (end : ManyEndValue) (all : List ℕ) (a b c d : Device ℕ) → a.known ≡ Some all → Alone a b c d end
        → (Rose a b → ⊥) → (Rose c d → ⊥) → Grows c d (rx_text all) }
    ensures same { (end other : ManyEndValue) (all text₁ text₂ : List ℕ) (a b c d b' d' : Device ℕ) → a.known ≡ Some all
        → d.known ≡ Some text₁ → d'.known ≡ Some text₂ → Alone a b c d end → Alone a b' c d' other
        → (Rose a b → ⊥) → (Rose c d → ⊥) → (Rose a b' → ⊥) → (Rose c d' → ⊥) → text₁ ≡ text₂ }
{}

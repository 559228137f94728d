//! What holds of every format, whatever its states and items are.
ghost use Rattle.std.specs.Prelude.{◌≡◌, ◌+◌, ◌<◌, ◌++◌, [], ◌∷◌, ℕ, List, Some, None, length, take};
ghost use Rattle.ht_io.specs.declared.faults.Kind.{Kind};
ghost use Rattle.ht_io.specs.declared.faults.Kind.TheVariants.{Truncated, Trailing};
ghost use Rattle.ht_fields.specs.Grammar.{Grammar, Good, Bad};
ghost use Rattle.ht_fields.specs.Cases.{Case, Meets, IsFile, IsClean, HasTrailing, HasFault, IsEnd, IsField, IsShort, IsCut, CanEnd, Leads, octets_of_fields};
ghost use Rattle.ht_fields.specs.Meanings.{meaning, before, cut_off, ended, refused, fault_of};

/// Each list of octets meets exactly one of the four cases, with one list of items.
pub fn one_case<S, I>()
    ensures some { (f : Grammar S I) (octets : List ℕ)
        → (items : List I) × (case : Case) × Meets f octets items case }
    ensures only { (f : Grammar S I) (octets : List ℕ) (items others : List I) (case other : Case)
        → Meets f octets items case → Meets f octets others other
        → (items ≡ others) × (case ≡ other) }
{}

/// The meaning of a list of octets is that of its case.
pub fn meaning_of_case<S, I>()
    // The case gives the meaning.
    ensures met { (f : Grammar S I) (octets : List ℕ) (items : List I) (case : Case)
        → Meets f octets items case
        → meaning f f.start 0 octets ≡ record { items = items; fault = fault_of (length octets) case } }

    // The meaning gives the case.
    ensures found { (f : Grammar S I) (octets : List ℕ)
        → (case : Case) × Meets f octets (meaning f f.start 0 octets).items case
        × ((meaning f f.start 0 octets).fault ≡ fault_of (length octets) case) }
    ensures file { (f : Grammar S I) (octets : List ℕ)
        → (meaning f f.start 0 octets).fault ≡ None
        → IsFile f octets (meaning f f.start 0 octets).items }
    ensures clean { (f : Grammar S I) (octets : List ℕ)
        → (meaning f f.start 0 octets).fault ≡ Some (record { kind = Truncated; offset = length octets })
        → IsClean f octets (meaning f f.start 0 octets).items }
{}

/// No file is a prefix of another, and equal files have equal items.
pub fn no_prefix<S, I>()
    ensures prefix { (f : Grammar S I) (octets more : List ℕ) (items others : List I)
        → IsFile f octets items → IsFile f (octets ++ more) others → more ≡ [] }
    ensures equal { (f : Grammar S I) (octets : List ℕ) (items others : List I)
        → IsFile f octets items → IsFile f octets others → items ≡ others }
{}

/// A fault is decided by the octets up to the end of the field at fault, and a trailing octet by those up to
/// itself: whatever follows, the fault and the items before it stay.
pub fn fault_stays<S, I>()
    ensures bad { (f : Grammar S I) (octets : List ℕ) (items : List I) (kind : Kind) (offset : ℕ)
        → HasFault f octets items kind offset
        → (front rest : List ℕ) × (octets ≡ front ++ rest) × (offset < length front)
        × ((other : List ℕ) → HasFault f (front ++ other) items kind offset) }
    ensures trailing { (f : Grammar S I) (octets other : List ℕ) (items : List I) (offset : ℕ)
        → HasTrailing f octets items offset
        → HasTrailing f (take (offset + 1) octets ++ other) items offset }
{}

/// Behind good fields the meaning is their items, and then that of the rest, whatever the rest is.
pub fn fields_first<S, I>()
    ensures many { (f : Grammar S I) (s t : S) (at : ℕ)
        (fields : List (List ℕ)) (items : List I) (rest : List ℕ)
        → Leads f s fields items t
        → meaning f s at (octets_of_fields fields ++ rest)
        ≡ before items (meaning f t (at + length (octets_of_fields fields)) rest) }
    ensures one { (f : Grammar S I) (s t : S) (at : ℕ) (x : List ℕ) (items : List I) (rest : List ℕ)
        → IsField (f.due s) x (Good t items)
        → meaning f s at (x ++ rest) ≡ before items (meaning f t (at + length x) rest) }
{}

/// What stops a reading: the end of the file, an octet behind it, an early end, or a bad field.
pub fn stops<S, I>()
    ensures whole { (f : Grammar S I) (s : S) (at : ℕ)
        → IsEnd (f.due s) → meaning f s at [] ≡ ended }
    ensures trailing { (f : Grammar S I) (s : S) (at x : ℕ) (rest : List ℕ)
        → IsEnd (f.due s) → meaning f s at (x ∷ rest) ≡ refused Trailing at }
    ensures early { (f : Grammar S I) (s : S) (at : ℕ) (octets : List ℕ)
        → IsShort (f.due s) octets → meaning f s at octets ≡ refused Truncated (at + length octets) }
    ensures bad { (f : Grammar S I) (s : S) (at : ℕ) (x rest : List ℕ) (kind : Kind)
        → IsField (f.due s) x (Bad kind) → meaning f s at (x ++ rest) ≡ refused kind at }
{}

/// Octets that are good fields and then fewer than the next field has have no fault but their early end.
pub fn clean<S, I>()
    ensures { (f : Grammar S I) (s t : S) (at : ℕ) (fields : List (List ℕ)) (items : List I) (rest : List ℕ)
        → Leads f s fields items t → IsShort (f.due t) rest
        → meaning f s at (octets_of_fields fields ++ rest) ≡ cut_off items (at + length (octets_of_fields fields ++ rest)) }
{}

/// The first whole fields of a file, and then fewer octets than its next field has, are clean. In a format where good fields
/// can always be continued to a file, all clean octets are of that kind.
pub fn clean_is_cut<S, I>()
    ensures cut { (f : Grammar S I) (octets : List ℕ)
        → IsCut f octets → (items : List I) × IsClean f octets items }
    ensures clean { (f : Grammar S I) (octets : List ℕ) (items : List I)
        → CanEnd f → IsClean f octets items → IsCut f octets }
{}

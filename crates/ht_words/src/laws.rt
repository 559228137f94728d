//! What is said of words, beside what they ask for. Each law is a function with an empty body.
ghost use Rattle.std.specs.Prelude.{◌≡◌, ◌≢◌, true, List, [], ◌∷◌, String, Some, All, Contains, codes, is_some, map, string_bytes};
ghost use Rattle.std.specs.Global.{Global};
ghost use Rattle.std.specs.Str.Parse.{digits_value};
ghost use Rattle.ht_words.specs.Accepted.{AreGiven, IsAccepted, GivenOption, words_of};
ghost use Rattle.ht_words.specs.Settings.{default_of};
ghost use Rattle.ht_words.specs.Words.{Row, asked, commands, value_of};
ghost use Rattle.ht_words.specs.declared.setting.Setting.{Setting as SettingValue};

/// Words ask for something exactly where they are accepted: the name of a command, and behind it some of its options, none
/// of them twice, each with a number that it may have. So it is for every list of words, of whatever octets each word.
pub fn accepted()
    ensures asks { (words : List (String Global)) → IsAccepted (map string_bytes words) → is_some (asked words) ≡ true }
    ensures only { (words : List (String Global)) → is_some (asked words) ≡ true → IsAccepted (map string_bytes words) }
{}

/// What accepted words ask for: what the row of their command says, by the values of its options.
pub fn commanded()
    ensures { (words : List (String Global)) (row : Row) (pairs : List GivenOption) → Contains commands row → AreGiven row.options pairs
        → map string_bytes words ≡ row.name ∷ words_of pairs → asked words ≡ Some (row.asks (words_of pairs)) }
{}

/// The value of an option is the number that its digits mean where it is given, and else its default.
pub fn values()
    ensures given { (options : List SettingValue) (pairs : List GivenOption) (pair : GivenOption) → AreGiven options pairs → Contains pairs pair
        → value_of (words_of pairs) pair.setting ≡ digits_value 10 pair.digits }
    ensures default { (pairs : List GivenOption) (setting : SettingValue) → All (λ pair. pair.setting ≢ setting) pairs
        → value_of (words_of pairs) setting ≡ default_of setting }
{}

/// Some lists of words, worked out.
pub fn worked()
    // Zeros may stand in front, up to 20 digits, and the options in any order.
    ensures alone { IsAccepted (codes "rx" ∷ []) }
    ensures zeros { IsAccepted (codes "rx" ∷ codes "--window" ∷ codes "00000000000000000007" ∷ codes "--workers" ∷ codes "64" ∷ []) }

    // No name stands twice, no number has 21 digits or a sign, and no option is another command's.
    ensures twice { IsAccepted (codes "rx" ∷ codes "--window" ∷ codes "7" ∷ codes "--window" ∷ codes "7" ∷ []) → ⊥ }
    ensures long { IsAccepted (codes "rx" ∷ codes "--window" ∷ codes "000000000000000000007" ∷ []) → ⊥ }
    ensures signed { IsAccepted (codes "rx" ∷ codes "--window" ∷ codes "+7" ∷ []) → ⊥ }
    ensures foreign { IsAccepted (codes "rx" ∷ codes "--seed" ∷ codes "7" ∷ []) → ⊥ }

    // Neither is a number out of its range, a name without a number, nor an unknown command.
    ensures above { IsAccepted (codes "rx" ∷ codes "--window" ∷ codes "4097" ∷ []) → ⊥ }
    ensures bare { IsAccepted (codes "rx" ∷ codes "--window" ∷ []) → ⊥ }
    ensures unknown { IsAccepted (codes "receive" ∷ []) → ⊥ }
    ensures nothing { IsAccepted [] → ⊥ }
{}

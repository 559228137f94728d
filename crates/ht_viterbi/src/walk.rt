//! The way forwards through the trellis.
ghost use Rattle.std.specs.Prelude.{◌≡◌, ◌≤◌, List, [], length, vec_capacity};
ghost use Rattle.ht_viterbi.specs.Trellis.{StepCosts, first_from, AreChoices};

use crate::pairs::state_after;
use crate::words::is_set;

// The input that the choices lead to from state 0.
pub(crate) fn forwards(choices: &[u64], input: &mut Vec<bool>)
    requires room { length choices.now ≤ vec_capacity input.old }
    requires fresh { input.old.items ≡ [] }
    ensures { (steps : List StepCosts) → length steps ≡ length choices.now → AreChoices steps choices.now → input.new.items ≡ first_from steps 0 }
{
    let mut state = 0usize;
    for word in choices {
        let bit = is_set(*word, state);
        input.push_reserved(bit);
        state = state_after(state, bit);
    }
}

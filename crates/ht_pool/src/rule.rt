//! The rule of a deque of tasks and of the queue of answers, for tasks and answers of any type.

use crate::pass_log::PassLog;
use crossbeam_deque::protocol as deque_rule;
use crossbeam_queue::protocol as queue_rule;

/// What was pushed is what was taken and what is held, counted with repeats.
pub struct CountingRule;

impl<T> deque_rule::Protocol<T, PassLog<T>> for CountingRule {
    ghost use Rattle.std.specs.Prelude.{[]};
    ghost use Rattle.ht_pool.specs.PassLogs.{pass_log, IsCounted};

    ghost holds = { IsCounted };

    ghost first = { pass_log 1024 [] [] };

    ghost guest = { pass_log 0 [] [] };
}

impl<T> queue_rule::Protocol<T, PassLog<T>> for CountingRule {
    ghost use Rattle.std.specs.Prelude.{[]};
    ghost use Rattle.ht_pool.specs.PassLogs.{pass_log, IsCounted};

    ghost holds = { IsCounted };

    ghost first = { pass_log 1024 [] [] };
}

/// One part is cut off for a pass that has pushed and taken nothing; two passes become one with the lists of both.
pub struct Cut;

impl<T> deque_rule::Split<PassLog<T>> for Cut {
    ghost use Rattle.std.specs.Prelude.{[], ◌-◌};
    ghost use Rattle.ht_pool.specs.PassLogs.{pass_log};

    ghost left = { λ v. pass_log (v.parts - 1) v.pushed v.taken };

    ghost right = { λ v. pass_log 1 [] [] };
}

impl<T> deque_rule::Join<PassLog<T>> for Cut {
    ghost use Rattle.std.specs.Prelude.{[]};
    ghost use Rattle.ht_pool.specs.PassLogs.{pass_log, joined};

    ghost both = { joined };

    ghost spent = { pass_log 0 [] [] };
}

/// Something is pushed.
pub struct Push;

impl<T> deque_rule::Outcome<T, PassLog<T>> for Push {
    ghost use Rattle.std.specs.Prelude.{◌≡◌, ◌++◌};
    ghost use Rattle.ht_pool.specs.PassLogs.{pass_log};

    ghost then = { λ v tasks w. w ≡ pass_log v.parts (v.pushed ++ tasks) v.taken };
}

impl<T> queue_rule::Outcome<T, PassLog<T>> for Push {
    ghost use Rattle.std.specs.Prelude.{◌≡◌, ◌++◌, ◌∷◌, []};
    ghost use Rattle.ht_pool.specs.PassLogs.{pass_log};

    ghost then = { λ v answer w. w ≡ pass_log v.parts (v.pushed ++ answer ∷ []) v.taken };
}

/// Something is taken.
pub struct Take;

impl<T> deque_rule::Outcome<T, PassLog<T>> for Take {
    ghost use Rattle.std.specs.Prelude.{◌≡◌, ◌++◌};
    ghost use Rattle.ht_pool.specs.PassLogs.{pass_log};

    ghost then = { λ v tasks w. w ≡ pass_log v.parts v.pushed (v.taken ++ tasks) };
}

impl<T> queue_rule::Outcome<T, PassLog<T>> for Take {
    ghost use Rattle.std.specs.Prelude.{◌≡◌, ◌++◌, ◌∷◌, []};
    ghost use Rattle.ht_pool.specs.PassLogs.{pass_log};

    ghost then = { λ v answer w. w ≡ pass_log v.parts v.pushed (v.taken ++ answer ∷ []) };
}

/// Who has every part knows the whole.
pub struct Whole;

impl<T> deque_rule::Lesson<T, PassLog<T>> for Whole {
    ghost use Rattle.ht_pool.specs.PassLogs.{AddsUp};

    ghost fact = { AddsUp };
}

impl<T> queue_rule::Lesson<T, PassLog<T>> for Whole {
    ghost use Rattle.ht_pool.specs.PassLogs.{AddsUp};

    ghost fact = { AddsUp };
}

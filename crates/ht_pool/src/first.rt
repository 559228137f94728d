//! Vectors that are used up from the front.
ghost use Rattle.std.specs.Prelude.{◌≡◌, ◌++◌, [], IfNone, vec_capacity};
ghost use Rattle.std.specs.Option.{option_to_list};

/// Takes the first member of a vector out, if there is one; the others move up.
pub(crate) fn take_first<X>(all: &mut Vec<X>) -> Option<X>
    ensures items { all.old.items ≡ option_to_list result ++ all.new.items }
    ensures none { IfNone result (all.old.items ≡ []) }
    ensures capacity { vec_capacity all.new ≡ vec_capacity all.old }
{
    if all.is_empty() {
        return None;
    }
    Some(all.remove(0))
}

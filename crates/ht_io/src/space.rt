//! Octets put into memory that is there already.
ghost use Rattle.std.specs.Prelude.{◌≡◌, ◌+◌, ◌≤◌, ◌++◌, length, take, drop, vec_len, vec_capacity};

/// Appends the octets, for which the vector has capacity, and so takes no memory.
pub(crate) fn append(space: &mut Vec<u8>, octets: &[u8])
    requires { vec_len space.old + length octets.now ≤ vec_capacity space.old }
    ensures items { space.new.items ≡ space.old.items ++ octets.now }
    ensures len { vec_len space.new ≡ vec_len space.old + length octets.now }
    ensures capacity { vec_capacity space.old ≤ vec_capacity space.new }
{
    space.extend_from_slice(octets).unwrap();
}

/// Copies this number of octets, the first of them the one at `at`, to the front of `into`.
pub(crate) fn copy_front(octets: &[u8], at: usize, count: usize, into: &mut [u8])
    requires octets { at + count ≤ length octets.now }
    requires room { count ≤ length into.old }
    ensures front { drop at octets.now ≡ take count into.new ++ drop (at + count) octets.now }
    ensures behind { drop count into.new ≡ drop count into.old }
    ensures length { length into.new ≡ length into.old }
{
    into[..count].copy_from_slice(&octets[at..at + count]);
}

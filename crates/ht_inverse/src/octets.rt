//! Lists of octets.
use ht_list::List;

/// A list of octets. A contract sees it as that list.
pub type Octets = List<u8>;

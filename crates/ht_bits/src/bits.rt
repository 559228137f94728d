//! Lists of bits.
use ht_list::List;

/// A list of bits. A contract sees it as that list.
pub type Bits = List<bool>;

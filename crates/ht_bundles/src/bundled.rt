//! A capture of a bundle.
use ht_list::List;

/// The octets of one capture of a bundle.
pub type Bundled = List<u8>;

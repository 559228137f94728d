//! Lists of marks.

use ht_list::List;

/// A mark for each level that the walk of a certificate goes through: `true` where the level is open, `false` where it
/// is cut.
///
/// Made from a vector by `Marks::from`, which keeps its memory and takes none.
pub type Marks = List<bool>;

//! Lists of points.
use ht_list::List;
use ht_pam::Point;

/// A list of points. A contract sees it as that list.
pub type Points = List<Point>;

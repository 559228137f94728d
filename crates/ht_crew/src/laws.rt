//! What follows for a feed over a list. None of these functions does anything.
ghost use Rattle.std.specs.Prelude.{◌≡◌, [], length, map, take};
ghost use Rattle.ht_feed.specs.Feeds.{IsLeft};
ghost use Rattle.ht_crew.specs.Lists.{Listed, nearest_answer, answer_of, shown, TakesInTurn};

/// A feed over a list that had taken nothing, and of which nothing is due or left, has taken the first nearest
/// vector of each of its jobs, in order. So this is what a drive leaves where it answers `Ok`.
pub fn takes_all()
    ensures { (old new : Listed) → old.hits ≡ [] → TakesInTurn old new → (shown new).due ≡ [] → IsLeft (shown new).left []
        → map answer_of new.hits ≡ map nearest_answer old.jobs }
{}

/// However a drive ends, a feed over a list that had taken nothing has taken the first nearest vectors of the
/// first of its jobs, in order.
pub fn takes_first()
    ensures { (old new : Listed) → old.hits ≡ [] → TakesInTurn old new → map answer_of new.hits ≡ map nearest_answer (take (length new.hits) old.jobs) }
{}

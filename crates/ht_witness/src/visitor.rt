//! What is done on a walk.
ghost use Rattle.std.specs.Prelude.{List};
ghost use Rattle.ht_witness.specs.Walks.{Suffix, IsAt, Visited};

// What looks at each suffix that a walk comes to, and says whether the walk goes on below it.
pub(crate) trait Visitor {
    // What changes from suffix to suffix.
    type State;

    // Why a walk stops.
    type Break;

    // What comes of a walk.
    ghost Outcome: { Type 0 };

    // What comes of a walk that is in this state and still has these suffixes to go through in turn.
    ghost outcome: { Self → Self.State → List Suffix → Outcome };

    // A walk of which this would come may stop in this state, for this reason.
    ghost stops: { Outcome → Self.State → Self.Break → Type 0 };

    // Whether what is below a suffix is to be walked. It has this number of coordinates ahead, and the levels from that
    // place on.
    fn visit(
        &self,
        ahead: usize,
        levels: &[i8],
        partial: u128,
        state: &mut Self::State,
    ) -> Result<bool, Self::Break>
        ensures { (s : Suffix) (rest : List Suffix) → IsAt ahead levels.now partial s
            → Visited (outcome self.now) stops state.old s rest state.new result };
}

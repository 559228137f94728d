//! What reads heads and blocks.
ghost use Rattle.std.specs.Prelude.{◌≡◌, ◌≤◌, ℕ, List, map, true, IfNone, IfOk, IfSome, MatchResult};
ghost use Rattle.ht_io.specs.Devices.{Device, IsLater};
ghost use Rattle.ht_fields.specs.Meanings.{Meaning};
ghost use Rattle.ht_fields.specs.Readers.{Gives};
ghost use Rattle.ht_feed.specs.Items.{Item, One};
ghost use Rattle.ht_feed.specs.Reading.{Counts, CountsBlock, CountsCame, GivesCame, Halts, view};

use crate::came::Came;
use crate::jobs::Jobs;
use ht_io::{InFault, Source};

/// What reads the heads of frames, and blocks of jobs behind each, from the octets of a source.
///
/// In each state a reader says what the octets mean that still come: a list of heads and jobs, and a fault behind them
/// or none. What a call gives is the first of that, in any division into blocks. Jobs are numbered from 0 over an
/// input.
pub trait BlockReader {
    /// The head of a frame.
    type Head: Copy + Drop;

    /// Some jobs of the frame that began last, which follow one another.
    type Block: Jobs + Drop;

    /// What octets mean if exactly these still come.
    ghost means: { Self → List ℕ → Meaning (Item Self.Head) };

    /// How many octets were read.
    ghost at: { Self → ℕ };

    /// How many jobs were given, and how many heads and jobs still come at most.
    ghost counts: { Self → Counts };

    /// Reads on to the next head, the next block of at most `most` jobs, or the end. Behind a fault or the end it can't
    /// be asked again.
    fn next<S: Source>(
        &mut self,
        most: u16,
        source: &mut S,
    ) -> Result<Came<Self::Head, Self::Block>, InFault>
        requires going { (counts self.old).going ≡ true }
        requires some { 1 ≤ most }
        ensures told { MatchResult result
            (GivesCame Self.Block.jobs (view means at self.old (S.shown source.old)) (view means at self.new (S.shown source.new)))
            (Halts (view means at self.old (S.shown source.old)) (S.shown source.new)) }
        ensures counted { IfOk result (CountsCame Self.Block.jobs most (counts self.old) (counts self.new)) }
        ensures never_more { (counts self.new).more ≤ (counts self.old).more }
        ensures later { IsLater (S.shown source.old) (S.shown source.new) };

    /// The next block of at most `most` jobs out of what was read, if there is one. It asks no source, so nothing can
    /// fail.
    fn ready(&mut self, most: u16) -> Option<Self::Block>
        requires going { (counts self.old).going ≡ true }
        requires some { 1 ≤ most }
        ensures told { IfSome result (λ block. (source : Device ℕ)
            → Gives (view means at self.old source) (view means at self.new source) (map One (Self.Block.jobs block))) }
        ensures counted { IfSome result (λ block. CountsBlock most (counts self.old) (counts self.new) (Self.Block.jobs block)) }
        ensures none { IfNone result (self.new ≡ self.old) };
}

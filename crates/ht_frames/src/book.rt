//! Where the results of frames go.
ghost use Rattle.std.specs.Prelude.{◌≡◌, ◌∷◌, [], ℕ, List, Option, OnErr, OnOk};
ghost use Rattle.ht_io.specs.Devices.{Device};
ghost use Rattle.ht_io.specs.Pieces.{KnownGrown};
ghost use Rattle.ht_frames.specs.Gathering.{BooksPieces};

use ht_feed::BookFault;

/// What results of frames are booked in: a list that keeps them, or a sink that their lines are put into.
pub trait Book<T> {
    /// What is booked, piece by piece, as contracts see it: results, or the octets of their lines.
    type Piece;

    /// The pieces that were booked where they are known, and how often booking failed.
    ghost shown: { Self → Device Self.Piece };

    /// Which borrows lead to its device.
    ghost lent: { Self → List ℕ };

    /// The pieces of a result.
    ghost booked: { T → List Self.Piece };

    /// The results that it keeps, where it keeps them.
    ghost results: { Self → Option (List T) };

    /// Books a result behind the others. A refusal leaves a part of its pieces there, and the results that are kept as
    /// they were.
    fn frame(&mut self, frame: T) -> Result<(), BookFault>
        ensures books { BooksPieces result (shown self.old) (shown self.new) (booked frame) (lent self.old) (lent self.new) }

        // A result is kept whole, or not at all.
        ensures kept { OnOk result (KnownGrown (results self.old) (results self.new) (frame ∷ [])) }
        ensures unkept { OnErr result (results self.new ≡ results self.old) };
}

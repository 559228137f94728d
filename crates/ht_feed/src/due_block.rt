//! A block that is due, as an in-flight reader keeps it.
ghost use Rattle.std.specs.Prelude.{◌≡◌, ◌≤◌, length, true};
ghost use Rattle.ht_feed.specs.Dues.{StartsAt, due_of};

use crate::jobs::Jobs;
use crate::reader::BlockReader;
use ht_metric::Place;
use std::marker::Model;
use std::snapshot::Snapshot;

/// A block that is due, as an in-flight reader keeps it: the head of its frame, and the place of its first job. Contracts see the
/// head and all of its jobs.
#[derive(Drop)]
pub struct DueBlock<R: BlockReader> {
    head: R::Head,
    place: Place,
    // The block; it has no octets.
    block: Snapshot<R::Block>,
}

impl<R: BlockReader> Model for DueBlock<R> {
    ghost use Rattle.std.specs.Prelude.{◌≤◌, length};
    ghost use Rattle.ht_feed.specs.Dues.{Due, StartsAt, due_of};

    ghost Value = { Due R.Head };

    ghost view = { λ d. due_of d.head (R.Block.jobs d.block.value) };

    ghost invariant = { λ d. StartsAt d.place (R.Block.jobs d.block.value) × (1 ≤ length (R.Block.jobs d.block.value)) };
}

impl<R: BlockReader> DueBlock<R> {
    /// What is kept of a block whose frame has this head.
    pub fn of(head: &R::Head, block: &R::Block) -> DueBlock<R>
        requires { 1 ≤ length (R.Block.jobs block.now) }
        ensures { result ≡ due_of head.now (R.Block.jobs block.now) }
    {
        DueBlock {
            head: *head,
            place: block.place(),
            block: Snapshot::of(block),
        }
    }

    /// The head of the block's frame.
    pub fn head(&self) -> &R::Head
        ensures { result.now ≡ self.now.head }
    {
        &self.head
    }

    /// Whether it has a job, as each has.
    pub fn is_some(&self) -> bool
        ensures value { result ≡ true }
        ensures some { 1 ≤ length self.now.jobs }
    {
        // So the struct's invariant is known here.
        let _ = &self.place;
        true
    }

    /// Where in the input its first job comes from.
    pub fn place(&self) -> Place
        ensures { StartsAt result self.now.jobs }
    {
        self.place
    }
}

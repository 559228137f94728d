//! What is due between a reader and a consumer.
ghost use Rattle.std.specs.Prelude.{◌≡◌, ◌-◌, ◌<◌, ◌≤◌, ◌++◌, [], ◌∷◌, None, length, IfOk};
ghost use Rattle.circular_buffer.specs.Buffer.{buffer};
ghost use Rattle.ht_feed.specs.InFlights.{in_flight_view};
ghost use Rattle.ht_feed.specs.Dues.{due_of};
ghost use Rattle.ht_feed.specs.Reading.{IsFreshReader};

use crate::book_fault::BookFault;
use crate::consumer::Consumer;
use crate::due_block::DueBlock;
use crate::jobs::Jobs;
use crate::keeps_in_flight::KeepsInFlight;
use crate::reader::BlockReader;
use crate::reading::next_block;
use crate::room::make_room;
use crate::stop::Stop;
use circular_buffer::HeapCircularBuffer;
use ht_io::Source;
use std::alloc::{AllocError, Global};
use std::marker::Model;

/// A reader, and the blocks that it gave and whose hits weren't taken yet.
#[derive(Drop)]
pub struct InFlight<R: BlockReader + Drop> {
    reader: R,
    // How the reading stopped, once it has.
    stop: Option<Stop>,
    // The head that came last; any, where none came.
    head: R::Head,
    // The number of frames that began.
    frames: u64,
    // The blocks that are due, in order.
    due: HeapCircularBuffer<DueBlock<R>>,
    // The number of jobs given.
    count: u64,
}

impl<R: BlockReader + Drop> Model for InFlight<R> {
    ghost use Rattle.ht_feed.specs.InFlights.{InFlightView, IsSoundInFlight, in_flight_view};

    ghost Value = { InFlightView R R.Head };

    ghost view = { λ d. in_flight_view d.reader d.stop d.head d.frames d.due.items d.count };

    ghost invariant = { λ d. IsSoundInFlight R.counts (in_flight_view d.reader d.stop d.head d.frames d.due.items d.count) };
}

impl<R: BlockReader + Drop> InFlight<R> {
    /// An in-flight reader of a reader that gave nothing yet, with memory for `capacity` blocks that are due. Where more become
    /// due it takes more. Until a head comes, `head` stands for the one that came last. The only error is lack of memory.
    pub fn new(
        alloc: Global,
        reader: R,
        head: R::Head,
        capacity: u16,
    ) -> Result<InFlight<R>, AllocError>
        requires fresh { IsFreshReader (R.counts reader) }
        ensures { IfOk result (λ in_flight. in_flight ≡ in_flight_view reader None head 0 [] 0) }
    {
        Ok(InFlight {
            reader,
            stop: None,
            head,
            frames: 0,
            due: HeapCircularBuffer::with_capacity(alloc, usize::from(capacity))?,
            count: 0,
        })
    }

    /// How the reading stopped, once it has.
    #[must_use]
    pub fn stop(&self) -> Option<Stop>
        ensures { result ≡ self.now.stop }
    {
        self.stop
    }

    /// The number of frames that began.
    #[must_use]
    pub fn frames(&self) -> u64
        ensures { result ≡ self.now.frames }
    {
        self.frames
    }

    /// The number of jobs that were given.
    #[must_use]
    pub fn count(&self) -> u64
        ensures { result ≡ self.now.count }
    {
        self.count
    }
}

impl<R: BlockReader + Drop> KeepsInFlight<R> for InFlight<R> {
    ghost seen = { λ d. d };

    fn next<S: Source>(
        &mut self,
        most: u16,
        source: &mut S,
    ) -> Result<Option<R::Block>, AllocError> {
        make_room(&mut self.due)?;
        let (reader, head, frames) = (&mut self.reader, &mut self.head, &mut self.frames);
        match next_block(reader, head, frames, most, source) {
            Ok(block) => {
                self.count += u64::from(block.size());
                keep(&mut self.due, &self.head, &block);
                Ok(Some(block))
            }
            Err(stop) => {
                self.stop = Some(stop);
                Ok(None)
            }
        }
    }

    fn take<A: Consumer<R>>(
        &mut self,
        block: &R::Block,
        answer: &A::Answer,
        consumer: &mut A,
    ) -> Result<(), BookFault> {
        let Some(first) = self.due.get(0) else {
            unreachable!();
        };
        let head = *first.head();
        match consumer.take(&head, block, answer, &self.due) {
            Ok(()) => {
                let _ = self.due.pop_front();
                Ok(())
            }
            Err(fault) => Err(fault),
        }
    }
}

// Keeps a block that is due behind the others, with the head of its frame.
fn keep<R: BlockReader>(due: &mut HeapCircularBuffer<DueBlock<R>>, head: &R::Head, block: &R::Block)
    requires room { length due.old.items < due.old.capacity }
    requires some { 1 ≤ length (R.Block.jobs block.now) }
    ensures { due.new ≡ buffer (due.old.items ++ due_of head.now (R.Block.jobs block.now) ∷ []) due.old.capacity }
{
    let Ok(()) = due.try_push_back(DueBlock::of(head, block)) else {
        unreachable!();
    };
}

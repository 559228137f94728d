//! A consumer that puts the lines of each block.
ghost use Rattle.std.specs.Prelude.{◌≡◌, ◌∷◌, [], refl};
ghost use Rattle.ht_rx.specs.Heads.{jobs_alone};
ghost use Rattle.ht_results.specs.JobTexts.{job_lines};

use crate::block_lines::Lines;
use circular_buffer::HeapCircularBuffer;
use ht_capture::FrameHead;
use ht_feed::{BlockReader, BookFault, Consumer, DueBlock};
use ht_io::Sink;

/// Puts the lines of each block into a sink, in one put. It keeps nothing back.
#[derive(Drop)]
pub struct Lister<'a, K> {
    sink: &'a mut K,
}

impl<'a, K: Sink> Lister<'a, K> {
    /// A lister that puts lines into this sink. It takes no memory.
    pub fn new(sink: &'a mut K) -> Lister<'a, K>
        ensures sink { result.sink.now ≡ sink.old }
        ensures name { result.sink.ghost_name ≡ sink.entry.ghost_name }
    {
        Lister { sink }
    }
}

impl<'a, R: BlockReader<Head = FrameHead>, K: Sink> Consumer<R> for Lister<'a, K> {
    type Piece = u8;

    type Answer = Lines;

    ghost shown = { λ l. K.shown l.sink.now };

    ghost lent = { λ l. l.sink.ghost_name ∷ [] };

    ghost pieces = { λ l jobs. job_lines (jobs_alone jobs) };

    ghost waits = { λ l due. Unit {0} };

    fn take(
        &mut self,
        _: &FrameHead,
        _: &R::Block,
        lines: &Lines,
        _: &HeapCircularBuffer<DueBlock<R>>,
    ) -> Result<(), BookFault> {
        self.sink.put(lines.text())?;
        Ok(())
    }

    ghost more_due = { λ l due h w. tt };

    ghost none_due = { λ l w. refl };
}

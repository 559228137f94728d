//! A book of lines.
ghost use Rattle.std.specs.Prelude.{◌≡◌, ◌∷◌, [], None};

use crate::book::Book;
use ht_feed::BookFault;
use ht_io::Sink;
use ht_results::Line;
use std::alloc::Global;

/// Puts the line of each result into a sink, each in one put.
#[derive(Drop)]
pub struct TextBook<'a, K> {
    alloc: Global,
    sink: &'a mut K,
}

impl<'a, K: Sink> TextBook<'a, K> {
    /// A book that puts lines into this sink. It takes no memory.
    pub fn new(alloc: Global, sink: &'a mut K) -> TextBook<'a, K>
        ensures sink { result.sink.now ≡ sink.old }
        ensures name { result.sink.ghost_name ≡ sink.entry.ghost_name }
    {
        TextBook { alloc, sink }
    }
}

impl<'a, T: Line + Drop, K: Sink> Book<T> for TextBook<'a, K> {
    type Piece = u8;

    ghost shown = { λ b. K.shown b.sink.now };

    ghost lent = { λ b. b.sink.ghost_name ∷ [] };

    ghost booked = { T.line };

    ghost results = { λ b. None };

    fn frame(&mut self, frame: T) -> Result<(), BookFault> {
        let mut text = String::new(self.alloc);
        frame.push_line(&mut text)?;
        self.sink.put(text.as_bytes())?;
        Ok(())
    }
}

//! A book that keeps results.
ghost use Rattle.std.specs.Prelude.{◌≡◌, ◌∷◌, [], Some};

use crate::book::Book;
use ht_feed::BookFault;
use std::alloc::Global;

/// Keeps the results, in the order in which they were booked. It never fails but for lack of memory.
#[derive(Debug, Drop)]
pub struct ListBook<T> {
    results: Vec<T>,
}

impl<T> ListBook<T> {
    /// A book of no results. It takes no memory.
    pub fn new(alloc: Global) -> ListBook<T>
        ensures { result.results.items ≡ [] }
    {
        ListBook {
            results: Vec::new(alloc),
        }
    }

    /// The results that were booked.
    #[must_use]
    pub fn results(&self) -> &[T]
        ensures { result.now ≡ self.now.results.items }
    {
        &self.results
    }
}

impl<T: Drop> Book<T> for ListBook<T> {
    type Piece = T;

    ghost shown = { λ b. record { known = Some b.results.items; faults = 0; borrow = 0 } };

    ghost lent = { λ b. [] };

    ghost booked = { λ frame. frame ∷ [] };

    ghost results = { λ b. Some b.results.items };

    fn frame(&mut self, frame: T) -> Result<(), BookFault> {
        match self.results.push(frame) {
            Ok(()) => Ok(()),
            Err(_) => Err(BookFault::NoMemory),
        }
    }
}

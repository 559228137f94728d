//! Why a consumer can't go on.
ghost use Rattle.std.specs.Prelude.{◌≡◌};

use ht_io::Failed;
use ht_runs::RunFault;
use std::alloc::AllocError;
use thiserror::Error;

/// Why a consumer of hits, or a feed in front of it, can't go on.
#[derive(Clone, Copy, Debug, PartialEq, Eq, Error)]
pub enum BookFault {
    /// The device that is put into failed.
    #[error("the result can't be booked")]
    Failed,
    /// Out of memory.
    #[error("out of memory")]
    NoMemory,
}

impl From<AllocError> for BookFault {
    ghost use Rattle.ht_feed.specs.declared.book_fault.BookFault.TheVariants.{NoMemory};

    ghost from_gives = { λ _ e. e ≡ NoMemory };

    fn from(_: AllocError) -> BookFault {
        BookFault::NoMemory
    }
}

impl From<Failed> for BookFault {
    ghost use Rattle.ht_feed.specs.declared.book_fault.BookFault.TheVariants.{Failed as BookFailed};

    ghost from_gives = { λ _ e. e ≡ BookFailed };

    fn from(_: Failed) -> BookFault {
        BookFault::Failed
    }
}

impl From<BookFault> for RunFault {
    ghost use Rattle.ht_feed.specs.Stops.{fault_of};

    ghost from_gives = { λ booked fault. fault ≡ fault_of booked };

    fn from(booked: BookFault) -> RunFault {
        match booked {
            BookFault::Failed => RunFault::Write,
            BookFault::NoMemory => RunFault::NoMemory,
        }
    }
}

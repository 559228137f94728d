//! Why a run over a source and a sink didn't do all that it does.
ghost use Rattle.std.specs.Prelude.{◌≡◌};

use ht_io::{Failed, FormatFault, InFault};
use std::alloc::AllocError;
use thiserror::Error;

/// Why a run over a source and a sink didn't put its whole output.
#[derive(Clone, Copy, Debug, PartialEq, Eq, Error)]
pub enum RunFault {
    /// The input isn't of its format; this is its first fault.
    #[error(transparent)]
    Format(FormatFault),
    /// The source failed.
    #[error("the input can't be read")]
    Read,
    /// The sink failed.
    #[error("the output can't be written")]
    Write,
    /// Out of memory.
    #[error("out of memory")]
    NoMemory,
}

impl From<InFault> for RunFault {
    ghost use Rattle.ht_runs.specs.Faults.{fault_of_reading};

    ghost from_gives = { λ reading fault. fault ≡ fault_of_reading reading };

    fn from(reading: InFault) -> RunFault {
        match reading {
            InFault::Format(fault) => RunFault::Format(fault),
            InFault::Read => RunFault::Read,
            InFault::NoMemory => RunFault::NoMemory,
        }
    }
}

// A source that failed is seen by its reader, which answers an `InFault`; so what failed is the sink.
impl From<Failed> for RunFault {
    ghost use Rattle.ht_runs.specs.declared.faults.RunFault.TheVariants.{Write};

    ghost from_gives = { λ _ fault. fault ≡ Write };

    fn from(_: Failed) -> RunFault {
        RunFault::Write
    }
}

impl From<AllocError> for RunFault {
    ghost use Rattle.ht_runs.specs.declared.faults.RunFault.TheVariants.{NoMemory};

    ghost from_gives = { λ _ fault. fault ≡ NoMemory };

    fn from(_: AllocError) -> RunFault {
        RunFault::NoMemory
    }
}

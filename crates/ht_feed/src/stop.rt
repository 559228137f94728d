//! How a reading stopped.
ghost use Rattle.std.specs.Prelude.{◌≡◌};

use ht_io::{FormatFault, InFault};

/// How the reading of an input stopped.
#[derive(Clone, Copy, Debug, PartialEq, Eq)]
pub enum Stop {
    /// The input is whole, and the source ended behind it.
    Whole,
    /// The input has this first fault.
    Refused(FormatFault),
    /// The source failed.
    Broken,
    /// The reader was out of memory.
    Lacking,
}

impl From<InFault> for Stop {
    ghost use Rattle.ht_feed.specs.Stops.{stop_of};

    ghost from_gives = { λ fault stop. stop ≡ stop_of fault };

    fn from(fault: InFault) -> Stop {
        match fault {
            InFault::Format(fault) => Stop::Refused(fault),
            InFault::Read => Stop::Broken,
            InFault::NoMemory => Stop::Lacking,
        }
    }
}

//! What can be wrong with an input.
ghost use Rattle.std.specs.Prelude.{◌≡◌};
ghost use Rattle.ht_io.specs.Kinds.{name_of, number_of};

use std::alloc::AllocError;
use std::fmt;
use thiserror::Error;

/// What can be wrong with an input, in the order of the kinds' numbers.
#[derive(Clone, Copy, Debug, PartialEq, Eq, Error)]
pub enum Kind {
    /// The input does not begin with the magic octets of its format.
    BadMagic = 1,
    /// The format has no such version.
    BadVersion = 2,
    /// The bandwidth is neither 0 (20 MHz) nor 1 (40 MHz).
    BadBandwidth = 3,
    /// The MCS index is above 31; of a clause 18 frame, the number of the rate is above 7.
    BadMcs = 4,
    /// A length or a count is outside the range of its format.
    BadLength = 5,
    /// The input ends before the file is whole.
    Truncated = 6,
    /// An octet follows a whole file.
    Trailing = 7,
    /// The scrambler seed is outside 1 to 127.
    BadSeed = 8,
    /// The point of a data subcarrier is not on the constellation.
    BadPoint = 9,
    /// The point of a pilot subcarrier is not the pilot's value.
    BadPilot = 10,
    /// The flag of a subcarrier is neither 0 nor 1, or all subcarriers of a frame are erased.
    BadErased = 11,
    /// The modulation is none of the four.
    BadModulation = 12,
    /// The number of spatial streams is outside 1 to 4.
    BadStreams = 13,
    /// A mark of a search is neither open nor cut.
    BadMark = 14,
    /// The number of captures of a bundle is outside 1 to 16.
    BadCount = 15,
}

impl Kind {
    /// The kind's number, as 6 for `Truncated`.
    pub fn number(&self) -> u8
        ensures { result ≡ number_of self.now }
    {
        *self as u8
    }

    /// The kind's name, letter for letter, as `Truncated`.
    pub fn name(&self) -> &'static str
        ensures { result.now ≡ name_of self.now }
    {
        match self {
            Kind::BadMagic => "BadMagic",
            Kind::BadVersion => "BadVersion",
            Kind::BadBandwidth => "BadBandwidth",
            Kind::BadMcs => "BadMcs",
            Kind::BadLength => "BadLength",
            Kind::Truncated => "Truncated",
            Kind::Trailing => "Trailing",
            Kind::BadSeed => "BadSeed",
            Kind::BadPoint => "BadPoint",
            Kind::BadPilot => "BadPilot",
            Kind::BadErased => "BadErased",
            Kind::BadModulation => "BadModulation",
            Kind::BadStreams => "BadStreams",
            Kind::BadMark => "BadMark",
            Kind::BadCount => "BadCount",
        }
    }
}

impl fmt::Display for Kind {
    fn fmt<W: fmt::Write>(&self, f: &mut fmt::Formatter<W>) -> fmt::Result {
        f.write_str(self.name())
    }
}

/// The first fault of an input, printed as `BadMcs at 8`.
#[derive(Clone, Copy, Debug, PartialEq, Eq, Error)]
#[error("{kind} at {offset}")]
pub struct FormatFault {
    /// What is wrong.
    pub kind: Kind,
    /// The offset of the field at fault in octets, from the beginning of the input; for `Truncated`
    /// the length of the input.
    pub offset: u64,
}

/// Why an input was not read whole.
#[derive(Clone, Copy, Debug, PartialEq, Eq, Error)]
pub enum InFault {
    /// It is not of its format; this is its first fault.
    #[error(transparent)]
    Format(FormatFault),
    /// Its source failed before a fault was found.
    #[error("the input can't be read")]
    Read,
    /// Memory ran out.
    #[error("out of memory")]
    NoMemory,
}

impl From<FormatFault> for InFault {
    ghost use Rattle.ht_io.specs.declared.faults.InFault.TheVariants.{Format};

    ghost from_gives = { λ fault result. result ≡ Format fault };

    fn from(fault: FormatFault) -> Self {
        InFault::Format(fault)
    }
}

impl From<AllocError> for InFault {
    ghost use Rattle.ht_io.specs.declared.faults.InFault.TheVariants.{NoMemory};

    ghost from_gives = { λ _ result. result ≡ NoMemory };

    fn from(_: AllocError) -> Self {
        InFault::NoMemory
    }
}

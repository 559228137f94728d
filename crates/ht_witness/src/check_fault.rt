//! What can be wrong with a certificate.
ghost use Rattle.std.specs.Prelude.{◌≡◌};
ghost use Rattle.ht_witness.specs.Kinds.{carried_by, name_of, number_of};

use std::fmt;
use thiserror::Error;

/// What is wrong with a certificate, in the order of the kinds' numbers. A mark's index is its place in the list, from 0.
#[derive(Clone, Copy, Debug, PartialEq, Eq, Error)]
pub enum CheckFault {
    /// 1: the claimed point of this stream, counted from 1, is not in the grid, and those of all lower streams are.
    OffGrid(u8),
    /// 2: the claimed vector is of the grid, and its distance is this one.
    WrongDistance(u128),
    /// 3: the mark of this index cuts a level whose partial distance isn't above the claimed distance.
    Early(u64),
    /// 4: the mark of this index opens a level that completes a vector which is nearer than the claimed one, or as near
    /// and before it.
    Better(u64),
    /// 5: the marks, of this number, end before the walk does.
    Short(u64),
    /// 6: the walk ends before the mark of this index.
    Long(u64),
}

impl CheckFault {
    /// The kind's number, 1 to 6, as 5 for `Short`.
    pub fn number(&self) -> u8
        ensures { result ≡ number_of self.now }
    {
        match self {
            CheckFault::OffGrid(_) => 1,
            CheckFault::WrongDistance(_) => 2,
            CheckFault::Early(_) => 3,
            CheckFault::Better(_) => 4,
            CheckFault::Short(_) => 5,
            CheckFault::Long(_) => 6,
        }
    }

    /// The kind's name, letter for letter, as `Short`.
    pub fn name(&self) -> &'static str
        ensures { result.now ≡ name_of self.now }
    {
        match self {
            CheckFault::OffGrid(_) => "OffGrid",
            CheckFault::WrongDistance(_) => "WrongDistance",
            CheckFault::Early(_) => "Early",
            CheckFault::Better(_) => "Better",
            CheckFault::Short(_) => "Short",
            CheckFault::Long(_) => "Long",
        }
    }

    /// The number that the fault carries: a stream, a distance, an index or a count.
    pub fn at(&self) -> u128
        ensures { result ≡ carried_by self.now }
    {
        match self {
            CheckFault::OffGrid(stream) => u128::from(*stream),
            CheckFault::WrongDistance(distance) => *distance,
            CheckFault::Early(at)
            | CheckFault::Better(at)
            | CheckFault::Short(at)
            | CheckFault::Long(at) => u128::from(*at),
        }
    }
}

impl fmt::Display for CheckFault {
    fn fmt<W: fmt::Write>(&self, f: &mut fmt::Formatter<W>) -> fmt::Result {
        write!(f, "{} at {}", self.name(), self.at())
    }
}

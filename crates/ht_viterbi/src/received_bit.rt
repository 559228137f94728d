//! A coded bit as it was received.
ghost use Rattle.std.specs.Prelude.{◌≡◌, ◌<◌, Some, true};
ghost use Rattle.ht_viterbi.specs.Lanes.{number_of_place};
ghost use Rattle.ht_viterbi.specs.Received.{known_of};

/// What is known of a coded bit: nothing where it was lost, or its hard decision. It takes one octet, where an
/// `Option<bool>` takes two.
#[derive(Clone, Copy, Debug, PartialEq, Eq)]
pub enum ReceivedBit {
    /// The place is erased.
    Erased,
    /// A 0 was received.
    Zero,
    /// A 1 was received.
    One,
}

impl ReceivedBit {
    /// The received bit of a place, None where it is erased.
    #[inline(always)]
    pub fn of(place: Option<bool>) -> ReceivedBit
        ensures { known_of result ≡ place }
    {
        match place {
            None => ReceivedBit::Erased,
            Some(false) => ReceivedBit::Zero,
            Some(true) => ReceivedBit::One,
        }
    }

    // Its number, in the order of the table of branches.
    #[inline(always)]
    pub(crate) fn number(self) -> u8
        ensures value { result ≡ number_of_place (known_of self) }
        ensures bound { result < 3 }
    {
        match self {
            ReceivedBit::Erased => 0,
            ReceivedBit::Zero => 1,
            ReceivedBit::One => 2,
        }
    }
    // Whether it is known to be this bit.
    #[inline(always)]
    pub(crate) fn is(self, bit: bool) -> bool
        ensures { result ≡ true → known_of self ≡ Some bit }
    {
        self.number() == 1 + u8::from(bit)
    }
}

//! What octets are read from and put into.
ghost use Rattle.std.specs.Prelude.{◌≡◌, ◌<◌, ◌≤◌, ℕ, List, length, take, IfOk, OnOk, OnErr};
ghost use Rattle.ht_io.specs.Devices.{Device, Takes, NoneExactlyAtEnd, Grows, GrowsByPart, Rose, IsLater};

use thiserror::Error;

/// A device answered that it failed. Its own count of faults has risen.
#[derive(Clone, Copy, Debug, PartialEq, Eq, Error)]
#[error("the device failed")]
pub struct Failed;

/// A device that octets are read from.
pub trait Source {
    /// The octets still to come where they are known, how often the source has failed, and which
    /// borrow it is, where it is one.
    ghost shown: { Self → Device ℕ };

    /// The octets at hand: the first of those still to come, as far as they can be taken without asking the device.
    ghost hand: { Self → List ℕ };

    /// Reads octets into the front of `into`, which has room for at least one, and answers how many: 0 at the end of
    /// the input. A read that fails takes no octet.
    fn read(&mut self, into: &mut [u8]) -> Result<usize, Failed>
        requires room { 0 < length into.old }

        // The octets read are those that stood in front, and none come exactly at the end.
        ensures within { IfOk result (λ count. count ≤ length into.new) }
        ensures taken { IfOk result (λ count. Takes (shown self.old) (shown self.new) (take count into.new)) }
        ensures ended { IfOk result (NoneExactlyAtEnd (shown self.old)) }

        // A refusal is counted, and changes nothing else that is known.
        ensures kept { OnErr result ((shown self.new).known ≡ (shown self.old).known) }
        ensures cause { OnErr result (Rose (shown self.old) (shown self.new)) }
        ensures later { IsLater (shown self.old) (shown self.new) };

    /// The octets at hand. There may be none where more are still to come.
    fn at_hand(&self) -> &[u8]
        ensures { result.now ≡ hand self.now };

    /// Takes this many of the octets at hand, from their front. It can't fail.
    fn consume(&mut self, count: usize)
        requires { count ≤ length (hand self.old) }
        ensures taken { Takes (shown self.old) (shown self.new) (take count (hand self.old)) }
        ensures steady { (shown self.new).faults ≡ (shown self.old).faults }
        ensures later { IsLater (shown self.old) (shown self.new) };
}

/// A device that octets are put into.
pub trait Sink {
    /// The octets that the sink holds where they are known, how often it has failed, and which
    /// borrow it is, where it is one.
    ghost shown: { Self → Device ℕ };

    /// Puts the piece behind what the sink holds. A put that fails leaves a part of the piece there, from its front, which
    /// may be none or all of it, and is counted; no other put is.
    fn put(&mut self, piece: &[u8]) -> Result<(), Failed>
        ensures grown { OnOk result (Grows (shown self.old) (shown self.new) piece.now) }
        ensures steady { OnOk result ((shown self.new).faults ≡ (shown self.old).faults) }
        ensures part { OnErr result (GrowsByPart (shown self.old) (shown self.new) piece.now) }
        ensures cause { OnErr result (Rose (shown self.old) (shown self.new)) }
        ensures later { IsLater (shown self.old) (shown self.new) };
}

impl<S: Source> Source for &mut S {
    ghost shown = { λ s. record (S.shown s.now) { borrow = s.ghost_name } };

    ghost hand = { λ s. S.hand s.now };

    fn read(&mut self, into: &mut [u8]) -> Result<usize, Failed> {
        (**self).read(into)
    }

    fn at_hand(&self) -> &[u8] {
        (**self).at_hand()
    }

    fn consume(&mut self, count: usize) {
        (**self).consume(count)
    }
}

impl<S: Sink> Sink for &mut S {
    ghost shown = { λ s. record (S.shown s.now) { borrow = s.ghost_name } };

    fn put(&mut self, piece: &[u8]) -> Result<(), Failed> {
        (**self).put(piece)
    }
}

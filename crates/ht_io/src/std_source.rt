//! A source over a reader of std.
ghost use Rattle.std.specs.Prelude.{◌≡◌, ◌<◌, ◌≤◌, length, take, None, IsSome, IfOk, OnOk, OnErr};
ghost use Rattle.std.specs.Io.Buffered.{reader_buffer, reader_remaining};
ghost use Rattle.std.specs.Io.KnownBytes.{Keeps, Consumes, IsAtEnd};
ghost use Rattle.ht_io.specs.Causes.{HasRisen, one_more};
ghost use Rattle.ht_io.specs.Standard.{inner_of, faults_of, error_of};

use crate::std_device::{RETRIES, StdSource};
use crate::{Failed, Source};
use std::io::{self, BufRead, ErrorKind, Read};

// Reads once, and again while the call is interrupted.
fn read_patiently<R: Read>(inner: &mut R, into: &mut [u8]) -> io::Result<usize>
    ensures within { IfOk result (λ count. count ≤ length into.new) }
    ensures passed { IfOk result (λ count. Consumes (R.remaining inner.old) (R.remaining inner.new) (take count into.new)) }
    ensures ended { IfOk result (λ count. count ≡ 0 → 0 < length into.old → IsAtEnd (R.remaining inner.new)) }
    ensures kept { OnErr result (Keeps (R.remaining inner.old) (R.remaining inner.new)) }
{
    for _ in 0..RETRIES {
        match inner.read(into) {
            Err(fault) if fault.kind() == ErrorKind::Interrupted => {}
            outcome => return outcome,
        }
    }
    inner.read(into)
}

impl<R: Read> Source for StdSource<R> {
    ghost shown = { λ s. record { known = None; faults = faults_of s; borrow = 0 } };

    ghost hand = { λ s. reader_buffer (inner_of s) };

    fn read(&mut self, into: &mut [u8]) -> Result<usize, Failed>
        requires room { 0 < length into.old }

        // What the reader has left, where it is known, passes unchanged.
        ensures passed { IfOk result (λ count. Consumes
            (reader_remaining R.remaining (inner_of self.old)) (reader_remaining R.remaining (inner_of self.new)) (take count into.new)) }
        ensures whole { IfOk result (λ count. count ≡ 0 → IsAtEnd (reader_remaining R.remaining (inner_of self.new))) }
        ensures unread { OnErr result (Keeps (reader_remaining R.remaining (inner_of self.old)) (reader_remaining R.remaining (inner_of self.new))) }

        ensures steady { OnOk result (faults_of self.new ≡ faults_of self.old) }
        ensures counted { OnErr result (faults_of self.new ≡ one_more (faults_of self.old)) }
        ensures because { OnErr result (IsSome (error_of self.new)) }
        ensures error { OnOk result (error_of self.new ≡ error_of self.old) }

        ensures within { IfOk result (λ count. count ≤ length into.new) }
        ensures cause { OnErr result (HasRisen (faults_of self.old) (faults_of self.new)) }
        ensures later { faults_of self.old ≤ faults_of self.new }
    {
        match read_patiently(&mut self.inner, into) {
            Ok(count) => Ok(count),
            Err(error) => Err(self.fail(error)),
        }
    }

    fn at_hand(&self) -> &[u8]
        ensures { result.now ≡ reader_buffer (inner_of self.now) }
    {
        self.inner.buffer()
    }

    fn consume(&mut self, count: usize)
        requires { count ≤ length (reader_buffer (inner_of self.old)) }
        ensures passed { Consumes (reader_remaining R.remaining (inner_of self.old)) (reader_remaining R.remaining (inner_of self.new))
            (take count (reader_buffer (inner_of self.old))) }
        ensures error { error_of self.new ≡ error_of self.old }
        ensures steady { faults_of self.new ≡ faults_of self.old }
    {
        self.inner.consume(count);
    }
}

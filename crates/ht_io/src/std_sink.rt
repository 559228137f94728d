//! A sink over a writer of std.
ghost use Rattle.std.specs.Prelude.{◌≡◌, ◌≤◌, None, IsSome, OnOk, OnErr};
ghost use Rattle.std.specs.Io.KnownBytes.{Keeps, Appends};
ghost use Rattle.ht_io.specs.Causes.{HasRisen, one_more};
ghost use Rattle.ht_io.specs.Standard.{inner_of, faults_of, error_of, AppendsPart};

use crate::std_device::{RETRIES, StdSink};
use crate::{Failed, Sink};
use std::io::{self, ErrorKind, Write};

// Flushes, and again while the call is interrupted.
fn flush_patiently<W: Write>(inner: &mut W, retried: u32) -> io::Result<()>
    ensures { Keeps (W.contents inner.old) (W.contents inner.new) }
{
    for _ in retried..RETRIES {
        match inner.flush() {
            Err(fault) if fault.kind() == ErrorKind::Interrupted => {}
            outcome => return outcome,
        }
    }
    inner.flush()
}

// Writes the whole piece and flushes.
fn write_whole<W: Write>(inner: &mut W, piece: &[u8]) -> io::Result<()>
    ensures whole { OnOk result (Appends (W.contents inner.old) (W.contents inner.new) piece.now) }
    ensures part { AppendsPart (W.contents inner.old) (W.contents inner.new) piece.now }
{
    let mut done = 0;
    let mut retried = 0;
    while done < piece.len() {
        match inner.write(&piece[done..]) {
            Ok(0) => return Err(io::Error::from(ErrorKind::WriteZero)),
            Ok(count) => done += count,
            Err(fault) => {
                if fault.kind() != ErrorKind::Interrupted || retried == RETRIES {
                    return Err(fault);
                }
                retried += 1;
            }
        }
    }
    flush_patiently(inner, retried)
}

impl<W: Write> Sink for StdSink<W> {
    ghost shown = { λ s. record { known = None; faults = faults_of s; borrow = 0 } };

    fn put(&mut self, piece: &[u8]) -> Result<(), Failed>
        // What the writer holds, where it is known, grows by the piece, or at a failure by a part of it.
        ensures passed { OnOk result (Appends (W.contents (inner_of self.old)) (W.contents (inner_of self.new)) piece.now) }
        ensures front { OnErr result (AppendsPart (W.contents (inner_of self.old)) (W.contents (inner_of self.new)) piece.now) }

        ensures steady { OnOk result (faults_of self.new ≡ faults_of self.old) }
        ensures counted { OnErr result (faults_of self.new ≡ one_more (faults_of self.old)) }
        ensures because { OnErr result (IsSome (error_of self.new)) }
        ensures error { OnOk result (error_of self.new ≡ error_of self.old) }

        ensures cause { OnErr result (HasRisen (faults_of self.old) (faults_of self.new)) }
        ensures later { faults_of self.old ≤ faults_of self.new }
    {
        match write_whole(&mut self.inner, piece) {
            Ok(()) => Ok(()),
            Err(error) => Err(self.fail(error)),
        }
    }
}

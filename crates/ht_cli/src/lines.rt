//! The lines that a run puts itself: the last one, or how the program is called.
ghost use Rattle.std.specs.Prelude.{◌≡◌, ◌≢◌, ℕ, List, Err, IfOk, OnErr};
ghost use Rattle.ht_runs.specs.declared.faults.RunFault.TheVariants.{Write as FailedWrite};
ghost use Rattle.ht_text.specs.Lines.{usage_text};
ghost use Rattle.ht_cli.specs.Putting.{PutsLine};
ghost use Rattle.ht_cli.specs.Stopping.{Settles, status_of};

use crate::status::Status;
use ht_io::Sink;
use ht_receive::put_last;
use ht_runs::RunFault;
use ht_text::usage_line;
use std::alloc::{AllocError, Global};

/// Puts a line, and gives the status `then` with which the run ends. Where there was no memory for the line, the sink is as
/// before and the status is `NoMemory`; where the sink fails, a part of the line was put and it is `WriteFault`.
pub fn put_line<K: Sink>(line: Result<Vec<u8>, AllocError>, then: Status, sink: &mut K) -> Status
    ensures puts { (text : List ℕ) → IfOk line (λ octets. octets.items ≡ text) → PutsLine text then (K.shown sink.old) (K.shown sink.new) result }
    ensures lacks { OnErr line (result ≡ Status.NoMemory) }
    ensures nothing { then ≢ Status.NoMemory → result ≡ Status.NoMemory → sink.new ≡ sink.old }
    ensures writes { result ≢ Status.WriteFault → (K.shown sink.new).faults ≡ (K.shown sink.old).faults }
{
    let Ok(line) = line else {
        return Status::NoMemory;
    };
    match sink.put(&line) {
        Ok(()) => then,
        Err(_) => Status::WriteFault,
    }
}

/// Puts the usage line, and gives the status `Usage`, or another one as [`put_line`] does.
pub fn put_usage<K: Sink>(alloc: Global, sink: &mut K) -> Status
    ensures puts { PutsLine usage_text Status.Usage (K.shown sink.old) (K.shown sink.new) result }
    ensures nothing { result ≡ Status.NoMemory → sink.new ≡ sink.old }
    ensures writes { result ≢ Status.WriteFault → (K.shown sink.new).faults ≡ (K.shown sink.old).faults }
{
    put_line(usage_line(alloc), Status::Usage, sink)
}

// The status of a run that has put its last line, and then answers so.
fn status_for(answer: Result<u64, RunFault>) -> Status
    ensures { result ≡ status_of answer }
{
    match answer {
        Ok(_) => Status::Done,
        Err(RunFault::Format(_)) => Status::Refused,
        Err(RunFault::Read) => Status::ReadFault,
        Err(RunFault::Write) => Status::WriteFault,
        Err(RunFault::NoMemory) => Status::NoMemory,
    }
}

/// Ends a run whose call has answered: gives the status, and puts the line `refused NAME at OFFSET` where the answer is a fault
/// of the input. All else that had to be put was put by the call.
pub fn settle<A: Drop, K: Sink>(alloc: Global, ran: Result<A, RunFault>, sink: &mut K) -> Status
    ensures settles { Settles ran (K.shown sink.old) (K.shown sink.new) result }
    ensures writes { result ≢ Status.WriteFault → (K.shown sink.new).faults ≡ (K.shown sink.old).faults }
    ensures failed { ran ≡ Err FailedWrite → result ≡ Status.WriteFault }
{
    match ran {
        Ok(_) => Status::Done,
        Err(fault) => status_for(put_last(alloc, Err(fault), sink)),
    }
}

//! An input in memory as a source, and what a run wrote of it as an output of C.
ghost use Rattle.std.specs.Prelude.{◌≡◌, IfOk};
ghost use Rattle.ht_library.specs.Written.{Handed};

use crate::crossing::MizgaureRefusal;
use crate::fault::{DONE, NO_MEMORY, NO_ROOM, REFUSED};
use ht_io::SureSource;
use ht_list::List;
use ht_runs::RunFault;
use std::alloc::{AllocError, Global};

// A source of these octets.
pub(crate) fn source_of(alloc: Global, input: &[u8]) -> Result<SureSource, AllocError>
    ensures { IfOk result (λ source. source ≡ input.now) }
{
    Ok(SureSource::new(Vec::from_slice(alloc, input)?))
}

// Puts what a run wrote where C has room for it, and says how long it is; or says where its input is refused.
pub(crate) fn hand_over(
    run: Result<List<u8>, RunFault>,
    into: &mut [u8],
    size: &mut u64,
    refusal: &mut MizgaureRefusal,
) -> u32
    ensures { Handed into.old into.new size.old size.new refusal.old refusal.new result run }
{
    match run {
        Ok(written) => {
            let written = written.as_slice();
            *size = written.len() as u64;
            if written.len() > into.len() {
                return NO_ROOM;
            }
            into[..written.len()].copy_from_slice(written);
            DONE
        }
        Err(RunFault::Format(fault)) => {
            refusal.kind = u32::from(fault.kind.number());
            refusal.offset = fault.offset;
            REFUSED
        }
        // No read of octets in memory fails, and a sink that grows fails for lack of memory alone.
        Err(RunFault::Read | RunFault::Write | RunFault::NoMemory) => NO_MEMORY,
    }
}

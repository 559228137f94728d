//! What a caller does while it waits.
ghost use Rattle.std.specs.Prelude.{◌≡◌, OnErr, OnOk};
ghost use Rattle.ht_drive.specs.Blocks.{IsSameCaller, seen};

use crate::caller::BlockCaller;
use crate::pace::Pace;
use crate::window::Window;
use ht_feed::{Answer, Shared, Work};
use std::alloc::AllocError;
use std::thread;

/// Keeps an answer that has come, or runs a block that no worker took. Where there is neither and all blocks have come
/// back, it runs the first one due that still waits for its answer; else another thread may go on. The only error is
/// that the work lacked memory: without it, what came back was answered.
pub(crate) fn turn<B: Shared + Drop + Send, A: Answer + Drop + Send, W: Work<B, Answer = A>>(
    work: &W,
    window: &mut Window<B, A>,
    caller: &mut BlockCaller<'_, '_, B, A, W>,
    pace: &mut Pace,
) -> Result<(), AllocError>
    ensures window { seen B.jobs window.new ≡ seen B.jobs window.old }
    ensures given { caller.new.given ≡ caller.old.given }
    ensures same { IsSameCaller caller.old caller.new }
    ensures whole { OnOk result (caller.new.whole ≡ caller.old.whole) }
    ensures lacks { OnErr result A.may_lack }
{
    if let Some(done) = caller.next() {
        pace.see(done.is_hard(work));
        let place = done.number();
        let (block, answer) = done.into_parts()?;
        window.accept(place, &block, answer);
        return Ok(());
    }
    if caller.is_home() {
        return window.answer_first(work);
    }
    thread::yield_now();
    Ok(())
}

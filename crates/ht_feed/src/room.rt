//! Room for what is due.
ghost use Rattle.std.specs.Prelude.{◌≡◌, ◌<◌, length, OnOk};

use circular_buffer::HeapCircularBuffer;
use std::alloc::AllocError;

/// The most jobs that may be due, and so the most blocks.
const MOST_DUE: usize = 4096;

/// Makes room for one more block that is due, of which there are fewer than may be. The only error is lack of memory.
pub fn make_room<T: Drop>(due: &mut HeapCircularBuffer<T>) -> Result<(), AllocError>
    requires { length due.old.items < 4096 }
    ensures items { due.new.items ≡ due.old.items }
    ensures room { OnOk result (length due.new.items < due.new.capacity) }
{
    if due.len() < due.capacity() {
        return Ok(());
    }
    due.resize(MOST_DUE)
}

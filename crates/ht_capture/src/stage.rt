//! What a reader of captures does next.
use crate::places::{SymbolTurn, Turn};
use ht_io::InFault;

/// What a reader does next.
#[derive(Clone, Copy, Debug)]
pub enum Stage {
    /// It reads the magic.
    Begin,
    /// It reads the next frame's head and triangles, or the end behind the last frame.
    NextFrame(Turn),
    /// It reads the samples of a symbol.
    NextSymbol(SymbolTurn),
    /// It gives the jobs of the symbol that it read, from this present subcarrier on.
    Giving(SymbolTurn, usize),
    /// It says that the capture is whole.
    Ended,
    /// It says again why it stopped.
    Stopped(InFault),
}

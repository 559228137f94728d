//! What a reader keeps of the symbols that it lent to blocks.
ghost use Rattle.std.specs.Prelude.{◌≡◌, ℕ, List, length, IfOk, IsTrue, IsFalse};
ghost use Rattle.std.specs.Arc.{arc_value};
ghost use Rattle.ht_capture.specs.declared.items.FrameHead.{FrameHead as FrameHeadValue};
ghost use Rattle.ht_capture.specs.declared.places.Present.{Present as PresentValue};
ghost use Rattle.ht_map.specs.Constellation.{grid_of};
ghost use Rattle.ht_capture.specs.Blocks.{Lends, LendsFrame};
ghost use Rattle.ht_capture.specs.Parts.{IsSymbol, moved};
ghost use Rattle.ht_capture.specs.Reading.{AreSeen};

use crate::places::{Present, SymbolTurn};
use crate::shape::Shape;
use crate::shared_symbol::SharedSymbol;
use ht_pam::Grid;
use std::alloc::{AllocError, Global};
use std::sync::Arc;

/// The symbol that a reader lent last. Its frame's shape serves the whole frame, and its memory the next symbol, where no
/// block has it any more.
#[derive(Debug, Drop)]
pub enum Lent {
    /// None of the frame under way.
    Nothing,
    /// A symbol before the one that was read.
    Before(Arc<SharedSymbol, Global>),
    /// The symbol that was read.
    Current(Arc<SharedSymbol, Global>),
}

// Makes it the symbol that was read, where it is in no block, and tells whether it did.
fn rewrite(symbol: &mut Arc<SharedSymbol, Global>, due: &SymbolTurn, octets: &[u8]) -> bool
    requires { IsSymbol (moved (arc_value symbol.old) due.now.symbol due.now.turn.number octets.now) }
    ensures alone { IsTrue result → arc_value symbol.new ≡ moved (arc_value symbol.old) due.now.symbol due.now.turn.number octets.now }
    ensures shared { IsFalse result → arc_value symbol.new ≡ arc_value symbol.old }
{
    match Arc::get_mut(symbol) {
        Some(own) => {
            own.hear(due.symbol, due.turn.number, octets);
            true
        }
        None => false,
    }
}

// The symbol that was read, in the memory of another one of its frame, or in memory of its own where blocks have that.
fn rewritten(
    alloc: Global,
    symbol: Arc<SharedSymbol, Global>,
    due: &SymbolTurn,
    octets: &[u8],
) -> Result<Arc<SharedSymbol, Global>, AllocError>
    requires { IsSymbol (moved (arc_value symbol) due.now.symbol due.now.turn.number octets.now) }
    ensures { IfOk result (λ next. arc_value next ≡ moved (arc_value symbol) due.now.symbol due.now.turn.number octets.now) }
{
    let mut next = symbol;
    if rewrite(&mut next, due, octets) {
        return Ok(next);
    }
    let another = next.another(alloc, due.symbol, due.turn.number, octets)?;
    Ok(Arc::new(alloc, another)?)
}

impl Lent {
    /// The symbol that was read, with its subcarriers and the octets of its samples. `full` is the grid of the data
    /// subcarriers of its frame. The only error is lack of memory.
    pub fn current(
        self,
        alloc: Global,
        due: &SymbolTurn,
        present: &[Present],
        full: &Grid,
        octets: &[u8],
    ) -> Result<Arc<SharedSymbol, Global>, AllocError>
        requires symbol { IsSymbol
            (record { head = due.now.head; symbol = due.now.symbol; number = due.now.turn.number; present = present.now; octets = octets.now }) }
        requires seen { AreSeen due.now.head.rate (length present.now) present.now }
        requires full { full.now ≡ grid_of due.now.head.rate }
        requires lent { Lends
            (record { head = due.now.head; symbol = due.now.symbol; number = due.now.turn.number; present = present.now; octets = octets.now }) self }
        ensures { IfOk result (λ symbol. arc_value symbol
            ≡ record { head = due.now.head; symbol = due.now.symbol; number = due.now.turn.number; present = present.now; octets = octets.now }) }
    {
        match self {
            Lent::Current(symbol) => Ok(symbol),
            Lent::Before(symbol) => rewritten(alloc, symbol, due, octets),
            Lent::Nothing => {
                let shape = Shape::of(alloc, &due.head, present, full)?;
                let symbol = SharedSymbol::new(alloc, shape, due.symbol, due.turn.number, octets)?;
                Ok(Arc::new(alloc, symbol)?)
            }
        }
    }

    /// What was lent, where another symbol of the frame was read.
    pub fn passed(self) -> Lent
        ensures { (head : FrameHeadValue) (present : List PresentValue) → LendsFrame head present self
            → (symbol number : ℕ) (octets : List ℕ)
            → Lends (record { head = head; symbol = symbol; number = number; present = present; octets = octets }) result }
    {
        match self {
            Lent::Current(symbol) => Lent::Before(symbol),
            other => other,
        }
    }
}

//! The parts of a capture that a reader reads at once.
ghost use Rattle.std.specs.Prelude.{◌≡◌, ◌<◌, ◌≤◌, ◌+◌, ◌*◌, ◌^◌, length, take, MatchResult, IfOk};
ghost use Rattle.ht_io.specs.Devices.{Takes, IsLater};
ghost use Rattle.ht_fields.specs.Readers.{Finishes};
ghost use Rattle.ht_rate.specs.Rates.{carriers_of, symbols_of};
ghost use Rattle.ht_capture.specs.Fields.{Over, turn_due};
ghost use Rattle.ht_capture.specs.Gathered.{ReadsSymbol};
ghost use Rattle.ht_capture.specs.Reading.{AreSeen, ReadsToSymbol, here};
ghost use Rattle.ht_capture.specs.Readers.{HasRoom, symbol_octets};
ghost use Rattle.ht_fields.specs.WholeFiles.{StopsWithCause};

use crate::carriers::carriers;
use crate::fields::field;
use crate::heads::head;
use crate::places::{Present, SymbolTurn, Turn};
use ht_fields::end;
use ht_io::{InFault, Source};

/// Sees that the input ends.
pub fn finish<S: Source>(source: &mut S, at: u64) -> Result<(), InFault>
    ensures told { MatchResult result
        (λ _. Finishes (here Over at (S.shown source.old)) (S.shown source.new))
        (StopsWithCause (here Over at (S.shown source.old)) (S.shown source.new)) }
    ensures later { IsLater (S.shown source.old) (S.shown source.new) }
{
    match end(source, at) {
        Ok(()) => Ok(()),
        Err(fault) => Err(fault),
    }
}

/// Reads the head and the triangles of the next frame.
pub fn frame<S: Source>(
    source: &mut S,
    at: u64,
    turn: &Turn,
    present: &mut [Present],
) -> Result<(SymbolTurn, u64), InFault>
    requires offset { at + 3766 < 2 ^ 64 }
    requires left { 0 < turn.now.left }
    requires space { length present.old ≡ 114 }
    ensures told { ReadsToSymbol result (here (turn_due turn.now) at (S.shown source.old)) (λ got. got.0) present.new (λ got. got.1) (S.shown source.new) }
    ensures turn { IfOk result (λ got. (got.0.turn ≡ turn.now) × (got.0.symbol ≡ 0)) }
    ensures number { IfOk result (λ got. got.0.head.frame ≡ turn.now.frame) }
    ensures some { IfOk result (λ got. 1 ≤ got.0.count) }
    ensures symbols { IfOk result (λ got. (1 ≤ got.0.symbols) × (got.0.symbols ≤ 20166)) }
    ensures whole { IfOk result (λ got. got.0.symbols ≡ symbols_of got.0.head.rate got.0.head.length) }
    ensures jobs { IfOk result (λ got. got.0.symbols * got.0.count ≤ 1129296) }
    ensures few { IfOk result (λ got. got.0.count ≤ carriers_of got.0.head.rate) }
    ensures places { IfOk result (λ got. got.0.count ≤ 114) }
    ensures place { IfOk result (λ got. got.1 ≤ at + 3766) }
    ensures seen { IfOk result (λ got. AreSeen got.0.head.rate got.0.count present.new) }
    ensures later { IsLater (S.shown source.old) (S.shown source.new) }
{
    let mut head = match head(source, at, turn) {
        Ok(head) => head,
        Err(fault) => return Err(fault),
    };
    let gathered = match carriers(source, turn, &mut head, present, at + 4) {
        Ok(gathered) => gathered,
        Err(fault) => return Err(fault),
    };
    let due = SymbolTurn {
        turn: *turn,
        head,
        symbol: 0,
        symbols: head.rate.symbols(head.length),
        count: gathered.count,
    };
    Ok((due, gathered.at))
}

/// The number of octets of the samples of `count` subcarriers in a symbol.
pub fn width(count: usize, streams: u8) -> usize
    requires many { count ≤ 114 }
    requires some { 1 ≤ streams }
    requires few { streams ≤ 4 }
    ensures value { result ≡ count * (8 * streams) }
    ensures bound { result ≤ 3648 }
    ensures low { 8 * count ≤ result }
{
    match streams {
        1 => 8 * count,
        2 => 16 * count,
        3 => 24 * count,
        _ => 32 * count,
    }
}

/// The number of octets of a symbol's samples.
pub fn symbol_width(due: &SymbolTurn) -> usize
    requires { due.now.count ≤ 114 }
    ensures value { result ≡ symbol_octets due.now }
    ensures bound { result ≤ 3648 }
    ensures low { 8 * due.now.count ≤ result }
{
    width(due.count, due.head.rate.streams())
}

/// Reads the samples of a symbol to the front of the slice.
pub fn symbol<S: Source>(
    source: &mut S,
    at: u64,
    due: &SymbolTurn,
    samples: &mut [u8],
) -> Result<u64, InFault>
    requires { HasRoom due.now at samples.old }
    ensures told { ReadsSymbol result due.now (take (symbol_octets due.now) samples.new) at (S.shown source.old) (S.shown source.new) }
    ensures octets { IfOk result (λ _. Takes (S.shown source.old) (S.shown source.new) (take (symbol_octets due.now) samples.new)) }
    ensures size { IfOk result (λ _. length (take (symbol_octets due.now) samples.new) ≡ symbol_octets due.now) }
    ensures place { IfOk result (λ behind. behind ≤ at + 3648) }
    ensures later { IsLater (S.shown source.old) (S.shown source.new) }
{
    let octets = symbol_width(due);
    match field(source, at, octets, samples) {
        Ok(()) => Ok(at + octets as u64),
        Err(fault) => Err(fault),
    }
}

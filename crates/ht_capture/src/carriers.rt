//! The subcarriers of a frame, with their triangles.
ghost use Rattle.std.specs.Prelude.{◌≡◌, ◌<◌, ◌≤◌, ◌+◌, ◌*◌, ◌^◌, List, [], ◌∷◌, ◌++◌, Ok, true, length, take, IfOk};
ghost use Rattle.ht_io.specs.Devices.{IsLater};
ghost use Rattle.ht_rate.specs.declared.rates.Rate.{Rate as RateValue};
ghost use Rattle.ht_rate.specs.Rates.{carriers_of, streams_of};
ghost use Rattle.ht_capture.specs.declared.items.FrameHead.{FrameHead as FrameHeadValue};
ghost use Rattle.ht_capture.specs.declared.places.Present.{Present as PresentValue};
ghost use Rattle.ht_capture.specs.declared.places.Turn.{Turn as TurnValue};
ghost use Rattle.ht_capture.specs.Frames.{erase};
ghost use Rattle.ht_capture.specs.Fields.{carriers_due, first_symbol};
ghost use Rattle.ht_capture.specs.Gathered.{ReadsCarrier, at_carrier, at_triangle};
ghost use Rattle.ht_capture.specs.Reading.{AreSeen, ReadsFlag, ReadsToSymbol, SameFrame, here};
ghost use Rattle.ht_capture.specs.Taking.{Adds, AreRead, Keeps, TakesFlag, triangles_of};

use crate::items::FrameHead;
use crate::places::{Present, Turn};
use crate::{fields, numbers};
use ht_io::{InFault, Source};
use ht_metric::Triangle;
use ht_rate::Rate;

/// How far the subcarriers of a frame were read: the number of those that are present, and the offset behind them.
#[derive(Clone, Copy, Debug)]
pub struct Gathered {
    /// The number of subcarriers that are present.
    pub count: usize,
    /// The offset behind them.
    pub at: u64,
}

// The head with this subcarrier marked as erased.
#[tactic(auto, unfolding(crate::specs::Frames::erase))]
fn erased(head: &FrameHead, carrier: u8) -> FrameHead
    requires { carrier < 128 }
    ensures { result ≡ erase head.now carrier }
{
    FrameHead {
        erased: head.erased | 1 << carrier,
        ..*head
    }
}

// Keeps a subcarrier that is present behind those that were kept.
fn keep(present: &mut [Present], count: usize, carrier: u8, triangle: Triangle)
    requires { count < length present.old }
    ensures kept { take (count + 1) present.new ≡ take count present.old ++ record { carrier = carrier; triangle = triangle } ∷ [] }
    ensures seen { (rate : RateValue) → AreSeen rate count present.old → carrier < carriers_of rate → length triangle ≡ streams_of rate
        → AreSeen rate (count + 1) present.new }
{
    present[count] = Present { carrier, triangle };
}

// Reads the triangle of a subcarrier that is present.
fn plain<S: Source>(
    source: &mut S,
    rate: &Rate,
    carrier: u8,
    present: &mut [Present],
    so_far: Gathered,
) -> Result<Gathered, InFault>
    requires offset { so_far.at + 32 < 2 ^ 64 }
    requires space { so_far.count < length present.old }
    requires carrier { carrier < carriers_of rate.now }
    requires seen { AreSeen rate.now so_far.count present.old }
    ensures told { (turn : TurnValue) (head : FrameHeadValue) → head.rate ≡ rate.now
        → ReadsCarrier result (at_triangle turn head carrier present.old so_far (S.shown source.old)) turn head carrier present.new (S.shown source.new) }
    ensures count { IfOk result (λ g. g.count ≡ so_far.count + 1) }
    ensures place { IfOk result (λ g. g.at ≤ so_far.at + 32) }
    ensures seen { IfOk result (λ g. AreSeen rate.now g.count present.new) }
    ensures added { IfOk result (λ g. Keeps (streams_of rate.now) [] carrier
        (take so_far.count present.old) (take g.count present.new) (S.shown source.old) (S.shown source.new)) }
    ensures later { IsLater (S.shown source.old) (S.shown source.new) }
{
    let width = numbers::triangle_width(rate.streams());
    match fields::triangle(source, so_far.at, rate) {
        Ok(triangle) => {
            keep(present, so_far.count, carrier, triangle);
            Ok(Gathered {
                count: so_far.count + 1,
                at: so_far.at + width as u64,
            })
        }
        Err(fault) => Err(fault),
    }
}

// Whether a subcarrier is erased: reads its flag, where the version has flags.
fn is_erased<S: Source>(
    source: &mut S,
    at: &mut u64,
    turn: &Turn,
    head: &FrameHead,
    carrier: u8,
    count: usize,
) -> Result<bool, InFault>
    requires offset { at.old + 1 < 2 ^ 64 }
    requires carrier { carrier < carriers_of head.now.rate }
    ensures told { (present : List PresentValue) → length present ≡ count → ReadsFlag result (carriers_due turn.now head.now carrier present)
        turn.now head.now carrier present at.old at.new (S.shown source.old) (S.shown source.new) }
    ensures some { result ≡ Ok true → (carrier + 1 ≡ carriers_of head.now.rate) → 0 < count }
    ensures place { at.new ≤ at.old + 1 }
    ensures octets { IfOk result (TakesFlag turn.now.version (S.shown source.old) (S.shown source.new)) }
    ensures later { IsLater (S.shown source.old) (S.shown source.new) }
{
    if turn.version != 2 {
        return Ok(false);
    }
    match fields::flag(source, *at, head, carrier, count) {
        Ok(erased) => {
            *at += 1;
            Ok(erased)
        }
        Err(fault) => Err(fault),
    }
}

// Reads a subcarrier, in either version: its flag, and its triangle where it is present.
fn carrier<S: Source>(
    source: &mut S,
    turn: &Turn,
    head: &mut FrameHead,
    carrier: u8,
    present: &mut [Present],
    so_far: Gathered,
) -> Result<Gathered, InFault>
    requires offset { so_far.at + 33 < 2 ^ 64 }
    requires space { so_far.count < length present.old }
    requires carrier { carrier < carriers_of head.old.rate }
    requires few { carriers_of head.old.rate ≤ 114 }
    requires seen { AreSeen head.old.rate so_far.count present.old }
    ensures told { ReadsCarrier result (at_carrier turn.now head.old carrier present.old so_far (S.shown source.old))
        turn.now head.new carrier present.new (S.shown source.new) }
    ensures same { SameFrame head.new head.old }
    ensures count { IfOk result (λ g. (so_far.count ≤ g.count) × (g.count ≤ so_far.count + 1)) }
    ensures some { IfOk result (λ g. carrier + 1 ≡ carriers_of head.old.rate → 0 < g.count) }
    ensures place { IfOk result (λ g. g.at ≤ so_far.at + 33) }
    ensures seen { IfOk result (λ g. AreSeen head.old.rate g.count present.new) }
    ensures added { IfOk result (λ g. Adds turn.now.version carrier head.old head.new
        (take so_far.count present.old) (take g.count present.new) (S.shown source.old) (S.shown source.new)) }
    ensures later { IsLater (S.shown source.old) (S.shown source.new) }
{
    let mut at = so_far.at;
    match is_erased(source, &mut at, turn, head, carrier, so_far.count) {
        Ok(true) => {
            *head = erased(head, carrier);
            Ok(Gathered { at, ..so_far })
        }
        Ok(false) => match plain(
            source,
            &head.rate,
            carrier,
            present,
            Gathered { at, ..so_far },
        ) {
            Ok(gathered) => Ok(gathered),
            Err(fault) => Err(fault),
        },
        Err(fault) => Err(fault),
    }
}

/// Reads the subcarriers of a frame, and marks the erased ones in its head.
pub fn carriers<S: Source>(
    source: &mut S,
    turn: &Turn,
    head: &mut FrameHead,
    present: &mut [Present],
    at: u64,
) -> Result<Gathered, InFault>
    requires offset { at + 3762 < 2 ^ 64 }
    requires space { length present.old ≡ 114 }
    requires none { head.old.erased ≡ 0 }
    ensures told { ReadsToSymbol result (here (carriers_due turn.now head.old 0 []) at (S.shown source.old))
        (λ g. first_symbol turn.now head.new g.count) present.new (λ g. g.at) (S.shown source.new) }
    ensures same { SameFrame head.new head.old }
    ensures some { IfOk result (λ g. 0 < g.count) }
    ensures count { IfOk result (λ g. g.count ≤ carriers_of head.old.rate) }
    ensures places { IfOk result (λ g. g.count ≤ 114) }
    ensures place { IfOk result (λ g. g.at ≤ at + 3762) }
    ensures seen { IfOk result (λ g. AreSeen head.old.rate g.count present.new) }
    ensures read { IfOk result (λ g. AreRead turn.now.version (carriers_of head.new.rate) head.new.rate head.new.erased
        (triangles_of (take g.count present.new)) (S.shown source.old) (S.shown source.new)) }
    ensures later { IsLater (S.shown source.old) (S.shown source.new) }
{
    let mut gathered = Gathered { count: 0, at };
    let carriers = head.rate.carriers();
    for index in 0..carriers {
        match carrier(source, turn, head, index, present, gathered) {
            Ok(more) => gathered = more,
            Err(fault) => return Err(fault),
        }
    }
    Ok(gathered)
}

//! The reader of captures.
ghost use Rattle.std.specs.Prelude.{◌≡◌, ◌<◌, ◌≤◌, ◌+◌, ◌-◌, ◌*◌, ℕ, List, [], ◌∷◌, None, Some, Ok, Err, Result, length, take, is_some, false};
ghost use Rattle.std.specs.Prelude.{IfOk, IfErr, IfSome, IfNone};
ghost use Rattle.ht_io.specs.Devices.{Device, IsLater};
ghost use Rattle.ht_io.specs.declared.faults.InFault.{InFault as InFaultValue};
ghost use Rattle.ht_io.specs.declared.faults.InFault.TheVariants.{NoMemory};
ghost use Rattle.ht_fields.specs.Readers.{Gives};
ghost use Rattle.ht_map.specs.Constellation.{grid_of};
ghost use Rattle.ht_pam.specs.declared.axes.Axes.{Axes};
ghost use Rattle.std.specs.Arc.{arc_value};
ghost use Rattle.ht_capture.specs.declared.items.Item.{Item as ItemValue};
ghost use Rattle.ht_capture.specs.declared.items.Item.TheVariants.{Job as JobItem};
ghost use Rattle.ht_capture.specs.Fields.{Symbol, captures, turn_due, capture_magic, capture_magic_due};
ghost use Rattle.ht_capture.specs.Parts.{symbol_part};
ghost use Rattle.ht_capture.specs.Reading.{here};
ghost use Rattle.ht_capture.specs.Blocks.{AnswersBlock, GivesPart};
ghost use Rattle.ht_capture.specs.Readers.{AnswersItem, GivesJob, IsOfSymbol, IsReady, KeepsGrid, ReadsFrame, StageFits, StaysInFrame, SymbolFits, TurnFits};
ghost use Rattle.ht_capture.specs.Readers.{counted, counts, counts_at, finished, finished_stage, has_job, more, more_at, most_of};
ghost use Rattle.ht_capture.specs.Readers.{shown_at, shown_by, stage_after, symbol_at, symbol_under_way};
ghost use Rattle.ht_fields.specs.WholeFiles.{ReadsTo};

use crate::block::SymbolBlock;
use crate::block_item::BlockItem;
use crate::items::Item;
use crate::lent::Lent;
use crate::parts::{self, width};
use crate::places::{Present, SymbolTurn, Turn};
use crate::shared_symbol::SharedSymbol;
use crate::stage::Stage;
use crate::{heads, jobs};
use ht_io::{InFault, Source};
use ht_map::grid;
use ht_metric::{Job, Tap, Triangle};
use ht_pam::{Grid, Ladder};
use std::alloc::{AllocError, Global};
use std::marker::Model;
use std::mem;
use std::sync::Arc;

/// The most subcarriers of a frame.
const CARRIERS: usize = 114;

/// The most octets of a symbol: for each subcarrier two parts of four octets on each of four streams.
const SYMBOL: usize = 3648;

/// Reads a capture of either version from a source, item by item or in blocks of jobs.
///
/// It keeps the triangles of one frame and the samples of one symbol, and takes the memory for them when it is made. What
/// blocks share it takes where a block is asked for: once a frame, and again for a symbol only while a block has the last one.
#[derive(Debug, Drop)]
pub struct Reader {
    alloc: Global,
    stage: Stage,
    at: u64,
    present: Vec<Present>,
    samples: Vec<u8>,
    // The grid of the data subcarriers of the frame under way; any, where none is.
    grid: Grid,
    lent: Lent,
}

impl Model for Reader {
    ghost use Rattle.ht_capture.specs.Readers.{Progress, IsSound, KeepsGrid};
    ghost use Rattle.ht_capture.specs.Blocks.{KeepsLent};

    ghost Value = { Progress };

    ghost view = { λ r. record { stage = r.stage; at = r.at; present = r.present.items; samples = r.samples.items } };

    ghost invariant = { λ r. IsSound (record { stage = r.stage; at = r.at; present = r.present.items; samples = r.samples.items })
        × KeepsGrid r.stage r.grid × KeepsLent r.stage r.present.items r.samples.items r.lent };
}

// The stage behind a symbol: its next one, or the next frame.
#[tactic(auto, unfolding(crate::specs::Fields::next_symbol, crate::specs::Fields::next_turn))]
#[inline(never)]
fn after(due: &SymbolTurn, at: u64, present: &[Present]) -> Stage
    requires fits { SymbolFits due.now 1 at present.now }
    ensures value { result ≡ stage_after due.now }
    ensures fits { StageFits result at present.now }
    ensures counts { counts_at result ≡ counted (due.now.turn.frame + 1) (due.now.turn.number + due.now.count) }
    ensures fewer { more_at result ≤ (due.now.symbols - due.now.symbol - 1) * due.now.count + most_of (due.now.turn.left - 1) }
    ensures going { finished_stage result ≡ None }
    ensures follows { StaysInFrame due.now (symbol_at result) }
    ensures grid { (grid : List Axes) → grid ≡ grid_of due.now.head.rate → KeepsGrid result grid }
{
    let turn = Turn {
        number: due.turn.number + due.count as u64,
        ..due.turn
    };
    if due.symbol + 1 < due.symbols {
        Stage::NextSymbol(SymbolTurn {
            turn,
            symbol: due.symbol + 1,
            ..*due
        })
    } else {
        Stage::NextFrame(Turn {
            left: turn.left - 1,
            frame: turn.frame + 1,
            ..turn
        })
    }
}

// The job of a present subcarrier of a symbol that was read. It is kept out of line, so that it is made in one place.
#[inline(never)]
fn job_of(
    due: &SymbolTurn,
    k: usize,
    at: u64,
    present: &[Present],
    grid: &Grid,
    samples: &[u8],
) -> Job
    requires fits { SymbolFits due.now 1 at present.now }
    requires grid { grid.now ≡ grid_of due.now.head.rate }
    requires inside { k < due.now.count }
    requires space { length present.now ≡ 114 }
    requires size { length samples.now ≡ 3648 }
    ensures told { (source : Device ℕ) → Gives (shown_at (Stage.Giving due.now k) at present.now samples.now source)
        (shown_at (Stage.Giving due.now (k + 1)) at present.now samples.now source) (JobItem result ∷ []) }
    ensures number { result.number ≡ due.now.turn.number + k }
    ensures placed { IsOfSymbol due.now result }
{
    let streams = due.head.rate.streams();
    let octets = &samples[..width(due.count, streams)];
    let number = due.turn.number + k as u64;
    jobs::job(
        &due.head,
        due.symbol,
        number,
        &present[k],
        grid,
        octets,
        width(k, streams),
    )
}

// What is called once a symbol or less is kept out of line, so that a job costs no more than itself.
impl Reader {
    /// A reader in front of a capture, whatever source that will come from. The only error is lack of memory.
    pub fn new(alloc: Global) -> Result<Reader, AllocError>
        ensures first { IfOk result (λ reader. (source : Device ℕ) → shown_by reader source ≡ here captures.start 0 source) }
        ensures counts { IfOk result (λ reader. counts reader ≡ counted 0 0) }
        ensures going { IfOk result (λ reader. finished reader ≡ None) }
        ensures idle { IfOk result (λ reader. symbol_under_way reader ≡ None) }
        ensures bounded { IfOk result (λ reader. more reader ≤ 65535 * 1129297) }
    {
        let triangle = Triangle::new(1, [0; 4], [Tap { re: 0, im: 0 }; 6]);
        let none = Present {
            carrier: 0,
            triangle,
        };
        let present = vec![in alloc; none; CARRIERS]?;
        let samples = vec![in alloc; 0u8; SYMBOL]?;
        let zero = Ladder::of(1, 0b1);
        Ok(Reader {
            alloc,
            stage: Stage::Begin,
            at: 0,
            present,
            samples,
            grid: Grid::one(zero, zero),
            lent: Lent::Nothing,
        })
    }

    /// The next item: for each frame its head, once its triangles are whole, and then the jobs of each of its symbols,
    /// once the symbol is whole; at last `Done`, once the input ended.
    ///
    /// `Format` comes at the first fault of the capture, behind all items before it, and the octets taken end with the
    /// field at fault. `Read` comes where the source failed. Behind these and `Done` each further call answers the same,
    /// and takes nothing.
    ///
    /// Where the octets of the source are known, what is given is what they mean; where they are not, it is what some
    /// octets mean, so that number, place and grid of each job are those that come next.
    pub fn next<S: Source>(&mut self, source: &mut S) -> Result<Item, InFault>
        ensures { AnswersItem S.shown self.old self.new source.old source.new result }
    {
        self.ready(source)?;
        self.answer(source)
    }

    /// The next job of the symbol that was read last, or none where all of its jobs were given: then
    /// [`next`](Reader::next) reads on. It asks no source, so nothing can fail.
    pub fn ready_job(&mut self) -> Option<Job>
        ensures due { is_some result ≡ has_job self.old.stage }

        // It is the next item.
        ensures given { IfSome result (GivesJob self.old self.new) }

        ensures none { IfNone result (self.new ≡ self.old) }
    {
        match self.stage {
            Stage::Giving(due, k) => Some(self.give(&due, k)),
            _ => None,
        }
    }

    /// The next jobs of a symbol in one block, at most `most`, or the next head or the end, where a symbol's jobs were all
    /// given: told as [`next`](Reader::next) tells it, with which it may be mixed.
    ///
    /// `NoMemory` comes where the memory that blocks share lacks. Then no job is lost, and the reader goes on.
    pub fn next_block<S: Source>(&mut self, most: u16, source: &mut S) -> Result<BlockItem, InFault>
        requires some { 1 ≤ most }

        ensures { AnswersBlock S.shown most self.old self.new source.old source.new result }
    {
        self.ready(source)?;
        self.answer_block(most, source)
    }

    /// The next jobs of the symbol that was read last, in one block of at most `most`; or none where all of its jobs were
    /// given, or where the memory that blocks share lacks: then [`next_block`](Reader::next_block) reads on, or says so.
    /// It asks no source.
    pub fn ready_block(&mut self, most: u16) -> Option<SymbolBlock>
        requires some { 1 ≤ most }

        // Its jobs are the next items.
        ensures given { IfSome result (GivesPart most self.old self.new) }
        ensures none { IfNone result (self.new ≡ self.old) }
    {
        match self.stage {
            Stage::Giving(due, k) => match self.give_block(&due, k, most) {
                Ok(block) => Some(block),
                Err(_) => None,
            },
            _ => None,
        }
    }

    // Gives what comes next, a symbol's jobs in blocks, where no symbol has to be read before.
    fn answer_block<S: Source>(&mut self, most: u16, source: &mut S) -> Result<BlockItem, InFault>
        requires ready { IsReady self.old.stage }
        requires some { 1 ≤ most }
        ensures { AnswersBlock S.shown most self.old self.new source.old source.new result }
    {
        match self.stage {
            Stage::Giving(due, k) => match self.give_block(&due, k, most) {
                Ok(block) => Ok(BlockItem::Block(block)),
                Err(_) => Err(InFault::NoMemory),
            },
            _ => self.answer_joint(source),
        }
    }

    // Gives what comes next, where no jobs are due.
    fn answer_joint<S: Source>(&mut self, source: &mut S) -> Result<BlockItem, InFault>
        requires ready { IsReady self.old.stage }
        requires none { has_job self.old.stage ≡ false }
        ensures { (most : ℕ) → AnswersBlock S.shown most self.old self.new source.old source.new result }
    {
        match self.answer(source) {
            Ok(Item::Frame(head)) => Ok(BlockItem::Frame(head)),
            Ok(Item::Job(_)) => unreachable!(),
            Ok(Item::Done) => Ok(BlockItem::Done),
            Err(fault) => Err(fault),
        }
    }

    // Gives the next job of the symbol that was read.
    fn give(&mut self, due: &SymbolTurn, k: usize) -> Job
        requires stage { self.old.stage ≡ Stage.Giving due.now k }
        ensures { GivesJob self.old self.new result }
    {
        let job = job_of(due, k, self.at, &self.present, &self.grid, &self.samples);
        self.move_past(due, k, 1);
        job
    }

    // Reads the symbol that is due, if one is.
    fn ready<S: Source>(&mut self, source: &mut S) -> Result<(), InFault>
        ensures told { ReadsTo result (shown_by self.old (S.shown source.old)) (λ _. shown_by self.new (S.shown source.new)) (λ _. []) (S.shown source.new) }
        ensures again { (answer : Result ItemValue InFaultValue) → finished self.old ≡ Some answer
            → (result ≡ Ok tt) × (self.new ≡ self.old) × (source.new ≡ source.old) }
        ensures going { IfOk result (λ _. finished self.new ≡ finished self.old) }
        ensures stopped { IfErr result (λ fault. self.new.stage ≡ Stage.Stopped fault) }
        ensures memory { IfErr result (λ fault. fault ≡ NoMemory → ⊥) }
        ensures ready { IfOk result (λ _. IsReady self.new.stage) }
        ensures counts { IfOk result (λ _. counts self.new ≡ counts self.old) }
        ensures placed { IfOk result (λ _. symbol_under_way self.new ≡ symbol_under_way self.old) }
        ensures never_more { more self.new ≤ more self.old }
        ensures later { IsLater (S.shown source.old) (S.shown source.new) }
    {
        match self.stage {
            Stage::NextSymbol(due) => self.symbol(source, due),
            _ => Ok(()),
        }
    }

    // Gives what comes next, where no symbol has to be read before.
    fn answer<S: Source>(&mut self, source: &mut S) -> Result<Item, InFault>
        requires ready { IsReady self.old.stage }
        ensures { AnswersItem S.shown self.old self.new source.old source.new result }
    {
        match self.stage {
            Stage::Begin => self.begin(source),
            Stage::NextFrame(turn) => self.frame(source, turn),
            Stage::NextSymbol(_) => unreachable!(),
            Stage::Giving(due, k) => Ok(Item::Job(self.give(&due, k))),
            Stage::Ended => Ok(Item::Done),
            Stage::Stopped(fault) => Err(fault),
        }
    }

    // Reads what stands in front of the frames, and then as `frame` does.
    #[inline(never)]
    fn begin<S: Source>(&mut self, source: &mut S) -> Result<Item, InFault>
        ensures { ReadsFrame (here (capture_magic_due capture_magic) 0 (S.shown source.old)) (counted 0 0) (most_of 65535)
            self.new (S.shown source.new) result }
    {
        match heads::start(source) {
            Ok(turn) => {
                self.at = 7;
                self.stage = Stage::NextFrame(turn);
                self.frame(source, turn)
            }
            Err(fault) => Err(self.stop(fault)),
        }
    }

    // Reads the next frame's head and triangles and gives the head, or sees that the input ends.
    #[inline(never)]
    fn frame<S: Source>(&mut self, source: &mut S, turn: Turn) -> Result<Item, InFault>
        requires stage { self.old.stage ≡ Stage.NextFrame turn }
        requires fits { TurnFits turn self.old.at }
        ensures { ReadsFrame (here (turn_due turn) self.old.at (S.shown source.old)) (counts_at (Stage.NextFrame turn)) (most_of turn.left)
            self.new (S.shown source.new) result }
    {
        if turn.left == 0 {
            match parts::finish(source, self.at) {
                Ok(()) => {
                    self.stage = Stage::Ended;
                    Ok(Item::Done)
                }
                Err(fault) => Err(self.stop(fault)),
            }
        } else {
            match parts::frame(source, self.at, &turn, &mut self.present) {
                Ok((due, behind)) => {
                    self.at = behind;
                    self.grid = grid(&due.head.rate);
                    self.lent = Lent::Nothing;
                    self.stage = Stage::NextSymbol(due);
                    Ok(Item::Frame(due.head))
                }
                Err(fault) => Err(self.stop(fault)),
            }
        }
    }

    // Reads a symbol: its jobs are due.
    #[inline(never)]
    fn symbol<S: Source>(&mut self, source: &mut S, due: SymbolTurn) -> Result<(), InFault>
        requires stage { self.old.stage ≡ Stage.NextSymbol due }
        requires fits { SymbolFits due 0 self.old.at self.old.present }
        ensures told { ReadsTo result (here (Symbol due (take due.count self.old.present)) self.old.at (S.shown source.old))
            (λ _. shown_by self.new (S.shown source.new)) (λ _. []) (S.shown source.new) }
        ensures ready { IfOk result (λ _. self.new.stage ≡ Stage.Giving due 0) }
        ensures stopped { IfErr result (λ fault. self.new.stage ≡ Stage.Stopped fault) }
        ensures memory { IfErr result (λ fault. fault ≡ NoMemory → ⊥) }
        ensures never_more { more self.new ≤ more_at (Stage.NextSymbol due) }
        ensures later { IsLater (S.shown source.old) (S.shown source.new) }
    {
        match parts::symbol(source, self.at, &due, &mut self.samples) {
            Ok(behind) => {
                self.at = behind;
                self.lent = mem::replace(&mut self.lent, Lent::Nothing).passed();
                self.stage = Stage::Giving(due, 0);
                Ok(())
            }
            Err(fault) => Err(self.stop(fault)),
        }
    }

    // Leaves jobs behind: the next one of their symbol is due, or what follows the symbol.
    fn move_past(&mut self, due: &SymbolTurn, k: usize, count: usize)
        requires stage { self.old.stage ≡ Stage.Giving due.now k }
        requires fits { SymbolFits due.now 1 self.old.at self.old.present }
        requires some { 1 ≤ count }
        requires inside { k + count ≤ due.now.count }
        ensures told { (source : Device ℕ) → shown_at (Stage.Giving due.now (k + count)) self.old.at self.old.present self.old.samples source
            ≡ shown_by self.new source }
        ensures counts { counts self.new ≡ counted (due.now.turn.frame + 1) (due.now.turn.number + (k + count)) }
        ensures fewer { more self.new + count ≤ more_at (Stage.Giving due.now k) }
        ensures going { finished self.new ≡ None }
        ensures follows { StaysInFrame due.now (symbol_under_way self.new) }
    {
        if k + count < due.count {
            self.stage = Stage::Giving(*due, k + count);
        } else {
            self.stage = after(due, self.at, &self.present);
        }
    }

    // The symbol that was read, for its blocks.
    fn lend(&mut self, due: &SymbolTurn, k: usize) -> Result<Arc<SharedSymbol, Global>, AllocError>
        requires stage { self.old.stage ≡ Stage.Giving due.now k }
        ensures symbol { IfOk result (λ symbol. arc_value symbol ≡ symbol_part due.now self.old.present self.old.samples) }
        ensures same { self.new ≡ self.old }
        ensures fits { SymbolFits due.now 1 self.old.at self.old.present }
        ensures inside { k < due.now.count }
        ensures space { length self.old.present ≡ 114 }
    {
        let lent = mem::replace(&mut self.lent, Lent::Nothing);
        let present = &self.present[..due.count];
        let octets = &self.samples[..width(due.count, due.head.rate.streams())];
        let symbol = lent.current(self.alloc, due, present, &self.grid, octets)?;
        let theirs = Arc::try_clone(&symbol)?;
        self.lent = Lent::Current(symbol);
        Ok(theirs)
    }

    // Gives the next jobs of the symbol that was read, at most this number.
    fn give_block(
        &mut self,
        due: &SymbolTurn,
        k: usize,
        most: u16,
    ) -> Result<SymbolBlock, AllocError>
        requires stage { self.old.stage ≡ Stage.Giving due.now k }
        requires some { 1 ≤ most }
        ensures given { IfOk result (GivesPart most self.old self.new) }
        ensures none { IfErr result (λ _. self.new ≡ self.old) }
    {
        let symbol = self.lend(due, k)?;
        let count = (due.count - k).min(usize::from(most));
        self.move_past(due, k, count);
        Ok(SymbolBlock::of(symbol, k as u16, count as u16))
    }

    // Stops reading.
    fn stop(&mut self, fault: InFault) -> InFault
        requires real { fault ≡ NoMemory → ⊥ }
        ensures same { result ≡ fault }
        ensures stage { self.new.stage ≡ Stage.Stopped fault }
        ensures none { more self.new ≡ 0 }
    {
        self.stage = Stage::Stopped(fault);
        fault
    }
}

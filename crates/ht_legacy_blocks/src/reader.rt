//! Captures, read in blocks.
ghost use Rattle.std.specs.Prelude.{◌≡◌, ◌+◌, ◌-◌, ◌*◌, ◌<◌, ◌≤◌, ℕ, List, [], ◌∷◌, map, true, IfOk, IfErr, OnOk, MatchBool, MatchResult};
ghost use Rattle.std.specs.Arc.{arc_value};
ghost use Rattle.ht_io.specs.Devices.{Device, IsLater};
ghost use Rattle.ht_fields.specs.Meanings.{meaning};
ghost use Rattle.ht_fields.specs.Readers.{Gives, Completes};
ghost use Rattle.ht_feed.specs.Items.{Begins, One};
ghost use Rattle.ht_feed.specs.Reading.{CountsBlock, CountsHead, Halts};
ghost use Rattle.ht_legacy_files.specs.CaptureFormats.{captures};
ghost use Rattle.ht_legacy_blocks.specs.Frames.{mapped};
ghost use Rattle.ht_legacy_blocks.specs.Readers.{ReadsItems, ReadsOn, has_begun, legacy_at, legacy_counts, legacy_means, seen};

use crate::block::LegacyBlock;
use crate::fields;
use crate::head::LegacyFrameHead;
use crate::stage::Stage;
use crate::symbol::{CARRIERS, DIAGONALS, LegacySymbol, SAMPLES};
use ht_clause18::LegacyRate;
use ht_feed::{BlockReader, Came};
use ht_fields::{end, fill};
use ht_io::{InFault, Source};
use std::alloc::{AllocError, Global};
use std::marker::Model;
use std::sync::Arc;

/// What comes of a call: a head, a block or the end, or why there is none.
type Answer = Result<Came<LegacyFrameHead, LegacyBlock>, InFault>;

/// Reads a capture of clause 18 frames, in blocks of jobs of one symbol.
///
/// It keeps the diagonals of one frame and one symbol, whose memory goes round: a symbol takes memory only while a
/// block has the last one. Where that lacks, it answers `NoMemory`.
#[derive(Debug, Drop)]
pub struct LegacyReader {
    alloc: Global,
    stage: Stage,
    // The octets that were read.
    at: u64,
    // The frames that began, the head of the last of them with the octets of its diagonals, how many of its symbols
    // were read, and how many jobs all symbols have that were read.
    frames: u16,
    head: LegacyFrameHead,
    diagonals: [u8; DIAGONALS],
    symbols: u32,
    jobs: u64,
    // The symbol that was read last, and on how many of its subcarriers the jobs weren't given.
    symbol: Arc<LegacySymbol, Global>,
    left: u8,
}

impl Model for LegacyReader {
    ghost use Rattle.std.specs.Arc.{arc_value};
    ghost use Rattle.ht_legacy_blocks.specs.Jobs.{diagonals_of};
    ghost use Rattle.ht_legacy_blocks.specs.Readers.{IsSound, Progress, progress};

    ghost Value = { Progress };

    ghost view = { λ r. progress r.stage r.at r.frames r.head (diagonals_of r.diagonals) r.symbols r.jobs (arc_value r.symbol) r.left };

    ghost invariant = { λ r. IsSound (progress r.stage r.at r.frames r.head (diagonals_of r.diagonals) r.symbols r.jobs (arc_value r.symbol) r.left) };
}

// Makes it this symbol, where no block has it, and tells whether it did.
fn rewrite(kept: &mut Arc<LegacySymbol, Global>, symbol: &LegacySymbol) -> bool
    ensures { MatchBool result (arc_value kept.new ≡ symbol.now) (arc_value kept.new ≡ arc_value kept.old) }
{
    match Arc::get_mut(kept) {
        Some(own) => {
            *own = symbol.copy();
            true
        }
        None => false,
    }
}

// Makes it this symbol, in memory of its own where blocks have it. The only error is lack of memory.
fn keep(
    alloc: Global,
    kept: &mut Arc<LegacySymbol, Global>,
    symbol: &LegacySymbol,
) -> Result<(), AllocError>
    ensures kept { OnOk result (arc_value kept.new ≡ symbol.now) }
    ensures none { IfErr result (λ _. arc_value kept.new ≡ arc_value kept.old) }
{
    if rewrite(kept, symbol) {
        return Ok(());
    }
    *kept = Arc::new(alloc, symbol.copy())?;
    Ok(())
}

impl LegacyReader {
    /// A reader in front of a capture, whatever source that will come from. The only error is lack of memory.
    pub fn new(alloc: Global) -> Result<LegacyReader, AllocError>
        ensures means { IfOk result (λ it. (octets : List ℕ) → legacy_means it octets ≡ mapped (meaning captures captures.start 0 octets)) }
        ensures at { IfOk result (λ it. legacy_at it ≡ 0) }
        ensures going { IfOk result (λ it. (legacy_counts it).going ≡ true) }
        ensures given { IfOk result (λ it. (legacy_counts it).given ≡ 0) }
        ensures bounded { IfOk result (λ it. (legacy_counts it).more ≤ 65535 * 71033) }
    {
        let head = LegacyFrameHead {
            frame: 0,
            rate: LegacyRate::Mbit6,
            length: 1,
        };
        let diagonals = [0; DIAGONALS];
        let symbol = LegacySymbol::new(head, 0, 0, &diagonals, &[0; SAMPLES]);
        Ok(LegacyReader {
            alloc,
            stage: Stage::Start,
            at: 0,
            frames: 0,
            head,
            diagonals,
            symbols: 0,
            jobs: 0,
            symbol: Arc::new(alloc, symbol)?,
            left: 0,
        })
    }

    // Gives the next jobs of the symbol that was read, at most this number.
    fn give(&mut self, most: u16) -> Result<LegacyBlock, AllocError>
        requires some { 1 ≤ most }
        requires due { 1 ≤ self.old.left }
        ensures told { IfOk result (λ block. (source : Device ℕ) → Gives (seen self.old source) (seen self.new source) (map One block)) }
        ensures counted { IfOk result (CountsBlock most (legacy_counts self.old) (legacy_counts self.new)) }
        ensures none { IfErr result (λ _. self.new ≡ self.old) }
    {
        let symbol = Arc::try_clone(&self.symbol)?;
        let first = CARRIERS - self.left;
        let count = u16::from(self.left).min(most) as u8;
        self.left -= count;
        Ok(LegacyBlock::of(symbol, first, count))
    }

    // Gives the next jobs of the symbol that was read, or answers that memory lacked.
    fn block<S: Source>(&mut self, most: u16, source: &mut S) -> Answer
        requires some { 1 ≤ most }
        requires due { 1 ≤ self.old.left }
        ensures { ReadsOn most self.old self.new (S.shown source.old) (S.shown source.new) result }
    {
        match self.give(most) {
            Ok(block) => Ok(Came::Block(block)),
            Err(_) => Err(InFault::NoMemory),
        }
    }

    // Reads what stands in front of the frames.
    fn start<S: Source>(&mut self, source: &mut S) -> Result<(), InFault>
        requires stage { self.old.stage ≡ Stage.Start }
        requires none { self.old.left ≡ 0 }
        ensures told { ReadsItems result (seen self.old (S.shown source.old)) (seen self.new (S.shown source.new)) (λ _. []) }
        ensures stage { OnOk result (has_begun self.new.stage ≡ true) }
        ensures none { self.new.left ≡ 0 }
        ensures given { (legacy_counts self.new).given ≡ (legacy_counts self.old).given }
        ensures never_more { (legacy_counts self.new).more ≤ (legacy_counts self.old).more }
        ensures later { IsLater (S.shown source.old) (S.shown source.new) }
    {
        match fields::start(source) {
            Ok(frames) => {
                self.at = 7;
                self.stage = Stage::Due { frames, symbols: 0 };
                Ok(())
            }
            Err(fault) => Err(fault),
        }
    }

    // Reads what stands in front of the symbols of the next frame, and gives its head.
    fn frame<S: Source>(&mut self, source: &mut S, frames: u16) -> Result<LegacyFrameHead, InFault>
        requires stage { self.old.stage ≡ Stage.Due frames 0 }
        requires some { 1 ≤ frames }
        requires none { self.old.left ≡ 0 }
        ensures told { ReadsItems result (seen self.old (S.shown source.old)) (seen self.new (S.shown source.new)) (λ head. Begins head ∷ []) }
        ensures counted { OnOk result (CountsHead (legacy_counts self.old) (legacy_counts self.new)) }
        ensures never_more { (legacy_counts self.new).more ≤ (legacy_counts self.old).more }
        ensures later { IsLater (S.shown source.old) (S.shown source.new) }
    {
        match fields::frame_front(source, self.at) {
            Ok(front) => {
                self.head = LegacyFrameHead {
                    frame: self.frames,
                    rate: front.rate,
                    length: front.length,
                };
                let diagonals = front.diagonals;
                self.diagonals = diagonals;
                self.at += 107;
                self.frames += 1;
                self.symbols = 0;
                self.stage = Stage::Due {
                    frames: frames - 1,
                    symbols: front.rate.symbols(front.length),
                };
                Ok(self.head)
            }
            Err(fault) => Err(fault),
        }
    }

    // Reads the next symbol: its jobs are due.
    fn symbol<S: Source>(
        &mut self,
        source: &mut S,
        frames: u16,
        symbols: u32,
    ) -> Result<(), InFault>
        requires stage { self.old.stage ≡ Stage.Due frames symbols }
        requires some { 1 ≤ symbols }
        requires none { self.old.left ≡ 0 }
        ensures told { ReadsItems result (seen self.old (S.shown source.old)) (seen self.new (S.shown source.new)) (λ _. []) }
        ensures due { OnOk result (1 ≤ self.new.left) }
        ensures given { OnOk result ((legacy_counts self.new).given ≡ (legacy_counts self.old).given) }
        ensures never_more { (legacy_counts self.new).more ≤ (legacy_counts self.old).more }
        ensures later { IsLater (S.shown source.old) (S.shown source.new) }
    {
        let mut samples = [0u8; SAMPLES];
        match fill(source, self.at, &mut samples) {
            Ok(()) => {}
            Err(fault) => return Err(fault),
        }
        let symbol = LegacySymbol::new(
            self.head,
            self.symbols,
            self.jobs,
            &self.diagonals,
            &samples,
        );
        match keep(self.alloc, &mut self.symbol, &symbol) {
            Ok(()) => {}
            Err(_) => return Err(InFault::NoMemory),
        }
        self.at += SAMPLES as u64;
        self.symbols += 1;
        self.jobs += u64::from(CARRIERS);
        self.left = CARRIERS;
        self.stage = Stage::Due {
            frames,
            symbols: symbols - 1,
        };
        Ok(())
    }

    // Sees that the input ends.
    fn finish<S: Source>(&mut self, source: &mut S) -> Result<(), InFault>
        requires stage { self.old.stage ≡ Stage.Due 0 0 }
        requires none { self.old.left ≡ 0 }
        ensures told { MatchResult result (λ _. Completes (seen self.old (S.shown source.old)) (S.shown source.new))
            (Halts (seen self.old (S.shown source.old)) (S.shown source.new)) }
        ensures same { self.new ≡ self.old }
        ensures later { IsLater (S.shown source.old) (S.shown source.new) }
    {
        end(source, self.at)
    }

    // Reads a symbol, and gives its first jobs.
    fn symbol_block<S: Source>(
        &mut self,
        most: u16,
        source: &mut S,
        frames: u16,
        symbols: u32,
    ) -> Answer
        requires most { 1 ≤ most }
        requires stage { self.old.stage ≡ Stage.Due frames symbols }
        requires some { 1 ≤ symbols }
        requires none { self.old.left ≡ 0 }
        ensures { ReadsOn most self.old self.new (S.shown source.old) (S.shown source.new) result }
    {
        match self.symbol(source, frames, symbols) {
            Ok(()) => self.block(most, source),
            Err(fault) => Err(fault),
        }
    }

    // Reads on where no jobs are due, behind what stands in front of the frames.
    fn go<S: Source>(&mut self, most: u16, source: &mut S) -> Answer
        requires most { 1 ≤ most }
        requires begun { has_begun self.old.stage ≡ true }
        requires none { self.old.left ≡ 0 }
        ensures { ReadsOn most self.old self.new (S.shown source.old) (S.shown source.new) result }
    {
        match self.stage {
            Stage::Start => unreachable!(),
            Stage::Due { frames, symbols } => {
                if symbols > 0 {
                    self.symbol_block(most, source, frames, symbols)
                } else if frames > 0 {
                    match self.frame(source, frames) {
                        Ok(head) => Ok(Came::Head(head)),
                        Err(fault) => Err(fault),
                    }
                } else {
                    match self.finish(source) {
                        Ok(()) => Ok(Came::End),
                        Err(fault) => Err(fault),
                    }
                }
            }
        }
    }

    // Reads on where no jobs are due, from the start of the capture.
    fn begin<S: Source>(&mut self, most: u16, source: &mut S) -> Answer
        requires most { 1 ≤ most }
        requires stage { self.old.stage ≡ Stage.Start }
        requires none { self.old.left ≡ 0 }
        ensures { ReadsOn most self.old self.new (S.shown source.old) (S.shown source.new) result }
    {
        match self.start(source) {
            Ok(()) => self.go(most, source),
            Err(fault) => Err(fault),
        }
    }
}

impl BlockReader for LegacyReader {
    type Head = LegacyFrameHead;

    type Block = LegacyBlock;

    ghost means = { legacy_means };

    ghost at = { legacy_at };

    ghost counts = { legacy_counts };

    fn next<S: Source>(&mut self, most: u16, source: &mut S) -> Answer {
        if self.left > 0 {
            return self.block(most, source);
        }
        match self.stage {
            Stage::Start => self.begin(most, source),
            Stage::Due { .. } => self.go(most, source),
        }
    }

    fn ready(&mut self, most: u16) -> Option<LegacyBlock> {
        if self.left == 0 {
            return None;
        }
        match self.give(most) {
            Ok(block) => Some(block),
            Err(_) => None,
        }
    }
}

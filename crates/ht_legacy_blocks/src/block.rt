//! Blocks of jobs.
ghost use Rattle.std.specs.Prelude.{◌≡◌, ◌+◌, ◌≤◌, ◌<◌, Some};
ghost use Rattle.std.specs.Arc.{arc_value};
ghost use Rattle.ht_clause18.specs.Carriers.{carriers};
ghost use Rattle.ht_legacy_blocks.specs.Jobs.{jobs_between};

use crate::head::LegacyFrameHead;
use crate::lanes;
use crate::symbol::LegacySymbol;
use ht_capture_blocks::InLanes;
use ht_feed::{InFrame, Jobs, Shared};
use ht_metric::{Job, Place};
use ht_rate::Modulation;
use ht_rounding::Labelled;
use std::alloc::Global;
use std::marker::Model;
use std::sync::Arc;

/// The jobs of some subcarriers of a symbol, which follow one another, at most 52.
///
/// It is a handle of two words. Diagonals and samples stay where the symbol lies, which its blocks share, and each job
/// is made when it is asked for.
#[derive(Debug, Drop)]
pub struct LegacyBlock {
    symbol: Arc<LegacySymbol, Global>,
    first: u8,
    count: u8,
}

impl Model for LegacyBlock {
    ghost use Rattle.std.specs.Prelude.{◌+◌, ◌≤◌, List};
    ghost use Rattle.std.specs.Arc.{arc_value};
    ghost use Rattle.ht_clause18.specs.Carriers.{carriers};
    ghost use Rattle.ht_metric.specs.Jobs.{JobView};
    ghost use Rattle.ht_legacy_blocks.specs.Jobs.{jobs_between};

    ghost Value = { List JobView };

    ghost view = { λ b. jobs_between (arc_value b.symbol) b.first b.count };

    ghost invariant = { λ b. b.first + b.count ≤ carriers };
}

impl LegacyBlock {
    // The block of a number of subcarriers of a symbol, from one on.
    pub(crate) fn of(symbol: Arc<LegacySymbol, Global>, first: u8, count: u8) -> LegacyBlock
        requires { first + count ≤ carriers }
        ensures { result ≡ jobs_between (arc_value symbol) first count }
    {
        LegacyBlock {
            symbol,
            first,
            count,
        }
    }
}

impl Jobs for LegacyBlock {
    ghost jobs = { λ b. b };

    #[inline]
    fn size(&self) -> u16 {
        u16::from(self.count)
    }

    #[inline]
    fn place(&self) -> Place {
        self.symbol.place(self.first)
    }

    #[inline]
    #[tactic(auto, using(crate::proofs::Splitting::jobs_length))]
    fn place_at(&self, at: u16) -> Place {
        self.symbol.place(self.first + at as u8)
    }

    #[inline(always)]
    #[tactic(auto, using(crate::proofs::Splitting::jobs_length))]
    fn job(&self, at: u16) -> Job {
        self.symbol.job(self.first + at as u8)
    }
}

impl InLanes for LegacyBlock {
    /// Diagonals and samples are loaded straight from the octets of the symbol.
    #[inline]
    #[tactic(auto, using(crate::proofs::Splitting::jobs_length))]
    fn labels(&self, modulation: Modulation, at: u16) -> Labelled {
        lanes::labels(&self.symbol, modulation, self.first + at as u8)
    }
}

impl InFrame for LegacyBlock {
    type Head = LegacyFrameHead;

    fn head(&self) -> &LegacyFrameHead {
        self.symbol.head()
    }
}

impl Shared for LegacyBlock {
    fn same(&self, other: &LegacyBlock) -> bool {
        self.first == other.first && self.count == other.count && self.symbol.same(&other.symbol)
    }

    fn copy(&self) -> Option<LegacyBlock> {
        match Arc::try_clone(&self.symbol) {
            Ok(symbol) => Some(LegacyBlock::of(symbol, self.first, self.count)),
            Err(_) => None,
        }
    }
}

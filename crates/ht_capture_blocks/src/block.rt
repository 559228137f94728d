//! Blocks of a capture as lists of jobs.
ghost use Rattle.std.specs.Prelude.{◌≡◌, ◌↔◌, IfSome, IsTrue};
ghost use Rattle.ht_capture.specs.Parts.{jobs_of};

use crate::in_lanes::InLanes;
use ht_capture::{FrameHead, SymbolBlock};
use ht_feed::{InFrame, Jobs, Shared};
use ht_metric::{Job, Place};
use ht_rate::Modulation;
use ht_rounding::Labelled;

/// Some of the jobs of one symbol of a capture, in a handle of a few words: triangles and samples stay where the symbol
/// lies.
#[derive(Debug, Drop)]
pub struct CaptureBlock {
    /// The subcarriers of the symbol.
    pub block: SymbolBlock,
}

impl Jobs for CaptureBlock {
    ghost jobs = { λ b. jobs_of b.block };

    #[inline]
    fn size(&self) -> u16 {
        self.block.size()
    }

    #[inline]
    fn place(&self) -> Place {
        self.block.place()
    }

    #[inline]
    fn place_at(&self, at: u16) -> Place {
        self.block.place_at(at)
    }

    #[inline(always)]
    fn job(&self, at: u16) -> Job {
        self.block.job(at)
    }
}

impl InFrame for CaptureBlock {
    type Head = FrameHead;

    fn head(&self) -> &FrameHead
        ensures { result.now ≡ self.now.block.head }
    {
        self.block.head()
    }
}

impl InLanes for CaptureBlock {
    /// The channels are loaded from the columns of the frame, and the samples straight from the octets of the symbol.
    #[inline]
    fn labels(&self, modulation: Modulation, at: u16) -> Labelled {
        self.block.labels(modulation, at)
    }
}

impl Shared for CaptureBlock {
    ghost alike = { λ one other. one.block ≡ other.block };

    /// Whether both have the same head, symbol, numbers, subcarriers, triangles and samples.
    fn same(&self, other: &CaptureBlock) -> bool
        ensures { IsTrue result ↔ (self.now.block ≡ other.now.block) }
    {
        self.block.same(&other.block)
    }

    /// The same block, or none where there is no memory for it.
    fn copy(&self) -> Option<CaptureBlock>
        ensures { IfSome result (λ copy. copy.block ≡ self.now.block) }
    {
        match self.block.copy() {
            Ok(block) => Some(CaptureBlock { block }),
            Err(_) => None,
        }
    }
}

//! Captures, read in blocks.
ghost use Rattle.std.specs.Prelude.{◌≡◌, ◌≤◌, ◌*◌, ℕ, List, true, IfOk};
ghost use Rattle.ht_fields.specs.Meanings.{meaning};
ghost use Rattle.ht_capture.specs.Fields.{captures};
ghost use Rattle.ht_capture_blocks.specs.Captures.{capture_at, capture_counts, capture_means, mapped};

use crate::block::CaptureBlock;
use ht_capture::{BlockItem, FrameHead, Reader};
use ht_feed::{BlockReader, Came};
use ht_io::{InFault, Source};
use std::alloc::{AllocError, Global};

/// Reads a capture of either version, in blocks of jobs of one symbol.
///
/// It takes memory for a frame's triangles once a frame, and for samples only while a block has the last symbol's. Where
/// that lacks, it answers `NoMemory` and loses no job.
#[derive(Debug, Drop)]
pub struct CaptureReader {
    reader: Reader,
}

impl CaptureReader {
    /// A reader in front of a capture, whatever source that will come from. The only error is lack of memory.
    pub fn new(alloc: Global) -> Result<CaptureReader, AllocError>
        ensures means { IfOk result (λ it. (octets : List ℕ) → capture_means it.reader octets ≡ mapped (meaning captures captures.start 0 octets)) }
        ensures at { IfOk result (λ it. capture_at it.reader ≡ 0) }
        ensures going { IfOk result (λ it. (capture_counts it.reader).going ≡ true) }
        ensures given { IfOk result (λ it. (capture_counts it.reader).given ≡ 0) }
        ensures bounded { IfOk result (λ it. (capture_counts it.reader).more ≤ 65535 * 1129297) }
    {
        Ok(CaptureReader {
            reader: Reader::new(alloc)?,
        })
    }
}

impl BlockReader for CaptureReader {
    type Head = FrameHead;

    type Block = CaptureBlock;

    ghost means = { λ it. capture_means it.reader };

    ghost at = { λ it. capture_at it.reader };

    ghost counts = { λ it. capture_counts it.reader };

    fn next<S: Source>(
        &mut self,
        most: u16,
        source: &mut S,
    ) -> Result<Came<FrameHead, CaptureBlock>, InFault> {
        match self.reader.next_block(most, source) {
            Ok(BlockItem::Frame(head)) => Ok(Came::Head(head)),
            Ok(BlockItem::Block(block)) => Ok(Came::Block(CaptureBlock { block })),
            Ok(BlockItem::Done) => Ok(Came::End),
            Err(fault) => Err(fault),
        }
    }

    fn ready(&mut self, most: u16) -> Option<CaptureBlock> {
        match self.reader.ready_block(most) {
            Some(block) => Some(CaptureBlock { block }),
            None => None,
        }
    }
}

//! Blocks beside single jobs.
use crate::common::whole;
use crate::equal::equal;
use ht_capture::{BlockItem, Item, Reader, SymbolBlock};
use ht_io::MemSource;
use std::alloc::{AllocError, Global};
use std::test::Fail;

/// A capture of two frames of four octets at 20 MHz, MCS 8, so with two streams: each has 2 symbols of 56 jobs.
fn octets(alloc: Global) -> Result<Vec<u8>, AllocError> {
    let mut octets = b"HTCP\x01\x00\x02".to_vec(alloc)?;
    for frame in 0..2u8 {
        octets.extend_from_slice(b"\x00\x08\x00\x04")?;
        for carrier in 0..56u8 {
            octets.extend_from_slice(&[0, carrier, frame, 1, 0, 2, 0, 9])?;
        }
        for at in 0..1792u16 {
            octets.push(((at % 251) as u8).wrapping_add(frame))?;
        }
    }
    Ok(octets)
}

fn source(alloc: Global) -> Result<MemSource, AllocError> {
    Ok(whole(alloc, octets(alloc)?))
}

/// Whether a block's jobs are those that a reader gives one by one.
fn is_next(block: &SymbolBlock, reader: &mut Reader, source: &mut MemSource) -> bool {
    let mut same = true;
    for at in 0..block.size() {
        let job = block.job(at);
        same = same
            && match reader.next(source) {
                Ok(Item::Job(one)) => job.same(&one) && block.place_at(at) == one.place(),
                _ => false,
            };
    }
    same
}

/// How many blocks come whose jobs are those that come one by one, up to the end or to others; and whether the end came.
fn blocks(alloc: Global, most: u16) -> Result<(u16, bool), AllocError> {
    let mut reader = Reader::new(alloc)?;
    let mut singles = Reader::new(alloc)?;
    let (mut one, mut other) = (source(alloc)?, source(alloc)?);
    let mut count = 0u16;
    for _ in 0..500u16 {
        let same = match reader.next_block(most.max(1), &mut one) {
            Ok(BlockItem::Frame(head)) => match singles.next(&mut other) {
                Ok(Item::Frame(next)) => head == next,
                _ => false,
            },
            Ok(BlockItem::Block(block)) => {
                count = count.saturating_add(1);
                is_next(&block, &mut singles, &mut other)
            }
            Ok(BlockItem::Done) => return Ok((count, true)),
            Err(_) => false,
        };
        if !same {
            return Ok((count, false));
        }
    }
    Ok((count, false))
}

// However many jobs a block may have, the jobs are the same.
#[test]
fn sizes(rt: HostRuntime) -> Result<(), Fail> {
    for (most, count) in [
        (1, 112),
        (2, 56),
        (29, 4),
        (50, 4),
        (55, 4),
        (56, 2),
        (65535, 2),
    ] {
        let answer = blocks(rt.alloc(), most)?;
        equal(&rt, (most, answer), (most, (2 * count, true)));
    }
    Ok(())
}

/// The blocks of the four symbols, each of a whole one.
fn symbols(alloc: Global) -> Result<Vec<SymbolBlock>, AllocError> {
    let mut source = source(alloc)?;
    let mut reader = Reader::new(alloc)?;
    let mut blocks = Vec::new(alloc);
    for _ in 0..6u8 {
        if let Ok(BlockItem::Block(block)) = reader.next_block(56, &mut source) {
            blocks.push(block)?;
        }
    }
    Ok(blocks)
}

// A block is the same as its copy and as that block of another reader of the same octets, but not as the other blocks.
#[test]
fn same(rt: HostRuntime) -> Result<(), Fail> {
    let blocks = symbols(rt.alloc())?;
    equal(&rt, blocks.len(), 4);
    for (i, block) in symbols(rt.alloc())?.iter().enumerate() {
        equal(&rt, (i, block.copy()?.same(block)), (i, true));
        for (j, other) in blocks.iter().enumerate() {
            equal(&rt, (i, j, block.same(other)), (i, j, i == j));
        }
    }
    Ok(())
}

// A block keeps its jobs while its reader reads on.
#[test]
fn held(rt: HostRuntime) -> Result<(), Fail> {
    let mut source = source(rt.alloc())?;
    let mut singles = Reader::new(rt.alloc())?;
    for (i, block) in symbols(rt.alloc())?.iter().enumerate() {
        let has_head = i % 2 == 1 || matches!(singles.next(&mut source), Ok(Item::Frame(_)));
        let has_jobs = is_next(block, &mut singles, &mut source);
        equal(&rt, (i, has_head, has_jobs), (i, true, true));
    }
    Ok(())
}

//! Worked words of seven steps. Each call has ample memory.
use crate::decoder::decode_sparse;
use ht_conv::sent;
use ht_rate::Pattern;
use std::alloc::{AllocError, Global};
use std::test::Fail;

// The first input bit and the distance that are found, if any are.
fn answer(alloc: Global, pattern: Pattern, word: u64) -> Result<Option<(bool, u32)>, AllocError> {
    if sent(pattern, 7) > 60 {
        return Err(AllocError);
    }
    match decode_sparse(alloc, 7, pattern, &[word])? {
        Some(found) => Ok(Some((
            found.input.as_slice().first() == Some(&true),
            found.distance,
        ))),
        None => Ok(None),
    }
}

#[test]
fn worked(rt: HostRuntime) -> Result<(), Fail> {
    let answers = [
        // 11 01 11 11 00 10 11, the first place lowest, as 1000000 sends it, and with its sixth place wrong.
        answer(rt.alloc(), Pattern::Half, 0b11_01_00_11_11_10_11)?,
        answer(rt.alloc(), Pattern::Half, 0b11_01_00_11_01_10_11)?,
        // 11 01 11 00 00 00 00 lies as near to 0000000 as to 1000000.
        answer(rt.alloc(), Pattern::Half, 0b00_00_00_00_11_10_11)?,
        // 1101 1100 11, as 1000000 sends it, with its first place wrong.
        answer(rt.alloc(), Pattern::ThreeQuarters, 0b11_0011_1010)?,
    ];
    let expected = [Some((true, 0)), Some((true, 1)), None, Some((true, 1))];
    assert_eq!(rt; answers, expected);
    Ok(())
}

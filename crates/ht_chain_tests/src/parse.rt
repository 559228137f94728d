use crate::equal::equal;
use ht_parse::{from_streams, join_encoders, split_encoders, to_streams};
use ht_rate::Rate;
use std::test::Fail;

// At two encoders 0110 is split into 01 and 10, and they are joined again.
#[test]
fn smoke(rt: HostRuntime) -> Result<(), Fail> {
    let rate = Rate::of(1, 31)?;
    equal(&rt, rate.encoders(), 2);
    let bits = [false, true, true, false];
    let pair = split_encoders(rt.alloc(), &rate, &bits)?;
    let parts = (pair.first.as_slice(), pair.second.as_slice());
    equal(
        &rt,
        parts,
        ([false, true].as_slice(), [true, false].as_slice()),
    );
    let joined = join_encoders(
        rt.alloc(),
        &rate,
        pair.first.as_slice(),
        pair.second.as_slice(),
    )?;
    equal(&rt, joined.as_slice(), bits.as_slice());
    Ok(())
}

// At 40 MHz, MCS 31, stream 2 begins at place 648: its bit 3 is bit 3 of encoder 1, its bit 7 bit 16 of encoder 0.
#[test]
#[tactic(auto, unfolding(ht_parse::specs::Streams::share_of))]
fn vectors(rt: HostRuntime) -> Result<(), Fail> {
    let rate = Rate::of(1, 31)?;
    let encoders = usize::from(rate.encoders());
    let share = usize::from(rate.coded_bits()) / encoders;
    assert_eq!(rt; share, 1296);
    let mut first = Vec::from_elem(rt.alloc(), false, share)?;
    let mut second = Vec::from_elem(rt.alloc(), false, (encoders - 1) * share)?;
    assert!(rt; second.len() > 3);
    first[16] = true;
    second[3] = true;
    let symbol = to_streams(rt.alloc(), &rate, &first, &second)?;
    equal(&rt, symbol.len(), 2592);
    for (place, bit) in symbol.iter().enumerate() {
        equal(
            &rt,
            (place, *bit),
            (place, place == 648 + 3 || place == 648 + 7),
        );
    }
    let pair = from_streams(rt.alloc(), &rate, &symbol)?;
    equal(&rt, pair.first.into_vec(), first);
    equal(&rt, pair.second.into_vec(), second);
    Ok(())
}

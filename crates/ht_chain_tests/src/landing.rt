use crate::equal::equal;
use ht_landing::Landing;
use ht_rate::Rate;

// A rate by the code of its bandwidth and its MCS; the encoder and the coded bit; where that lands: symbol, stream, data
// subcarrier and bit of the label.
type Row = ((u8, u8), (u8, u32), (u32, u8, u8, u8));

static ROWS: [Row; 10] = [
    // BPSK at 20 MHz on four streams: bit 1 of each stream.
    ((0, 24), (0, 4), (0, 1, 4, 0)),
    ((0, 24), (0, 5), (0, 2, 34, 0)),
    ((0, 24), (0, 6), (0, 3, 45, 0)),
    ((0, 24), (0, 7), (0, 4, 23, 0)),
    // 64-QAM at 20 MHz on two streams, in symbol 3: places 26 and 206.
    ((0, 13), (0, 3 * 624 + 1), (3, 1, 4, 2)),
    ((0, 13), (0, 3 * 624 + 4), (3, 2, 34, 2)),
    // 64-QAM at 40 MHz on four streams with two encoders: places 512, 164, 471 and 123.
    ((1, 31), (0, 7), (0, 3, 85, 2)),
    ((1, 31), (0, 10), (0, 4, 27, 2)),
    ((1, 31), (1, 242 * 1296 + 1292), (242, 3, 78, 3)),
    ((1, 31), (1, 242 * 1296 + 1295), (242, 4, 20, 3)),
];

// Where a coded bit lands, if the rate has the encoder.
fn landing_of((bandwidth, mcs): (u8, u8), (encoder, coded): (u8, u32)) -> Option<Landing> {
    let rate = Rate::of(bandwidth, mcs).ok()?;
    if encoder < rate.encoders() {
        return Some(Landing::of(&rate, encoder, coded));
    }
    None
}

#[test]
fn vectors(rt: HostRuntime) {
    for &(rate, coded, (symbol, stream, carrier, bit)) in &ROWS {
        let landing = Landing {
            symbol,
            stream,
            carrier,
            bit,
        };
        let found = landing_of(rate, coded);
        equal(&rt, (rate, coded, found), (rate, coded, Some(landing)));
    }
}

//! The standard's tables and worked lengths, through the public calls.
use crate::equal::equal;
use ht_rate::{Bandwidth, Carrier, Modulation, Pattern, Rate, RateFault};

// Modulation, coding rate, N_BPSCS, and N_DBPS of one stream at 20 and at 40 MHz.
static ROWS: [(Modulation, Pattern, u8, u16, u16); 8] = [
    (Modulation::Bpsk, Pattern::Half, 1, 26, 54),
    (Modulation::Qpsk, Pattern::Half, 2, 52, 108),
    (Modulation::Qpsk, Pattern::ThreeQuarters, 2, 78, 162),
    (Modulation::Qam16, Pattern::Half, 4, 104, 216),
    (Modulation::Qam16, Pattern::ThreeQuarters, 4, 156, 324),
    (Modulation::Qam64, Pattern::TwoThirds, 6, 208, 432),
    (Modulation::Qam64, Pattern::ThreeQuarters, 6, 234, 486),
    (Modulation::Qam64, Pattern::FiveSixths, 6, 260, 540),
];

// What the rate of a code of the bandwidth and an MCS is: modulation, coding rate, N_BPSCS, N_SS and N_DBPS.
type Shown = (Modulation, Pattern, u8, u8, u32);

fn shown(bw: u8, mcs: u8) -> Result<Shown, RateFault> {
    let rate = Rate::of(bw, mcs)?;
    Ok((
        rate.modulation(),
        rate.pattern(),
        rate.label_bits(),
        rate.streams(),
        u32::from(rate.data_bits()),
    ))
}

#[test]
fn vectors(rt: HostRuntime) {
    for mcs in 0..32u8 {
        let (modulation, pattern, label_bits, narrow, wide) = ROWS[(mcs % 8) as usize];
        let streams = mcs / 8 + 1;
        for (bw, one_stream) in [(0u8, narrow), (1, wide)] {
            let data_bits = u32::from(streams) * u32::from(one_stream);
            let row = (modulation, pattern, label_bits, streams, data_bits);
            equal(&rt, (mcs, shown(bw, mcs)), (mcs, Ok(row)));
        }
    }
}

#[test]
fn longest(rt: HostRuntime) -> Result<(), RateFault> {
    let rate = Rate::of(0, 0)?;
    let lengths = (
        rate.symbols(100),
        rate.pads(100),
        rate.codeword_steps(100),
        rate.symbols(65535),
    );
    equal(&rt, lengths, (32, 10, 822, 20166));
    let rate = Rate::of(1, 31)?;
    let lengths = (
        rate.symbols(65535),
        rate.pads(65535),
        rate.codeword_steps(65535),
    );
    equal(&rt, lengths, (243, 572, 262154));
    let sizes = (
        (rate.mcs(), rate.bandwidth(), rate.encoders()),
        (rate.data_carriers(), rate.pilots(), rate.carriers()),
        (rate.stream_bits(), rate.coded_bits()),
        (rate.carrier(5), rate.carrier(6)),
    );
    let expected = (
        (31, Bandwidth::Mhz40, 2),
        (108, 6, 114),
        (648, 2592),
        (Carrier::Pilot(0), Carrier::Data(5)),
    );
    equal(&rt, sizes, expected);
    Ok(())
}

#[test]
fn refusals(rt: HostRuntime) {
    let refused = [
        (2, 32, RateFault::BadBandwidth, 1),
        (1, 32, RateFault::BadMcs, 2),
    ];
    for (bw, mcs, fault, number) in refused {
        equal(&rt, (Rate::of(bw, mcs), fault as u8), (Err(fault), number));
    }
}

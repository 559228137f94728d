//! Frames whose labels are known, each call with ample memory. A label is the digit of its value, '0' for 0, '1' for 1 and
//! so on.
ghost use Rattle.std.specs.Prelude.{◌≡◌, ◌≤◌};
ghost use Rattle.ht_inverse.specs.Received.{labels_in_frame};

use crate::equal::equal;
use ht_inverse::{Alone, Decoder, Outcome, Together, decode_frame, decode_frame_together};
use ht_rate::Rate;
use std::test::Fail;

// The octet a5 with seed 127 at MCS 0 of 20 MHz.
const ONE_OCTET: &[&str] = &[
    "01100000010001100101010001100000101111101110010100000101110011111111011101100100001010001000001111101000",
];

// The same with four wrong labels: those of data subcarriers 1 and 4 in both symbols. Data subcarrier 1 of symbol 1 has a
// bit behind the tail.
const FOUR_WRONG: &[&str] = &[
    "00101000010001100101010001100000101111101110010100000001010011111111011101100100001010001000001111101000",
];

// Three streams of QPSK, rate 3/4.
const THREE_STREAMS: &[&str] = &[
    "02033100313203132131020310122033022301313123132110003101113332210011033333333330210023232131021122131111003313",
    "0332210001303002022100333112030023020203010222",
];

// Four streams of 16-QAM, rate 3/4, at 40 MHz with two encoders.
const TWO_ENCODERS: &[&str] = &[
    "<25285:;17014?51<3==2><==<3<755>2271=:401>0==426;;17795949;;84<058;??1<>54?<9<063>1:84?01?28361;1?5:=98070617<",
    "5<67:;6413<80:05=6=::=>84<358088=8108?85?97060>615>=73472<>7>:36:>=1:0<:;2:9?4:33=?51258247>9630;>546993747?:8",
    "474;291<8;57<6=117855:756>3?32;9<484520>=;154929;:>687?1488?:0?3?190<2?:<??>692<81?>4;1>7124=>:5>265;09?;?:691",
    "519227::0<1<27=4><:>1566819396<4<4426:;89;=825=4;=8>1904=:7?95=?:28;:8:0?6:>60<=47:38=;<633775:?9;63;9",
];

// Points of any kind on two streams of 16-QAM.
const NO_SEED: &[&str] = &[
    "12952;;:90:02:2004<:<68226060>0;>>0?0<21010=04866948070141>?:925=441084400<2;502800000007802<1023?80:=89",
];

// Points of any kind on three streams of QPSK.
const MANY_WRONG: &[&str] = &[
    "02301100313113301110322121200320012101101122103332002330320102320303121320131133300130003101100200000133131121",
    "3330010300000033130120201011303023312222011030",
];

// Four streams of 64-QAM, rate 5/6, at 40 MHz with two encoders, where nine subcarriers are erased.
const NINE_ERASED: &[&str] = &[
    "lVd2k1n9nlI[b_28a@9TVR[mNB`@ClhGH<JWm=jF70E53NKfeJTRdaoi>K@EcLRX8QBUA4lM\\W8gOZ_m0000Ro;>VbR<1`Kf9^ES6d`hW1TLT=",
    "mmNN@Ma4G;E[WU00004bE4[lol^kIjonISkbbQLaPXQoZ30000WZH`ZVV=g0^MQ[\\:3gI]j\\]2_X7GkM`QkYh3JW2j_oZ_0000AR0FCV[;B1Yl",
    "l[210000n@BDbRnmaB8@;l?G>89WCEPOH0JUmNjf7JER\\aKieOlEdQ_D>E@ec^RM8@BgNRlm7CGU57_3<EK63o;FGIR<=IKfMblS;8mh0000jT",
    "G54iWMi@O;1gEUj\\oj0000knI<Ibbj2aKS[V2QLR:X00004VVJW0^jB[QEGYVKQdFT3X<M0000_YSFDWh^CD7OJTXn_Ohi53JfAR8I",
];

// A frame: its bandwidth (0 is 20 MHz, 1 is 40 MHz), MCS and length, its erased subcarriers (bit c for subcarrier c) and its
// labels; and what it decodes to: at how many places the codewords differ from the detected bits, and the octets, none where
// the seed would be zero.
type Case = (
    (u8, u8, u16),
    u128,
    &'static [&'static str],
    (u32, &'static [u8]),
);

// The labels of some lines of digits.
fn labels(rt: &HostRuntime, lines: &[&str]) -> Result<Vec<u8>, Fail> {
    let mut labels = Vec::new(rt.alloc());
    for line in lines {
        for digit in line.as_bytes() {
            labels.push(digit.saturating_sub(b'0'))?;
        }
    }
    Ok(labels)
}

// The number of labels of a frame.
fn count_of(rate: &Rate, length: u16) -> usize
    requires { 1 ≤ length }
    ensures { result ≡ labels_in_frame rate.now length }
{
    let per_symbol = usize::from(rate.data_carriers()) * usize::from(rate.streams());
    rate.symbols(length) as usize * per_symbol
}

// Whether a decoder that may have decoded other frames gives what the case says.
fn meets<D: Decoder>(rt: &HostRuntime, decoder: &mut D, case: &Case) -> Result<bool, Fail> {
    let &((bandwidth, mcs, length), erased, lines, (code, octets)) = case;
    let rate = Rate::of(bandwidth, mcs)?;
    let labels = labels(rt, lines)?;
    if length == 0 || labels.len() != count_of(&rate, length) {
        return Ok(false);
    }
    let frame = decoder.decode(rt.alloc(), &rate, length, erased, &labels)?;
    Ok(frame.code == code && is_outcome(&frame.outcome, octets))
}

// Whether an outcome has these octets; none stand for a seed that would be zero.
fn is_outcome(outcome: &Outcome, octets: &[u8]) -> bool {
    match outcome {
        Outcome::Octets(got) => got.as_slice() == octets,
        Outcome::SeedZero => octets.is_empty(),
    }
}

static CASES: [Case; 8] = [
    ((0, 0, 1), 0, ONE_OCTET, (0, &[0xa5])),
    ((0, 0, 1), 0, FOUR_WRONG, (3, &[0xa5])),
    ((0, 0, 1), 1 << 4, FOUR_WRONG, (1, &[0xa5])),
    (
        (0, 18, 16),
        0,
        THREE_STREAMS,
        (
            0,
            &[
                0xa0, 0x7d, 0x69, 0x56, 0xd1, 0x92, 0x2f, 0x14, 0xb3, 0xd3, 0x39, 0x17, 0xca, 0x3d,
                0x1a, 0xbe,
            ],
        ),
    ),
    (
        (1, 28, 19),
        0,
        TWO_ENCODERS,
        (
            0,
            &[
                0x52, 0x89, 0x0f, 0xc3, 0xed, 0xbd, 0x91, 0x0a, 0x58, 0x46, 0x42, 0x6f, 0xc0, 0xb2,
                0xf8, 0xc8, 0x0a, 0x67, 0x3a,
            ],
        ),
    ),
    ((0, 11, 1), 0, NO_SEED, (12, &[])),
    ((0, 17, 1), 0, MANY_WRONG, (12, &[0x12])),
    (
        (1, 31, 14),
        0x204104000000840020100200000,
        NINE_ERASED,
        (
            0,
            &[
                0x51, 0xf0, 0xcd, 0xe6, 0x89, 0x92, 0xeb, 0x78, 0xfb, 0x04, 0x7c, 0x92, 0xe7, 0xc2,
            ],
        ),
    ),
];

#[test]
fn vectors(rt: HostRuntime) -> Result<(), Fail> {
    let mut alone = Alone::new();
    let mut together = Together::new(&rt);
    for (number, case) in CASES.iter().enumerate() {
        let met = (
            meets(&rt, &mut alone, case)?,
            meets(&rt, &mut together, case)?,
        );
        equal(&rt, (number, met), (number, (true, true)));
    }
    Ok(())
}

#[test]
fn zeros(rt: HostRuntime) -> Result<(), Fail> {
    let rate = Rate::of(0, 8)?;
    let labels = Vec::from_elem(rt.alloc(), 0u8, count_of(&rate, 1))?;
    equal(&rt, labels.len(), 104);
    let alone = decode_frame(rt.alloc(), &rate, 1, 0, &labels)?;
    let together = decode_frame_together(&rt, rt.alloc(), &rate, 1, 0, &labels)?;
    let no_seeds = [
        is_outcome(&alone.outcome, &[]),
        is_outcome(&together.outcome, &[]),
    ];
    equal(
        &rt,
        (alone.code, together.code, no_seeds),
        (0, 0, [true, true]),
    );
    Ok(())
}

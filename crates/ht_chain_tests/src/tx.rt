//! Frames whose points are known, each call with ample memory.
use crate::equal::equal;
use ht_pam::Point;
use ht_rate::Rate;
use ht_scramble::Seed;
use ht_tx::{Frame, transmit};
use std::alloc::AllocError;
use std::test::Fail;

// The octet a5 with seed 127 at MCS 0 of 20 MHz, by the labels and pilots of its two symbols.
static ONE_OCTET: [&str; 4] = [
    "ff0001000100ff00ff00ff00ff000100ff00ff000100ff00ff00ff0001000100ff00ff000100ff0001000100ff000100ff00ff00ff0001000100ff00",
    "ff00ff00ff00ff0001000100ff0001000100010001000100ff00010001000100ff00ff00ff000100ff000100ff00ff00ff00ff00ff000100ff000100",
    "01000100ff00ff00ff0001000100010001000100010001000100ff00010001000100ff00ff0001000100ff00ff000100ff00ff00ff00ff000100ff00",
    "01000100ff00ff00ff000100ff00ff00ff00ff00ff00010001000100ff0001000100ff000100ff00ff00ff00",
];

// Two streams of 64-QAM, rate 5/6.
static TWO_STREAMS: [&str; 4] = [
    "fff9ff010501fdfd0103fdfd05ff0501f9fb0305ffff03fd01fff907010001000301fffff90703fdfd0703fd03ff05fd0705fd07f9fd05f9f9fbf903",
    "ff0303fb0101fbff03fbff070707070105fb07f9f9ff050701000100fd050707fd05fb0101fbff03fb01fb05fdfbf903fd0505f9fbf901030107f901",
    "0705f9fffb070703fbfffbf903fbf9f90100ff00f901fdfdfd030105f903fbf9fb01fd03f90705ff07fb03f901ff0703fffb050705fb050705fd01f9",
    "0501ffff05fffdf9070505fdff000100030307fb0103fff907fbff03f90505030307f9fdf9fdfdfb0707fbfb",
];

// Three streams of QPSK, rate 3/4.
static THREE_STREAMS: [&str; 6] = [
    "ffff01ffffff01010101ff01ffffffff0101ff01010101ffffff0101ff01010101ffff010101ff01ffff01000100010001ffffff0101ff01ffffff01",
    "01ff01ffffff01010101ffff01ff01ff0101ffffff010101ff010101ff0101ff0101ff01010101ffff01ff01ffffffffffff0101ff01ffffff01ff01",
    "ff010101010101000100ff00010101ff01ffff01ffffffffff01ff01ffff0101010101010101010101010101010101010101ffff01ffff01ffffffff",
    "01ff010101ff010101ffff010101ff01ffff01ffff01ff010100ff00010001ff01ffff010101ff01ff01ff01ff01ffffffff01010101ff010101ffff",
    "0101010101ff01ffff01ffffffffffffff010101ffff0101ffffffff01ffffff01ff01ffff01ffffffff010101010101ff0001000100ff01ff0101ff",
    "ffff0101ffffffff01ff0101ffff01ffffff01ffffff0101ffffff01ffff01ff01ff01ff",
];

// Four streams of 64-QAM, rate 5/6.
static FOUR_STREAMS: [&str; 8] = [
    "ff0705fd07f9fd0107fd03fd03030701fb03050705fffffb0305fb05fbffff070101f9ff0703fbf903ff07fb050301fd030505fb0707030301000100",
    "0100ff00030707fd0303fffb07fd03fffbfffdfbfbfbfbfd0503ff03030507ff050703fb0305ff01ff070705f9030707f9fdffffff0105ff010307fd",
    "f9fffb07fdfd03fb03fd05ff01fd05fbfb0501050105010505fffb01fdf907f9fffd0703fdf90703f9fd070501fd070701000100ff000100fff9fdff",
    "fff9010301fffffdf9fbf9fbffffff07010107fbfb01fff907fd01fb0507fb0303fd070301fff901f9f9fb050507fb030505fb07f90507fd05fd0501",
    "f90307030707fffdf9fbfdfbfffdfb07fdfd01010105fffffd01fb01fbfffffb0100ff00010001000107f9ff05fd03fbf9f9fb0303f90505fd030705",
    "ff030705f9ffff07070707fd0107030501ff010703fbfd0105f9070507050703f9010307f9f9030103f901fb03fbfd07fbfdff05fff9fbff03ff01f9",
    "f905030305ff07fffd0701ff0305ff0107f9fd01070107f9ff00010001000100fd07010707fffbfb03ff030103f9030705fdfdff07f907fffd010105",
    "03f9f9fb05fbfff9ff05fffd05f9f9fbf903fb0101fb0503ff01fb03",
];

// Four streams at 40 MHz with two encoders.
static TWO_ENCODERS: [&str; 16] = [
    "030707010107f9ff03fdf9fb0301fbfb03010307fdfb05fd01ff0503f9fffbf901fbfff9fbfb07070100010001000100070107ff05fd0305fd01ffff",
    "01f9fff9fffd030703f9ff03fdf9fb07fdff07030305fb0503ffff01f903f9f9ff05f905f9fdfd01fdfd01010105fdff070707ff010701fb030303fb",
    "fb01fdfdfff9ff0501fdfd0707ff05f9fbf907fbffff0705fffbf9070307fd0505070703fbf90103fd0305ff05030305f9fd03fdfdfd070507ff0303",
    "fbfdfb01070101ff07fffb07f9fb01f9fdfd0101fbfb0501ff0507fdf901010701f903f90703f9fb0707fd070707fb0503050305fd01fd01fff9fd05",
    "01fbf907ff03fbfdff0505fd07030705fd010501fb0303ff0100010001000100f90701ffff05f90705fd030703030307050103fdfdfb03ff03030301",
    "fdfb07fd03fd01ff01ff07fbfd0701fb07f905f907fb030305fff9fdf907fbfffbfffd07070305fffdf901f905ff07010701fb050103f9f90501fd05",
    "07fb05fd0507fbfff9fd0103fdfb0505010001000100ff0003ff05070505f9ff050305f9f903ff0303fdfd0501f907fb03fd05fb03f9f9fdfdff0703",
    "f9ff03ff0503030305ff0503f905f9fd0701fdfdfffb07fff9f9ff01fffd070105fdfbfdfffff9fb05fb0307030705fdf9fff9fb03fdfb0307f90707",
    "0301fff9ffffff0701ff07ff0301030501fbfffffbf9fff9fbfd0307fb03ff03fb01fbf9fbfb0703fffdff0507f9fd0301000100ff000100fdf9f9f9",
    "fdff07050305fd0103ff0101f903fdffff0507ff050701fbfdfd03fb0105fd030307ff05010707fb0503ff07fb01ff05fff9010501fd050107fffd05",
    "fbf9fff9ffff0103fd0107ff03070305f903fffdff030705f905f9030503f9fdfb07ff05fdfdf9010100ff0001000100f9fd0303fbfdff01ff03fdfb",
    "07fffb07fb05fdfbfdfd0101fd0501ff030707fdfbfdfbf9030503f90705fb07fff903f903ff0707ff03f905f90703fb0703fd0503fbfff9fd03fbfd",
    "f9fb0103ff05070503ff0507030303ff030503fdfdfb050503fd0301fdfbfb07fdfb01ff01ff03fff9ff01fbfdfd07fd05fd0701f9ff07fbfd0707ff",
    "fbff05f907fb05fffdf907f9f90707010701fdff0703f9f9050103ffffff05fd07fbff05ff0305fb0701fdfd07fb0107ff010707f9fd05f9fb07fd05",
    "03fffd050101fdf9050305fb07fdff01ff07070303f90501ff00010001000100fffdff07f903fd03fdff070705f903010503fd0303f903fbf905f9fd",
    "fdff0101fffb07fffbf9fdfb",
];

// A level by the two digits of its octet.
fn level(high: u8, low: u8) -> i8 {
    match (high, low) {
        (b'f', b'9') => -7,
        (b'f', b'b') => -5,
        (b'f', b'd') => -3,
        (b'f', b'f') => -1,
        (b'0', b'1') => 1,
        (b'0', b'3') => 3,
        (b'0', b'5') => 5,
        (b'0', b'7') => 7,
        _ => 0,
    }
}

// Adds the points that the digits of their octets give, four digits each.
fn push_points(points: &mut Vec<Point>, line: &str) -> Result<(), AllocError> {
    let digits = line.as_bytes();
    for place in 0..digits.len() / 4 {
        points.push(Point {
            i: level(digits[4 * place], digits[4 * place + 1]),
            q: level(digits[4 * place + 2], digits[4 * place + 3]),
        })?;
    }
    Ok(())
}

// Whether a frame of this rate, seed and octets is sent as these points.
fn meets(
    rt: &HostRuntime,
    (bandwidth, mcs, seed): (u8, u8, u8),
    octets: &[u8],
    lines: &[&str],
) -> Result<bool, Fail> {
    let rate = Rate::of(bandwidth, mcs)?;
    let seed = Seed::new(seed).ok_or("a seed")?;
    let frame = Frame::new(rate, seed, octets.to_vec(rt.alloc())?).ok_or("a frame")?;
    let sent = transmit(rt.alloc(), &frame)?;
    let mut points = Vec::new(rt.alloc());
    for line in lines {
        push_points(&mut points, line)?;
    }
    Ok(usize::from(sent.length()) == octets.len() && sent.points() == points.as_slice())
}

// A frame: the code of its bandwidth, its MCS, its seed and its octets; and its points.
type Row = ((u8, u8, u8), &'static [u8], &'static [&'static str]);

#[test]
fn vectors(rt: HostRuntime) -> Result<(), Fail> {
    let rows: [Row; 5] = [
        ((0, 0, 127), &[0xa5], &ONE_OCTET),
        (
            (0, 15, 55),
            &[0x3c, 0x41, 0x12, 0xd3, 0x0f, 0xf4, 0x5e, 0x02, 0x80, 0x99],
            &TWO_STREAMS,
        ),
        (
            (0, 18, 106),
            &[
                0xa0, 0x7d, 0x69, 0x56, 0xd1, 0x92, 0x2f, 0x14, 0xb3, 0xd3, 0x39, 0x17, 0xca, 0x3d,
                0x1a, 0xbe,
            ],
            &THREE_STREAMS,
        ),
        ((0, 31, 125), &[0xf4], &FOUR_STREAMS),
        (
            (1, 31, 56),
            &[
                0x51, 0xf0, 0xcd, 0xe6, 0x89, 0x92, 0xeb, 0x78, 0xfb, 0x04, 0x7c, 0x92, 0xe7, 0xc2,
            ],
            &TWO_ENCODERS,
        ),
    ];
    for (asked, octets, lines) in rows {
        let met = meets(&rt, asked, octets, lines)?;
        equal(&rt, (asked, met), (asked, true));
    }
    Ok(())
}

#[test]
fn refusals(rt: HostRuntime) -> Result<(), Fail> {
    let rate = Rate::of(0, 0)?;
    let seed = Seed::new(127).ok_or("a seed")?;
    let short = Frame::new(rate, seed, Vec::new(rt.alloc())).is_none();
    let octets = Vec::from_elem(rt.alloc(), 0u8, 65536)?;
    let long = Frame::new(rate, seed, octets).is_none();
    equal(&rt, (short, long), (true, true));
    Ok(())
}

//! Lines of jobs that are found eight at a time.
ghost use Rattle.std.specs.Prelude.{◌≡◌, ◌+◌, ◌*◌, ◌%◌, ◌^◌, ◌<◌, ◌≤◌, ◌++◌, ◌∷◌, [], true, drop, length, map, if◌then◌else◌};
ghost use Rattle.ht_capture.specs.Parts.{jobs_of};
ghost use Rattle.ht_map.specs.Gray.{point_of};
ghost use Rattle.ht_rate.specs.Carriers.{carrier_of};
ghost use Rattle.ht_rate.specs.Rates.{modulation_of};
ghost use Rattle.ht_rate.specs.Schemes.{bits_of};
ghost use Rattle.ht_results.specs.Folding.{label_at};
ghost use Rattle.ht_results.specs.JobTexts.{levels_of, line_at};
ghost use Rattle.ht_results.specs.Plans.{is_data};
ghost use Rattle.ht_rounding.specs.Labels.{AreLabelledFrom, labels_in};
ghost use Rattle.ht_text.specs.Lines.{spaced};
ghost use Rattle.ht_rx.specs.LaneLines.{AreLines, HasLabels, found_in};

use crate::block_lines::is_hard_as_last;
use crate::line_start::LineStart;
use crate::line_texts::{AllTexts, Texts};
use crate::lines::{LINE, write_line};
use crate::pieces::write_octet;
use ht_capture_blocks::CaptureBlock;
use ht_eights::{found_by, is_sure, lanes_from};
use ht_feed::{InFrame, Jobs, OpenGate};
use ht_metric::Place;
use ht_rate::{Carrier, Rate};
use ht_rounding::Labelled;
use itoa::write_digits;

/// How many jobs are found at a time.
pub(crate) const LANES: u16 = 8;

/// What was written: where it begins, and whether the block's last job is among its jobs, was found by itself, and was hard.
#[derive(Clone, Copy)]
pub(crate) struct Written {
    pub(crate) start: usize,
    pub(crate) hard: bool,
}

// Writes the text of the point that has this label, if there is one.
#[inline(always)]
fn write_point(into: &mut [u8], end: usize, texts: &Texts, there: bool, label: u32) -> usize
    requires room { 16 ≤ end }
    requires within { end ≤ length into.old }
    requires label { there ≡ true → label % 256 < 2 ^ bits_of texts.now.modulation }
    ensures start { (result ≤ end) × (end ≤ result + 10) }
    ensures written { drop result into.new
        ≡ spaced (levels_of (if there then point_of texts.now.modulation (label % 256) ∷ [] else [])) ++ drop end into.old }
{
    if there {
        return texts.point(label).write(into, end);
    }
    end
}

// Writes the texts of the points whose labels a lane has, stream by stream.
#[inline(always)]
fn write_points(
    into: &mut [u8],
    end: usize,
    texts: &Texts,
    streams: u8,
    lanes: &Labelled,
    k: usize,
) -> usize
    requires room { 46 ≤ end }
    requires within { end ≤ length into.old }
    requires lane { k < 8 }
    requires streams { streams ≡ lanes.now.streams }
    requires some { 1 ≤ lanes.now.streams }
    requires most { lanes.now.streams ≤ 4 }
    requires labels { HasLabels texts.now.modulation lanes.now k }
    ensures start { (result ≤ end) × (end ≤ result + 40) }
    ensures written { drop result into.new
        ≡ spaced (levels_of (map (point_of texts.now.modulation) (labels_in lanes.now k))) ++ drop end into.old }
{
    let at = write_point(into, end, texts, streams > 3, lanes.fourth[k]);
    let at = write_point(into, at, texts, streams > 2, lanes.third[k]);
    let at = write_point(into, at, texts, streams > 1, lanes.second[k]);
    write_point(into, at, texts, true, lanes.first[k])
}

// Writes the line of a job from this place, as a lane has found it.
#[inline(always)]
#[tactic(auto, unfolding(ht_text::specs::Lines::job_text))]
fn write_found(
    into: &mut [u8],
    end: usize,
    front: &mut LineStart,
    texts: &Texts,
    place: Place,
    streams: u8,
    lanes: &Labelled,
    k: usize,
) -> usize
    requires room { LINE ≤ end }
    requires within { end ≤ length into.old }
    requires lane { k < 8 }
    requires streams { streams ≡ lanes.now.streams }
    requires some { 1 ≤ lanes.now.streams }
    requires most { lanes.now.streams ≤ 4 }
    requires labels { HasLabels texts.now.modulation lanes.now k }
    ensures start { (result ≤ end) × (end ≤ result + LINE) }
    ensures written { drop result into.new ≡ line_at place (found_in texts.now.modulation lanes.now k) ++ drop end into.old }
{
    let at = write_octet(into, end, b'\n');
    let at = write_points(into, at, texts, streams, lanes, k);
    let at = write_digits(u64::from(lanes.distance[k]), into, at);
    let at = texts.carrier(place.carrier).write(into, at);
    front.turn_to(place);
    front.write(into, at)
}

// Whether a subcarrier carries data.
#[inline(always)]
fn carries_data(rate: &Rate, carrier: u8) -> bool
    ensures { result ≡ true → is_data (carrier_of rate.now carrier) ≡ true }
{
    if carrier >= rate.carriers() {
        return false;
    }
    match rate.carrier(carrier) {
        Carrier::Data(_) => true,
        Carrier::Pilot(_) => false,
    }
}

// Writes the line of a block's job that has `at` others before it, found by itself.
fn write_alone(
    into: &mut [u8],
    end: usize,
    front: &mut LineStart,
    block: &CaptureBlock,
    at: u16,
) -> Written
    requires room { LINE ≤ end }
    requires within { end ≤ length into.old }
    requires inside { at < length (jobs_of block.now.block) }
    requires few { length (jobs_of block.now.block) < 2 ^ 16 }
    requires lines { AreLines block.now.block (at + 1) end into.old }
    ensures start { (result.start ≤ end) × (end ≤ result.start + LINE) }
    ensures lines { AreLines block.now.block at result.start into.new }
{
    let job = block.job(at);
    let found = found_by(&OpenGate, &job);
    let start = write_line(into, end, front, job.place(), &found);
    let hard = is_hard_as_last(at + 1 == block.size(), &job, &found);
    Written { start, hard }
}

// Writes the line of a block's job that is in the lane k of eight, of which `at` others are before the first one: as the lane
// has found it where that is sure, and else found by itself, as that of a pilot.
#[inline(always)]
fn write_lane(
    into: &mut [u8],
    end: usize,
    front: &mut LineStart,
    texts: &Texts,
    block: &CaptureBlock,
    streams: u8,
    lanes: &Labelled,
    at: u16,
    k: u16,
) -> Written
    requires room { LINE ≤ end }
    requires within { end ≤ length into.old }
    requires lane { k < 8 }
    requires streams { streams ≡ lanes.now.streams }
    requires inside { at + 8 ≤ length (jobs_of block.now.block) }
    requires few { length (jobs_of block.now.block) < 2 ^ 16 }
    requires texts { texts.now.modulation ≡ modulation_of block.now.block.head.rate }
    requires some { 1 ≤ lanes.now.streams }
    requires most { lanes.now.streams ≤ 4 }
    requires labels { AreLabelledFrom (label_at texts.now.modulation) (jobs_of block.now.block) at lanes.now }
    requires lines { AreLines block.now.block (at + k + 1) end into.old }
    ensures start { (result.start ≤ end) × (end ≤ result.start + LINE) }
    ensures lines { AreLines block.now.block (at + k) result.start into.new }
{
    let place = block.place_at(at + k);
    if is_sure(lanes, k) && carries_data(&block.head().rate, place.carrier) {
        let start = write_found(
            into,
            end,
            front,
            texts,
            place,
            streams,
            lanes,
            usize::from(k),
        );
        return Written { start, hard: false };
    }
    write_alone(into, end, front, block, at + k)
}

// Writes the lines of the first `count` of eight jobs of so many streams of a block, of which `at` others are before the first
// one, as the lanes have found them.
#[inline(always)]
fn write_eight(
    into: &mut [u8],
    end: usize,
    front: &mut LineStart,
    texts: &Texts,
    block: &CaptureBlock,
    streams: u8,
    lanes: &Labelled,
    at: u16,
    count: u16,
) -> Written
    requires room { LINE * count ≤ end }
    requires within { end ≤ length into.old }
    requires count { count ≤ LANES }
    requires streams { streams ≡ lanes.now.streams }
    requires inside { at + 8 ≤ length (jobs_of block.now.block) }
    requires few { length (jobs_of block.now.block) < 2 ^ 16 }
    requires texts { texts.now.modulation ≡ modulation_of block.now.block.head.rate }
    requires some { 1 ≤ lanes.now.streams }
    requires most { lanes.now.streams ≤ 4 }
    requires labels { AreLabelledFrom (label_at texts.now.modulation) (jobs_of block.now.block) at lanes.now }
    requires lines { AreLines block.now.block (at + count) end into.old }
    ensures start { (result.start ≤ end) × (end ≤ result.start + LINE * count) }
    ensures lines { AreLines block.now.block at result.start into.new }
{
    let mut start = end;
    let mut hard = false;
    let mut left = count;
    while left > 0 {
        left -= 1;
        let written = write_lane(into, start, front, texts, block, streams, lanes, at, left);
        start = written.start;
        hard = hard | written.hard;
    }
    Written { start, hard }
}

// Writes the lines of the first `count` of eight jobs of a block, of which `at` others are before the first one. There is code
// of its own for one stream.
fn write_lanes(
    into: &mut [u8],
    end: usize,
    front: &mut LineStart,
    texts: &Texts,
    block: &CaptureBlock,
    at: u16,
    count: u16,
) -> Written
    requires room { LINE * count ≤ end }
    requires within { end ≤ length into.old }
    requires count { count ≤ LANES }
    requires inside { at + 8 ≤ length (jobs_of block.now.block) }
    requires few { length (jobs_of block.now.block) < 2 ^ 16 }
    requires texts { texts.now.modulation ≡ modulation_of block.now.block.head.rate }
    requires lines { AreLines block.now.block (at + count) end into.old }
    ensures start { (result.start ≤ end) × (end ≤ result.start + LINE * count) }
    ensures lines { AreLines block.now.block at result.start into.new }
{
    let lanes = lanes_from(texts.modulation, block, at);
    if lanes.streams == 1 {
        return write_eight(into, end, front, texts, block, 1, &lanes, at, count);
    }
    write_eight(
        into,
        end,
        front,
        texts,
        block,
        lanes.streams,
        &lanes,
        at,
        count,
    )
}

/// Writes the lines of a block's jobs, which are eight or more, to the end. The jobs are found eight at a time, the last ones
/// first; the first eight are taken once more for those that are left.
///
/// It stays out of line, so that what it needs costs nothing where jobs are found by themselves.
#[inline(never)]
pub(crate) fn write_in_lanes(into: &mut [u8], texts: &AllTexts, block: &CaptureBlock) -> Written
    requires some { LANES ≤ length (jobs_of block.now.block) }
    requires few { length (jobs_of block.now.block) < 2 ^ 16 }
    requires room { LINE * length (jobs_of block.now.block) ≤ length into.old }
    ensures within { result.start ≤ length into.new }
    ensures lines { AreLines block.now.block 0 result.start into.new }
{
    let texts = texts.of(block.head().rate.modulation());
    let mut front = LineStart::of(0, 0);
    let mut start = into.len();
    let mut hard = false;
    let mut left = block.size();
    while left > 0 {
        let at = left.saturating_sub(LANES);
        let written = write_lanes(into, start, &mut front, texts, block, at, left - at);
        left = at;
        start = written.start;
        hard = hard | written.hard;
    }
    Written { start, hard }
}

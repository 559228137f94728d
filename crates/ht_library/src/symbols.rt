//! The detector over whole symbols: what is found for each data subcarrier, its labels, and the sums of the squared distances.
ghost use Rattle.std.specs.Prelude.{◌≡◌, ◌⊎◌, ◌↔◌, ◌+◌, ◌*◌, ◌<◌, ◌≤◌, ◌^◌, ℕ, length, map, slice_index, slice_index_or, take};
ghost use Rattle.std.specs.Prelude.{true, Ok, IsTrue};
ghost use Rattle.ht_rate.specs.Rates.{modulation_of, rate_of, streams_of};
ghost use Rattle.ht_rate.specs.declared.rates.Rate.{Rate as RateView};
ghost use Rattle.ht_map.specs.Constellation.{grid_of};
ghost use Rattle.ht_metric.specs.declared.found.Found.{Found as FoundValue};
ghost use Rattle.ht_metric.specs.Vectors.{no_point};
ghost use Rattle.ht_results.specs.Folding.{label_at};
ghost use Rattle.ht_rounding.specs.Labels.{IsLabelled, labels_in};
ghost use Rattle.ht_rounding.specs.Loading.{AreBelow, no_job};
ghost use Rattle.ht_rate.specs.declared.kinds.Modulation.{Modulation as ModulationView};
ghost use Rattle.ht_library.specs.Detected.{job_at};
ghost use Rattle.ht_library.specs.Symbols.{AreHits, AreLabelsOf, AreSums, AreSymbols, IsDistance, IsEmptyOr, found_at, no_distance};
ghost use Rattle.ht_library.specs.Walking.{AreAnswered, AreFoundFrom, AreHitsBelow, AreLabelsBelow, AreSummed, HasRoom};

use crate::crossing::{MizgaureChannel, MizgaureDistance, MizgaureHit, MizgaureReceived};
use crate::detection::{hit_of, job_at};
use crate::fault::{BAD_LENGTH, DONE, NO_RATE};
use ht_feed::detect;
use ht_map::grid;
use ht_metric::{Found, Job, Vector};
use ht_pam::{Grid, Steps};
use ht_rate::{Modulation, Rate};
use ht_results::label_for;
use ht_rounding::{Labelled, find_eight, label_eight};
use std::marker::Brand;
use std::sync::ledger::{Blank, Ledger};

// The symbol under way: its number, how many of its samples were found, and the sum of their squared distances.
#[derive(Clone, Copy)]
pub(crate) struct SymbolSum {
    symbol: usize,
    samples: usize,
    distance: u128,
}

// A sum of squared distances, in the form that crosses.
fn distance_of(sum: u128) -> MizgaureDistance
    ensures { IsDistance sum result }
{
    MizgaureDistance {
        low: (sum % (1 << 64)) as u64,
        high: (sum / (1 << 64)) as u64,
    }
}

// Writes the sum of a symbol, where it is wanted.
fn put_sum(symbol: usize, sum: u128, sums: &mut [MizgaureDistance])
    ensures length { length sums.new ≡ length sums.old }
    ensures sum { symbol < length sums.old → IsDistance sum (slice_index_or sums.new symbol no_distance) }
    ensures others { (s : ℕ) → (s ≡ symbol → ⊥) → slice_index_or sums.new s no_distance ≡ slice_index_or sums.old s no_distance }
{
    if symbol < sums.len() {
        sums[symbol] = distance_of(sum);
    }
}

// Adds the squared distance of one more sample. Where its symbol is whole then, its sum is written.
#[inline(always)]
fn add_distance(
    under_way: &mut SymbolSum,
    each: usize,
    distance: u128,
    sums: &mut [MizgaureDistance],
)
    requires within { under_way.old.samples < each }
    requires few { under_way.old.distance ≤ under_way.old.samples * 2 ^ 66 }
    requires below { distance < 2 ^ 66 }
    requires each { each < 2 ^ 60 }
    requires symbols { under_way.old.symbol < 2 ^ 63 }
    ensures length { length sums.new ≡ length sums.old }
    ensures more { (found : ℕ → FoundValue) (at : ℕ) → (found at).distance ≡ distance → AreSummed at each found under_way.old sums.old
        → AreSummed (at + 1) each found under_way.new sums.new }
{
    under_way.samples += 1;
    under_way.distance += distance;
    if under_way.samples < each {
        return;
    }
    put_sum(under_way.symbol, under_way.distance, sums);
    *under_way = SymbolSum {
        symbol: under_way.symbol + 1,
        samples: 0,
        distance: 0,
    };
}

// Writes the hit of the sample that has `at` others before it, where hits are wanted.
#[inline(always)]
fn put_hit(at: usize, samples: usize, found: &Found, hits: &mut [MizgaureHit])
    requires within { at < samples }
    requires hits { IsEmptyOr samples (length hits.old) }
    ensures length { length hits.new ≡ length hits.old }
    ensures more { (found_for : ℕ → FoundValue) → found_for at ≡ found.now → AreHitsBelow at found_for hits.old
        → AreHitsBelow (at + 1) found_for hits.new }
{
    if hits.is_empty() {
        return;
    }
    hits[at] = hit_of(found);
}

// Writes the labels of the points of a vector, stream by stream, behind `first` others.
#[inline(always)]
fn put_vector(modulation: Modulation, vector: &Vector, first: usize, labels: &mut [u8])
    requires { first + length vector.now ≤ length labels.old }
    ensures length { length labels.new ≡ length labels.old }
    ensures before { (i : ℕ) → i < first → slice_index labels.new i ≡ slice_index labels.old i }
    ensures labels { (s : ℕ) → s < length vector.now
        → slice_index labels.new (first + s) ≡ label_at modulation (slice_index_or vector.now s no_point) }
{
    for k in 0..vector.len() {
        labels[first + usize::from(k)] = label_for(modulation, vector.point(k + 1));
    }
}

// Writes the labels of the sample that has `at` others before it, where labels are wanted.
#[inline(always)]
fn put_labels(
    modulation: Modulation,
    streams: usize,
    at: usize,
    samples: usize,
    vector: &Vector,
    labels: &mut [u8],
)
    requires within { at < samples }
    requires streams { length vector.now ≡ streams }
    requires labels { IsEmptyOr (samples * streams) (length labels.old) }
    ensures length { length labels.new ≡ length labels.old }
    ensures more { (found : ℕ → FoundValue) → (found at).vector ≡ vector.now → AreLabelsBelow at modulation streams found labels.old
        → AreLabelsBelow (at + 1) modulation streams found labels.new }
{
    if labels.is_empty() {
        return;
    }
    put_vector(modulation, vector, at * streams, labels);
}

// The jobs of eight samples, from the one on that has `at` others before it.
#[inline(always)]
fn eight_jobs(
    rate: &Rate,
    grid: &Grid,
    channels: &[MizgaureChannel],
    received: &[MizgaureReceived],
    at: usize,
) -> [Job; 8]
    requires grid { grid.now ≡ grid_of rate.now }
    requires channels { 1 ≤ length channels.now }
    requires within { at + 8 ≤ length received.now }
    ensures { (k : ℕ) → k < 8 → slice_index_or result k no_job ≡ job_at rate.now channels.now received.now (at + k) }
{
    [
        job_at(rate, grid, channels, received, at),
        job_at(rate, grid, channels, received, at + 1),
        job_at(rate, grid, channels, received, at + 2),
        job_at(rate, grid, channels, received, at + 3),
        job_at(rate, grid, channels, received, at + 4),
        job_at(rate, grid, channels, received, at + 5),
        job_at(rate, grid, channels, received, at + 6),
        job_at(rate, grid, channels, received, at + 7),
    ]
}

// Finds eight samples, from the one on that has `at` others before it.
#[inline(always)]
fn find_by<L: Ledger>(
    rate: &Rate,
    grid: &Grid,
    channels: &[MizgaureChannel],
    received: &[MizgaureReceived],
    at: usize,
    founds: &mut [Found],
    blank: Blank,
)
    requires name { blank.name ≡ L.name }
    requires parts { blank.parts ≡ L.parts }
    requires some { 0 < blank.parts }
    requires grid { grid.now ≡ grid_of rate.now }
    requires channels { 1 ≤ length channels.now }
    requires within { at + 8 ≤ length received.now }
    requires founds { length founds.old ≡ 8 }
    ensures length { length founds.new ≡ 8 }
    ensures found { AreFoundFrom at (found_at rate.now channels.now received.now) founds.new }
    ensures below { AreBelow founds.new }
{
    let jobs = eight_jobs(rate, grid, channels, received, at);
    let mut steps = Steps::<L>::new(blank);
    find_eight(&jobs, founds, &mut steps);
}

// The same, with the steps of a counter of its own.
#[inline(always)]
fn find_from(
    rate: &Rate,
    grid: &Grid,
    channels: &[MizgaureChannel],
    received: &[MizgaureReceived],
    at: usize,
    founds: &mut [Found],
)
    requires grid { grid.now ≡ grid_of rate.now }
    requires channels { 1 ≤ length channels.now }
    requires within { at + 8 ≤ length received.now }
    requires founds { length founds.old ≡ 8 }
    ensures length { length founds.new ≡ 8 }
    ensures found { AreFoundFrom at (found_at rate.now channels.now received.now) founds.new }
    ensures below { AreBelow founds.new }
{
    find_by::<Brand>(rate, grid, channels, received, at, founds, Blank::new(1));
}

// What stands where nothing was found yet.
fn nothing() -> Found {
    Found {
        vector: Vector::new(),
        distance: 0,
    }
}

// Writes what was found for a sample, where it is wanted, and adds its squared distance to those of its symbol.
#[inline(always)]
fn answer(
    rate: &Rate,
    channels: &[MizgaureChannel],
    received: &[MizgaureReceived],
    at: usize,
    found: &Found,
    hits: &mut [MizgaureHit],
    labels: &mut [u8],
    under_way: &mut SymbolSum,
    sums: &mut [MizgaureDistance],
)
    requires within { at < length received.now }
    requires found { found.now ≡ found_at rate.now channels.now received.now at }
    requires below { found.now.distance < 2 ^ 66 }
    requires room { HasRoom (streams_of rate.now) (length received.now) (length hits.old) (length labels.old) }
    requires before { AreAnswered at rate.now channels.now received.now hits.old labels.old under_way.old sums.old }
    ensures hits { length hits.new ≡ length hits.old }
    ensures labels { length labels.new ≡ length labels.old }
    ensures sums { length sums.new ≡ length sums.old }
    ensures more { AreAnswered (at + 1) rate.now channels.now received.now hits.new labels.new under_way.new sums.new }
{
    let samples = received.len();
    put_hit(at, samples, found, hits);
    put_labels(
        rate.modulation(),
        usize::from(rate.streams()),
        at,
        samples,
        &found.vector,
        labels,
    );
    add_distance(under_way, channels.len(), found.distance, sums);
}

// Answers eight samples, from the one on that has `at` others before it.
#[inline(always)]
fn answer_eight(
    rate: &Rate,
    channels: &[MizgaureChannel],
    received: &[MizgaureReceived],
    at: usize,
    founds: &[Found],
    hits: &mut [MizgaureHit],
    labels: &mut [u8],
    under_way: &mut SymbolSum,
    sums: &mut [MizgaureDistance],
)
    requires founds { length founds.now ≡ 8 }
    requires within { at + 8 ≤ length received.now }
    requires found { AreFoundFrom at (found_at rate.now channels.now received.now) founds.now }
    requires below { AreBelow founds.now }
    requires room { HasRoom (streams_of rate.now) (length received.now) (length hits.old) (length labels.old) }
    requires before { AreAnswered at rate.now channels.now received.now hits.old labels.old under_way.old sums.old }
    ensures hits { length hits.new ≡ length hits.old }
    ensures labels { length labels.new ≡ length labels.old }
    ensures sums { length sums.new ≡ length sums.old }
    ensures more { AreAnswered (at + 8) rate.now channels.now received.now hits.new labels.new under_way.new sums.new }
{
    for k in 0..8usize {
        answer(
            rate,
            channels,
            received,
            at + k,
            &founds[k],
            hits,
            labels,
            under_way,
            sums,
        );
    }
}

// Whether a lane is sure.
#[inline(always)]
fn is_sure(lanes: &Labelled, k: usize) -> bool
    requires { k < 8 }
    ensures { result ≡ true → 0 < slice_index lanes.now.sure k }
{
    lanes.sure[k] != 0
}

// The squared distance in a lane.
#[inline(always)]
fn distance_in(lanes: &Labelled, k: usize) -> u128
    requires { k < 8 }
    ensures value { result ≡ slice_index lanes.now.distance k }
    ensures below { result < 2 ^ 66 }
{
    u128::from(lanes.distance[k])
}

// The labels in a lane, stream by stream.
#[inline(always)]
fn lane_labels(lanes: &Labelled, k: usize) -> [u8; 4]
    requires { k < 8 }
    ensures { take lanes.now.streams result ≡ labels_in lanes.now k }
{
    [
        (lanes.first[k] % 256) as u8,
        (lanes.second[k] % 256) as u8,
        (lanes.third[k] % 256) as u8,
        (lanes.fourth[k] % 256) as u8,
    ]
}

// Writes the labels of so many streams behind `first` others.
#[inline(always)]
fn put_four(four: &[u8; 4], streams: usize, first: usize, labels: &mut [u8])
    requires few { streams ≤ 4 }
    requires room { first + streams ≤ length labels.old }
    ensures length { length labels.new ≡ length labels.old }
    ensures before { (i : ℕ) → i < first → slice_index labels.new i ≡ slice_index labels.old i }
    ensures labels { (s : ℕ) → s < streams → slice_index labels.new (first + s) ≡ slice_index four.now s }
{
    for s in 0..streams {
        labels[first + s] = four[s];
    }
}

// Writes the labels in a lane, those of the sample that has `at` others before it, where labels are wanted.
#[inline(always)]
fn put_lane(
    lanes: &Labelled,
    k: usize,
    streams: usize,
    at: usize,
    samples: usize,
    labels: &mut [u8],
)
    requires lane { k < 8 }
    requires within { at < samples }
    requires few { streams ≤ 4 }
    requires labels { IsEmptyOr (samples * streams) (length labels.old) }
    ensures length { length labels.new ≡ length labels.old }
    ensures more { (m : ModulationView) (found : ℕ → FoundValue) → map (label_at m) (found at).vector ≡ labels_in lanes.now k
        → length (found at).vector ≡ streams → AreLabelsBelow at m streams found labels.old → AreLabelsBelow (at + 1) m streams found labels.new }
{
    if labels.is_empty() {
        return;
    }
    put_four(&lane_labels(lanes, k), streams, at * streams, labels);
}

// Answers a sample of which no hit is wanted: by its lane, where that is sure, else by the search.
#[inline(always)]
fn answer_lane(
    rate: &Rate,
    channels: &[MizgaureChannel],
    received: &[MizgaureReceived],
    at: usize,
    job: &Job,
    lanes: &Labelled,
    k: usize,
    hits: &mut [MizgaureHit],
    labels: &mut [u8],
    under_way: &mut SymbolSum,
    sums: &mut [MizgaureDistance],
)
    requires none { length hits.old ≡ 0 }
    requires within { at < length received.now }
    requires job { job.now ≡ job_at rate.now channels.now received.now at }
    requires lane { k < 8 }
    requires labelled { 0 < slice_index lanes.now.sure k → IsLabelled (label_at (modulation_of rate.now)) lanes.now k job.now }
    requires room { HasRoom (streams_of rate.now) (length received.now) (length hits.old) (length labels.old) }
    requires before { AreAnswered at rate.now channels.now received.now hits.old labels.old under_way.old sums.old }
    ensures hits { length hits.new ≡ length hits.old }
    ensures labels { length labels.new ≡ length labels.old }
    ensures sums { length sums.new ≡ length sums.old }
    ensures more { AreAnswered (at + 1) rate.now channels.now received.now hits.new labels.new under_way.new sums.new }
{
    if is_sure(lanes, k) {
        let streams = usize::from(rate.streams());
        put_lane(lanes, k, streams, at, received.len(), labels);
        add_distance(under_way, channels.len(), distance_in(lanes, k), sums);
        return;
    }
    let found = detect(job);
    answer(
        rate, channels, received, at, &found, hits, labels, under_way, sums,
    );
}

// Answers eight samples of which no hit is wanted, from the one on that has `at` others before it.
#[inline(always)]
fn answer_lanes(
    rate: &Rate,
    grid: &Grid,
    channels: &[MizgaureChannel],
    received: &[MizgaureReceived],
    at: usize,
    hits: &mut [MizgaureHit],
    labels: &mut [u8],
    under_way: &mut SymbolSum,
    sums: &mut [MizgaureDistance],
)
    requires none { length hits.old ≡ 0 }
    requires grid { grid.now ≡ grid_of rate.now }
    requires channels { 1 ≤ length channels.now }
    requires within { at + 8 ≤ length received.now }
    requires room { HasRoom (streams_of rate.now) (length received.now) (length hits.old) (length labels.old) }
    requires before { AreAnswered at rate.now channels.now received.now hits.old labels.old under_way.old sums.old }
    ensures hits { length hits.new ≡ length hits.old }
    ensures labels { length labels.new ≡ length labels.old }
    ensures sums { length sums.new ≡ length sums.old }
    ensures more { AreAnswered (at + 8) rate.now channels.now received.now hits.new labels.new under_way.new sums.new }
{
    let jobs = eight_jobs(rate, grid, channels, received, at);
    let lanes = label_eight(rate.modulation(), &jobs);
    for k in 0..8 {
        answer_lane(
            rate,
            channels,
            received,
            at + k,
            &jobs[k],
            &lanes,
            k,
            hits,
            labels,
            under_way,
            sums,
        );
    }
}

// Answers so many times eight samples of which no hit is wanted.
fn answer_by_lanes(
    rate: &Rate,
    grid: &Grid,
    channels: &[MizgaureChannel],
    received: &[MizgaureReceived],
    eights: usize,
    hits: &mut [MizgaureHit],
    labels: &mut [u8],
    under_way: &mut SymbolSum,
    sums: &mut [MizgaureDistance],
)
    requires none { length hits.old ≡ 0 }
    requires grid { grid.now ≡ grid_of rate.now }
    requires some { 1 ≤ length channels.now }
    requires within { 8 * eights ≤ length received.now }
    requires room { HasRoom (streams_of rate.now) (length received.now) (length hits.old) (length labels.old) }
    requires before { AreAnswered 0 rate.now channels.now received.now hits.old labels.old under_way.old sums.old }
    ensures hits { length hits.new ≡ length hits.old }
    ensures labels { length labels.new ≡ length labels.old }
    ensures sums { length sums.new ≡ length sums.old }
    ensures more { AreAnswered (8 * eights) rate.now channels.now received.now hits.new labels.new under_way.new sums.new }
{
    for eight in 0..eights {
        answer_lanes(
            rate,
            grid,
            channels,
            received,
            8 * eight,
            hits,
            labels,
            under_way,
            sums,
        );
    }
}

// Answers so many times eight samples, each eight of them together in lanes. Where no hit is wanted, none is made.
fn answer_eights(
    rate: &Rate,
    grid: &Grid,
    channels: &[MizgaureChannel],
    received: &[MizgaureReceived],
    eights: usize,
    hits: &mut [MizgaureHit],
    labels: &mut [u8],
    under_way: &mut SymbolSum,
    sums: &mut [MizgaureDistance],
)
    requires grid { grid.now ≡ grid_of rate.now }
    requires some { 1 ≤ length channels.now }
    requires within { 8 * eights ≤ length received.now }
    requires room { HasRoom (streams_of rate.now) (length received.now) (length hits.old) (length labels.old) }
    requires before { AreAnswered 0 rate.now channels.now received.now hits.old labels.old under_way.old sums.old }
    ensures hits { length hits.new ≡ length hits.old }
    ensures labels { length labels.new ≡ length labels.old }
    ensures sums { length sums.new ≡ length sums.old }
    ensures more { AreAnswered (8 * eights) rate.now channels.now received.now hits.new labels.new under_way.new sums.new }
{
    if hits.is_empty() {
        return answer_by_lanes(
            rate, grid, channels, received, eights, hits, labels, under_way, sums,
        );
    }
    let mut founds = [nothing(); 8];
    for eight in 0..eights {
        find_from(rate, grid, channels, received, 8 * eight, &mut founds);
        answer_eight(
            rate,
            channels,
            received,
            8 * eight,
            &founds,
            hits,
            labels,
            under_way,
            sums,
        );
    }
}

// Answers the samples from one on, behind those before.
fn answer_rest(
    rate: &Rate,
    grid: &Grid,
    channels: &[MizgaureChannel],
    received: &[MizgaureReceived],
    from: usize,
    hits: &mut [MizgaureHit],
    labels: &mut [u8],
    under_way: &mut SymbolSum,
    sums: &mut [MizgaureDistance],
)
    requires grid { grid.now ≡ grid_of rate.now }
    requires some { 1 ≤ length channels.now }
    requires within { from ≤ length received.now }
    requires room { HasRoom (streams_of rate.now) (length received.now) (length hits.old) (length labels.old) }
    requires before { AreAnswered from rate.now channels.now received.now hits.old labels.old under_way.old sums.old }
    ensures hits { length hits.new ≡ length hits.old }
    ensures labels { length labels.new ≡ length labels.old }
    ensures sums { length sums.new ≡ length sums.old }
    ensures more { AreAnswered (length received.now) rate.now channels.now received.now hits.new labels.new under_way.new sums.new }
{
    for at in from..received.len() {
        let found = detect(&job_at(rate, grid, channels, received, at));
        answer(
            rate, channels, received, at, &found, hits, labels, under_way, sums,
        );
    }
}

// Answers all samples: of several streams eight at a time, since for one stream the search is faster than lanes.
fn answer_all(
    rate: &Rate,
    channels: &[MizgaureChannel],
    received: &[MizgaureReceived],
    hits: &mut [MizgaureHit],
    labels: &mut [u8],
    sums: &mut [MizgaureDistance],
)
    requires { AreSymbols rate.now (length channels.now) (length received.now) (length hits.old) (length labels.old) (length sums.old) }
    ensures hits { AreHits (found_at rate.now channels.now received.now) hits.new }
    ensures labels { AreLabelsOf (modulation_of rate.now) (streams_of rate.now) (found_at rate.now channels.now received.now) labels.new }
    ensures sums { AreSums (length channels.now) (found_at rate.now channels.now received.now) sums.new }
    ensures hits_length { length hits.new ≡ length hits.old }
    ensures labels_length { length labels.new ≡ length labels.old }
    ensures sums_length { length sums.new ≡ length sums.old }
{
    let grid = grid(rate);
    let eights = if rate.streams() > 1 {
        received.len() / 8
    } else {
        0
    };
    let mut under_way = SymbolSum {
        symbol: 0,
        samples: 0,
        distance: 0,
    };
    answer_eights(
        rate,
        &grid,
        channels,
        received,
        eights,
        hits,
        labels,
        &mut under_way,
        sums,
    );
    answer_rest(
        rate,
        &grid,
        channels,
        received,
        8 * eights,
        hits,
        labels,
        &mut under_way,
        sums,
    );
}

// Whether an output isn't wanted, or has as many places as this.
fn is_empty_or(whole: usize, places: usize) -> bool
    ensures { IsTrue result ↔ IsEmptyOr whole places }
{
    places == 0 || places == whole
}

// Whether the labels of so many samples aren't wanted, or have as many places.
fn is_labelled(rate: &Rate, received: usize, labels: usize) -> bool
    ensures { IsTrue result ↔ IsEmptyOr (received * streams_of rate.now) labels }
{
    match received.checked_mul(usize::from(rate.streams())) {
        Some(all) => is_empty_or(all, labels),
        None => labels == 0,
    }
}

// Whether these are the samples of whole symbols over so many channels, and each output is as long as it may be.
fn are_symbols(
    rate: &Rate,
    channels: usize,
    received: usize,
    hits: usize,
    labels: usize,
    sums: usize,
) -> bool
    ensures { IsTrue result ↔ AreSymbols rate.now channels received hits labels sums }
{
    if channels == 0 || received % channels != 0 {
        return false;
    }
    is_empty_or(received, hits)
        && is_labelled(rate, received, labels)
        && is_empty_or(received / channels, sums)
}

/// Does as [`mizgaure_nearest`](crate::detection::mizgaure_nearest) for each data subcarrier of any number of symbols, which
/// have the same channels: the samples stand symbol by symbol. Three outputs are filled, each unless it is empty: the hits; the
/// labels of the points, those of a sample behind each other stream by stream, the bits of I first (clause 20.3.11.9); and for
/// each symbol the sum of the squared distances of its data subcarriers.
#[unsafe(no_mangle)]
pub extern "C" fn mizgaure_detect_symbols(
    bandwidth: u8,
    mcs: u8,
    channels: &[MizgaureChannel],
    received: &[MizgaureReceived],
    hits: &mut [MizgaureHit],
    labels: &mut [u8],
    sums: &mut [MizgaureDistance],
) -> u32
    ensures no_rate { (result ≡ 2) ↔ ((1 < bandwidth) ⊎ (31 < mcs)) }
    ensures bad_length { (rate : RateView) → rate_of bandwidth mcs ≡ Ok rate
        → (result ≡ 5) ↔ (AreSymbols rate (length channels.now) (length received.now) (length hits.old) (length labels.old) (length sums.old) → ⊥) }
    ensures done { (rate : RateView) → rate_of bandwidth mcs ≡ Ok rate
        → (result ≡ 0) ↔ AreSymbols rate (length channels.now) (length received.now) (length hits.old) (length labels.old) (length sums.old) }
    ensures fault { (result ≡ 0) ⊎ (result ≡ 2) ⊎ (result ≡ 5) }
    ensures kept_hits { (result ≡ 0 → ⊥) → hits.new ≡ hits.old }
    ensures kept_labels { (result ≡ 0 → ⊥) → labels.new ≡ labels.old }
    ensures kept_sums { (result ≡ 0 → ⊥) → sums.new ≡ sums.old }
    ensures length { (length hits.new ≡ length hits.old) × (length labels.new ≡ length labels.old) × (length sums.new ≡ length sums.old) }
    ensures hits { result ≡ 0 → (rate : RateView) → rate_of bandwidth mcs ≡ Ok rate → AreHits (found_at rate channels.now received.now) hits.new }
    ensures labels { result ≡ 0 → (rate : RateView) → rate_of bandwidth mcs ≡ Ok rate
        → AreLabelsOf (modulation_of rate) (streams_of rate) (found_at rate channels.now received.now) labels.new }
    ensures sums { result ≡ 0 → (rate : RateView) → rate_of bandwidth mcs ≡ Ok rate
        → AreSums (length channels.now) (found_at rate channels.now received.now) sums.new }
{
    let Ok(rate) = Rate::of(bandwidth, mcs) else {
        return NO_RATE;
    };
    if !are_symbols(
        &rate,
        channels.len(),
        received.len(),
        hits.len(),
        labels.len(),
        sums.len(),
    ) {
        return BAD_LENGTH;
    }
    answer_all(&rate, channels, received, hits, labels, sums);
    DONE
}

//! The channels of a frame's subcarriers as columns of words, out of which lanes are loaded.
ghost use Rattle.std.specs.Prelude.{◌≡◌, ◌≢◌, ◌+◌, ◌<◌, ◌≤◌, ◌++◌, ◌∷◌, [], ℕ, List, length, slice_index, slice_index_or, unwrap_or, IfOk, OnOk};
ghost use Rattle.ht_map.specs.Gray.{label_of};
ghost use Rattle.ht_metric.specs.Jobs.{JobView};
ghost use Rattle.ht_rounding.specs.declared.loading.Part.TheVariants.{Diagonal, EntryRe, EntryIm};
ghost use Rattle.ht_rounding.specs.Columns.{AreColumns, AreEntries, AreRows, EntriesReach, HasLeg, HasLegs, HasSamples, IsColumn};
ghost use Rattle.ht_rounding.specs.Columns.{IsLikePlain, Reaches, RowReaches, entry_words, row_words, words_of};
ghost use Rattle.ht_rounding.specs.InLanes.{IsSmall};
ghost use Rattle.ht_rounding.specs.Labels.{HasJob, IsLabelled, IsUnsure, i_levels, q_levels};
ghost use Rattle.ht_rounding.specs.Loading.{no_job};
ghost use Rattle.ht_rounding.specs.Proposals.{AreSmall};

use crate::eight::{Eight, Labelled, label_lanes, levels_by, plainness, unsure};
use crate::loading::{Part, part_of};
use crate::rows::Parts;
use crate::streams::{Channel, RowLanes, SampleLanes};
use crate::words::lesser;
use ht_metric::Job;
use ht_rate::Modulation;
use std::alloc::{AllocError, Global};
use std::marker::Model;
use std::simd::prelude::*;

/// The parts of an entry on each subcarrier.
#[derive(Debug, Drop)]
pub(crate) struct EntryColumns {
    pub re: Vec<u32>,
    pub im: Vec<u32>,
}

/// A row of the channel on each subcarrier. Columns that the frame's streams don't have are empty.
#[derive(Debug, Drop)]
pub(crate) struct RowColumns {
    pub diagonal: Vec<u32>,
    pub next: EntryColumns,
    pub second: EntryColumns,
    pub third: EntryColumns,
}

// The channels of a frame's subcarriers: each part of each row of the triangles in a column of words, one for each subcarrier.
#[derive(Debug, Drop)]
pub(crate) struct Table {
    pub modulation: Modulation,
    pub streams: u8,
    pub first: RowColumns,
    pub second: RowColumns,
    pub third: RowColumns,
    pub fourth: RowColumns,
    pub plain: Vec<u32>,
}

// A column of nothing, with memory for so many words where there are at least `least` streams.
fn column(alloc: Global, count: usize, streams: u8, least: u8) -> Result<Vec<u32>, AllocError>
    ensures { IfOk result (λ column. column.items ≡ []) }
{
    Vec::with_capacity(alloc, if streams < least { 0 } else { count })
}

// The columns of an entry of no jobs, which at least `least` streams have.
fn entry_columns(
    alloc: Global,
    count: usize,
    streams: u8,
    least: u8,
) -> Result<EntryColumns, AllocError>
    ensures re { IfOk result (λ entries. entries.re.items ≡ []) }
    ensures im { IfOk result (λ entries. entries.im.items ≡ []) }
{
    Ok(EntryColumns {
        re: column(alloc, count, streams, least)?,
        im: column(alloc, count, streams, least)?,
    })
}

// The columns of row `row`, counted from 1, of no jobs.
fn row_columns(alloc: Global, count: usize, streams: u8, row: u8) -> Result<RowColumns, AllocError>
    requires { row ≤ 4 }
    ensures { IfOk result (λ rows. AreRows streams row [] (row_words rows)) }
{
    Ok(RowColumns {
        diagonal: column(alloc, count, streams, row)?,
        next: entry_columns(alloc, count, streams, row + 1)?,
        second: entry_columns(alloc, count, streams, row + 2)?,
        third: entry_columns(alloc, count, streams, row + 3)?,
    })
}

// Puts a part of a job's row behind those of other jobs.
fn push_part(
    column: &mut Vec<u32>,
    job: &Job,
    streams: u8,
    row: u8,
    part: Part,
) -> Result<(), AllocError>
    requires streams { streams ≡ length job.now.system }
    requires row { 1 ≤ row }
    ensures { OnOk result ((jobs : List JobView) → IsColumn part row jobs column.old.items → IsColumn part row (jobs ++ job.now ∷ []) column.new.items) }
{
    column.push(part_of(job, streams, row, part))?;
    Ok(())
}

// Puts an entry of a job's row behind those of other jobs, where the row has it: at 0 that of the next stream.
fn push_entry(
    entries: &mut EntryColumns,
    job: &Job,
    streams: u8,
    row: u8,
    at: u8,
) -> Result<(), AllocError>
    requires streams { streams ≡ length job.now.system }
    requires row { 1 ≤ row }
    requires most { row ≤ 4 }
    requires few { at < 3 }
    ensures { OnOk result ((jobs : List JobView) → AreEntries streams row at jobs (entry_words entries.old)
        → AreEntries streams row at (jobs ++ job.now ∷ []) (entry_words entries.new)) }
{
    if streams < row + 1 + at {
        return Ok(());
    }
    push_part(&mut entries.re, job, streams, row, Part::EntryRe(at))?;
    push_part(&mut entries.im, job, streams, row, Part::EntryIm(at))?;
    Ok(())
}

// Puts a row of a job behind those of other jobs, where there is one.
fn push_row(rows: &mut RowColumns, job: &Job, streams: u8, row: u8) -> Result<(), AllocError>
    requires streams { streams ≡ length job.now.system }
    requires row { 1 ≤ row }
    requires most { row ≤ 4 }
    ensures { OnOk result ((jobs : List JobView) → AreRows streams row jobs (row_words rows.old)
        → AreRows streams row (jobs ++ job.now ∷ []) (row_words rows.new)) }
{
    if streams < row {
        return Ok(());
    }
    push_part(&mut rows.diagonal, job, streams, row, Part::Diagonal)?;
    push_entry(&mut rows.next, job, streams, row, 0)?;
    push_entry(&mut rows.second, job, streams, row, 1)?;
    push_entry(&mut rows.third, job, streams, row, 2)?;
    Ok(())
}

// Eight words of a column, from the one on that has `at` others before it; 0 where there are fewer streams than have the column.
#[inline(always)]
fn part_lanes(column: &[u32], streams: u8, least: u8, at: usize) -> u32x8
    requires { least ≤ streams → at + 8 ≤ length column.now }
    ensures { least ≤ streams → (k : ℕ) → k < 8 → slice_index result k ≡ slice_index column.now (at + k) }
{
    if streams < least {
        return u32x8::splat(0);
    }
    u32x8::from_slice(&column[at..])
}

// Both parts of an entry on eight subcarriers, from the one on that has `at` others before it; 0 where there are fewer streams
// than have the entry.
#[inline(always)]
fn entry_lanes(entries: &EntryColumns, streams: u8, least: u8, at: usize) -> Parts
    requires { least ≤ streams → EntriesReach (at + 8) (entry_words entries.now) }
    ensures re { least ≤ streams → (k : ℕ) → k < 8 → slice_index result.re k ≡ slice_index entries.now.re.items (at + k) }
    ensures im { least ≤ streams → (k : ℕ) → k < 8 → slice_index result.im k ≡ slice_index entries.now.im.items (at + k) }
{
    Parts {
        re: part_lanes(&entries.re, streams, least, at),
        im: part_lanes(&entries.im, streams, least, at),
    }
}

// Row `row` of eight subcarriers.
#[inline(always)]
fn row_lanes(rows: &RowColumns, streams: u8, row: u8, at: usize) -> RowLanes
    requires row { row ≤ 4 }
    requires reach { RowReaches streams row (at + 8) (row_words rows.now) }
    ensures small { AreSmall result.diagonal }
    ensures legs { (jobs : List JobView) (k : ℕ) → AreRows streams row jobs (row_words rows.now) → at + 8 ≤ length jobs → k < 8
        → length (slice_index_or jobs (at + k) no_job).system ≡ streams → HasLeg result k row (slice_index_or jobs (at + k) no_job).system }
{
    let diagonal = part_lanes(&rows.diagonal, streams, row, at);
    RowLanes {
        diagonal: lesser(diagonal, u32x8::splat(65535)),
        next: entry_lanes(&rows.next, streams, row + 1, at),
        second: entry_lanes(&rows.second, streams, row + 2, at),
        third: entry_lanes(&rows.third, streams, row + 3, at),
    }
}

// The channels of eight subcarriers.
#[inline(always)]
fn channel_lanes(table: &Table, streams: u8, at: usize) -> Channel
    requires streams { streams ≡ table.now.streams }
    requires reach { Reaches (at + 8) (words_of table.now) }
    ensures small { IsSmall result }
    ensures legs { (jobs : List JobView) (k : ℕ) → AreColumns jobs (words_of table.now) → at + 8 ≤ length jobs → k < 8
        → HasLegs result k (slice_index_or jobs (at + k) no_job).system }
{
    Channel {
        first: row_lanes(&table.first, streams, 1, at),
        second: row_lanes(&table.second, streams, 2, at),
        third: row_lanes(&table.third, streams, 3, at),
        fourth: row_lanes(&table.fourth, streams, 4, at),
    }
}

// Eight subcarriers of so many streams, on which this was received.
#[inline(always)]
fn eight_of(table: &Table, streams: u8, at: usize, samples: &SampleLanes) -> Eight
    requires streams { streams ≡ table.now.streams }
    requires reach { Reaches (at + 8) (words_of table.now) }
    ensures small { IsSmall result.channel }
    ensures jobs { (jobs : List JobView) (k : ℕ) (job : JobView) → AreColumns jobs (words_of table.now) → at + 8 ≤ length jobs → k < 8
        → IsLikePlain (words_of table.now) (slice_index_or jobs (at + k) no_job) job → HasSamples samples.now k job.system
        → HasJob (i_levels table.now.modulation) (q_levels table.now.modulation) result streams k job }
{
    Eight {
        channel: channel_lanes(table, streams, at),
        samples: *samples,
        plain: part_lanes(&table.plain, 1, 0, at),
    }
}

// The labels of eight subcarriers of so many streams.
#[inline(always)]
fn labels_of(table: &Table, streams: u8, at: usize, samples: &SampleLanes) -> Labelled
    requires streams { streams ≡ table.now.streams }
    requires reach { Reaches (at + 8) (words_of table.now) }
    ensures streams { result.streams ≡ table.now.streams }
    ensures labels { (jobs : List JobView) (k : ℕ) (job : JobView) → AreColumns jobs (words_of table.now) → at + 8 ≤ length jobs → k < 8
        → IsLikePlain (words_of table.now) (slice_index_or jobs (at + k) no_job) job → HasSamples samples.now k job.system → 0 < slice_index result.sure k
        → IsLabelled (λ p. unwrap_or (label_of table.now.modulation p) 0) result k job }
{
    let eight = eight_of(table, streams, at, samples);
    label_lanes(table.modulation, streams, &eight)
}

// The labels of eight subcarriers, from the one on that has `at` others before it, on which this was received. There is code of
// its own for each number of streams.
fn labels_by(table: &Table, at: usize, samples: &SampleLanes) -> Labelled
    requires { Reaches (at + 8) (words_of table.now) }
    ensures streams { result.streams ≡ table.now.streams }
    ensures labels { (jobs : List JobView) (k : ℕ) (job : JobView) → AreColumns jobs (words_of table.now) → at + 8 ≤ length jobs → k < 8
        → IsLikePlain (words_of table.now) (slice_index_or jobs (at + k) no_job) job → HasSamples samples.now k job.system → 0 < slice_index result.sure k
        → IsLabelled (λ p. unwrap_or (label_of table.now.modulation p) 0) result k job }
{
    match table.streams {
        1 => labels_of(table, 1, at, samples),
        2 => labels_of(table, 2, at, samples),
        3 => labels_of(table, 3, at, samples),
        _ => labels_of(table, 4, at, samples),
    }
}

impl Table {
    // A table of no subcarrier.
    fn new(
        alloc: Global,
        modulation: Modulation,
        streams: u8,
        count: usize,
    ) -> Result<Table, AllocError>
        requires some { 1 ≤ streams }
        requires few { streams ≤ 4 }
        ensures modulation { IfOk result (λ table. table.modulation ≡ modulation) }
        ensures streams { IfOk result (λ table. table.streams ≡ streams) }
        ensures none { IfOk result (λ table. AreColumns [] (words_of table)) }
    {
        Ok(Table {
            modulation,
            streams,
            first: row_columns(alloc, count, streams, 1)?,
            second: row_columns(alloc, count, streams, 2)?,
            third: row_columns(alloc, count, streams, 3)?,
            fourth: row_columns(alloc, count, streams, 4)?,
            plain: Vec::with_capacity(alloc, count)?,
        })
    }

    // Puts the channel of one more subcarrier behind the others.
    fn push(&mut self, job: &Job) -> Result<(), AllocError>
        requires { length job.now.system ≡ self.old.streams }
        ensures modulation { self.new.modulation ≡ self.old.modulation }
        ensures streams { self.new.streams ≡ self.old.streams }
        ensures more { OnOk result ((jobs : List JobView) → AreColumns jobs (words_of self.old)
            → AreColumns (jobs ++ job.now ∷ []) (words_of self.new)) }
    {
        let streams = self.streams;
        let (i, q) = levels_by(self.modulation);
        push_row(&mut self.first, job, streams, 1)?;
        push_row(&mut self.second, job, streams, 2)?;
        push_row(&mut self.third, job, streams, 3)?;
        push_row(&mut self.fourth, job, streams, 4)?;
        self.plain.push(plainness(i, q, streams, job))?;
        Ok(())
    }

    // The labels of what was sent on eight subcarriers, in the lanes that are sure; in none where the modulation is another one.
    fn labels(&self, modulation: Modulation, at: usize, samples: &SampleLanes) -> Labelled
        requires { Reaches (at + 8) (words_of self.now) }
        ensures some { 1 ≤ result.streams }
        ensures few { result.streams ≤ 4 }
        ensures labels { (jobs : List JobView) (k : ℕ) (job : JobView) → AreColumns jobs (words_of self.now) → at + 8 ≤ length jobs → k < 8
            → IsLikePlain (words_of self.now) (slice_index_or jobs (at + k) no_job) job → HasSamples samples.now k job.system → 0 < slice_index result.sure k
            → IsLabelled (λ p. unwrap_or (label_of modulation p) 0) result k job }
        ensures other { self.now.modulation ≢ modulation → IsUnsure result }
    {
        if self.modulation != modulation {
            return unsure(self.streams);
        }
        labels_by(self, at, samples)
    }
}

/// The channels of a frame's subcarriers: each part of each row of the triangles in a column of words, one for each subcarrier.
///
/// Symbols of the frame share it: with what was received on eight subcarriers that follow one another, it says the labels of
/// what was sent.
#[derive(Debug, Drop)]
pub struct Columns {
    table: Table,
}

impl Model for Columns {
    ghost use Rattle.ht_rounding.specs.Columns.{ColumnsView, words_of};

    ghost Value = { ColumnsView };

    ghost view = { λ s. words_of s.table };
}

impl Columns {
    /// Columns of no subcarrier, for a frame of this modulation and one to four streams, with memory for so many subcarriers.
    /// The only error is lack of memory.
    pub fn new(
        alloc: Global,
        modulation: Modulation,
        streams: u8,
        count: usize,
    ) -> Result<Columns, AllocError>
        requires some { 1 ≤ streams }
        requires few { streams ≤ 4 }
        ensures modulation { IfOk result (λ columns. columns.modulation ≡ modulation) }
        ensures streams { IfOk result (λ columns. columns.streams ≡ streams) }
        ensures none { IfOk result (λ columns. AreColumns [] columns) }
    {
        let table = Table::new(alloc, modulation, streams, count)?;
        Ok(Columns { table })
    }

    /// Puts the channel of one more subcarrier behind the others: that of any of its jobs, which has as many streams as the
    /// frame. The only error is lack of memory; the columns are then still of a frame of this modulation and so many streams,
    /// but no clause says what they hold.
    pub fn push(&mut self, job: &Job) -> Result<(), AllocError>
        requires { length job.now.system ≡ self.old.streams }
        ensures modulation { self.new.modulation ≡ self.old.modulation }
        ensures streams { self.new.streams ≡ self.old.streams }
        ensures more { OnOk result ((jobs : List JobView) → AreColumns jobs self.old → AreColumns (jobs ++ job.now ∷ []) self.new) }
    {
        self.table.push(job)
    }

    /// The labels of what was sent on eight subcarriers, from the one on that has `at` others before it, and the squared
    /// distances, in the lanes that are sure (IEEE Std 802.11-2012, clause 20.3.11.9). `samples` is what was received on them.
    /// Where the frame's modulation is another one, no lane is sure. Else no clause tells which lanes are: a body that is never
    /// sure would be proved too, and only be slow.
    pub fn labels(&self, modulation: Modulation, at: usize, samples: &SampleLanes) -> Labelled
        requires { Reaches (at + 8) self.now }
        ensures some { 1 ≤ result.streams }
        ensures few { result.streams ≤ 4 }
        ensures labels { (jobs : List JobView) (k : ℕ) (job : JobView) → AreColumns jobs self.now → at + 8 ≤ length jobs → k < 8
            → IsLikePlain self.now (slice_index_or jobs (at + k) no_job) job → HasSamples samples.now k job.system → 0 < slice_index result.sure k
            → IsLabelled (λ p. unwrap_or (label_of modulation p) 0) result k job }
        ensures other { self.now.modulation ≢ modulation → IsUnsure result }
    {
        self.table.labels(modulation, at, samples)
    }
}

//! The points of a frame, read symbol by symbol.
ghost use Rattle.std.specs.Prelude.{◌≡◌, ◌≤◌, ◌<◌, ◌+◌, ◌*◌, ◌/◌, ◌^◌, ℕ, [], length, flat_map, vec_capacity, IfOk, IfErr, OnOk};
ghost use Rattle.ht_io.specs.Devices.{Takes, IsLater};
ghost use Rattle.ht_io.specs.declared.faults.InFault.TheVariants.{NoMemory};
ghost use Rattle.ht_fields.specs.Readers.{reader_in};
ghost use Rattle.ht_fields.specs.WholeFiles.{EndsEarly};
ghost use Rattle.ht_rate.specs.Rates.{carriers_of, streams_of};
ghost use Rattle.ht_tx.specs.Symbols.{IsSymbols, points_of};
ghost use Rattle.ht_files.specs.HeadedFormats.{behind_head};
ghost use Rattle.ht_files.specs.Places.{AreFitting};
ghost use Rattle.ht_files.specs.Points.{AddsPoints, AreCarriers, MeetsMisfit, TakesSymbol, first_point, point_octets, points_due, symbols};

use crate::point::{fault_kind, is_fitting, point_of};
use ht_fields::{bad, read_front};
use ht_io::{InFault, Kind, Source};
use ht_pam::Point;
use ht_rate::{Carrier, Rate};
use std::alloc::Global;

/// The most points of a symbol: those of 114 subcarriers on 4 streams.
const POINTS: usize = 456;

/// The most octets of a symbol's points.
const SYMBOL: usize = 2 * POINTS;

// The subcarriers of the points of a symbol, in the order subcarrier, stream.
fn carriers(rate: &Rate) -> [Carrier; POINTS]
    ensures { AreCarriers rate.now result }
{
    let mut carriers = [Carrier::Data(0); POINTS];
    let streams = usize::from(rate.streams());
    for index in 0..rate.carriers() {
        let carrier = rate.carrier(index);
        for stream in 0..streams {
            carriers[usize::from(index) * streams + stream] = carrier;
        }
    }
    carriers
}

// Adds the points of a symbol that stand in the octets, the first of them at offset `at`, while they fit. An octet that
// is left alone at the end is no point.
fn add_points(
    rate: &Rate,
    carriers: &[Carrier; POINTS],
    symbol: u32,
    at: u64,
    octets: &[u8],
    points: &mut Vec<Point>,
) -> Result<(), InFault>
    requires carriers { AreCarriers rate.now carriers.now }
    requires start { length points.old.items ≡ symbol * (carriers_of rate.now * streams_of rate.now) }
    requires most { length octets.now ≤ 2 * (carriers_of rate.now * streams_of rate.now) }
    requires offset { at + length octets.now < 2 ^ 64 }
    requires room { length points.old.items + length octets.now / 2 ≤ vec_capacity points.old }
    requires fitting { AreFitting rate.now points.old.items }
    ensures fitting { AreFitting rate.now points.new.items }
    ensures added { OnOk result (AddsPoints points.old.items points.new.items octets.now) }
    ensures misfit { IfErr result (MeetsMisfit rate.now at points.old.items points.new.items octets.now) }
    ensures capacity { vec_capacity points.new ≡ vec_capacity points.old }
{
    for place in 0..octets.len() / 2 {
        let point = point_of([octets[2 * place], octets[2 * place + 1]]);
        let carrier = carriers[place];
        if !is_fitting(rate, symbol, carrier, place, point) {
            return Err(bad(fault_kind(carrier), at + 2 * place as u64));
        }
        points.push_reserved(point);
    }
    Ok(())
}

// Reads the points of a symbol by way of the block, which has room for just them, and adds them.
fn symbol<S: Source>(
    source: &mut S,
    at: u64,
    rate: &Rate,
    carriers: &[Carrier; POINTS],
    symbol: u32,
    block: &mut [u8],
    points: &mut Vec<Point>,
) -> Result<(), InFault>
    requires carriers { AreCarriers rate.now carriers.now }
    requires start { length points.old.items ≡ symbol * (carriers_of rate.now * streams_of rate.now) }
    requires offset { at + length block.old < 2 ^ 64 }
    requires block { length block.old ≡ 2 * (carriers_of rate.now * streams_of rate.now) }
    requires room { length points.old.items + carriers_of rate.now * streams_of rate.now ≤ vec_capacity points.old }
    requires fitting { AreFitting rate.now points.old.items }
    ensures fitting { AreFitting rate.now points.new.items }
    ensures whole { OnOk result (TakesSymbol rate.now points.old.items points.new.items (S.shown source.old) (S.shown source.new)) }
    ensures failed { (left len : ℕ) → length points.old.items + carriers_of rate.now * streams_of rate.now ≤ points_of rate.now len
        → IfErr result (EndsEarly (reader_in symbols (behind_head (points_due left rate.now len points.old.items)) at (S.shown source.old))
        (S.shown source.new)) }
    ensures capacity { vec_capacity points.new ≡ vec_capacity points.old }
    ensures later { IsLater (S.shown source.old) (S.shown source.new) }
{
    match read_front(source, block) {
        Ok(count) => match add_points(rate, carriers, symbol, at, &block[..count], points) {
            Ok(()) => {
                if count < block.len() {
                    Err(bad(Kind::Truncated, at + count as u64))
                } else {
                    Ok(())
                }
            }
            Err(fault) => Err(fault),
        },
        Err(count) => match add_points(rate, carriers, symbol, at, &block[..count], points) {
            Ok(()) => Err(InFault::Read),
            Err(fault) => Err(fault),
        },
    }
}

// The number of octets of a symbol's points.
fn width(rate: &Rate) -> usize
    ensures value { result ≡ 2 * (carriers_of rate.now * streams_of rate.now) }
    ensures bound { result ≤ 912 }
{
    2 * (usize::from(rate.carriers()) * usize::from(rate.streams()))
}

// The number of points of a frame.
fn count_of(rate: &Rate, length: u16) -> usize
    requires { 1 ≤ length }
    ensures value { result ≡ points_of rate.now length }
    ensures bound { result ≤ 9195696 }
{
    let width = usize::from(rate.carriers()) * usize::from(rate.streams());
    rate.symbols(length) as usize * width
}

/// Room for the points of a frame.
pub fn reserve_points(alloc: Global, rate: &Rate, length: u16) -> Result<Vec<Point>, InFault>
    requires some { 1 ≤ length }
    ensures none { IfOk result (λ points. points.items ≡ []) }
    ensures room { IfOk result (λ points. points_of rate.now length ≤ vec_capacity points) }
    ensures memory { IfErr result (λ fault. fault ≡ NoMemory) }
{
    match Vec::with_capacity(alloc, count_of(rate, length)) {
        Ok(points) => Ok(points),
        Err(_) => Err(InFault::NoMemory),
    }
}

/// Reads the points of a frame, the first of them at offset `at`: those of each symbol, subcarrier and stream.
pub fn read_points<S: Source>(
    source: &mut S,
    at: u64,
    rate: &Rate,
    length: u16,
    points: &mut Vec<Point>,
) -> Result<(), InFault>
    requires place { at + 18391392 < 2 ^ 64 }
    requires some { 1 ≤ length }
    requires none { points.old.items ≡ [] }
    requires room { points_of rate.now length ≤ vec_capacity points.old }
    ensures whole { OnOk result (Takes (S.shown source.old) (S.shown source.new) (flat_map point_octets points.new.items)) }
    ensures fits { OnOk result (IsSymbols rate.now length points.new.items) }
    ensures failed { (left : ℕ) → IfErr result (EndsEarly (reader_in symbols (behind_head (first_point left rate.now length)) at (S.shown source.old))
        (S.shown source.new)) }
    ensures later { IsLater (S.shown source.old) (S.shown source.new) }
{
    let carriers = carriers(rate);
    let width = width(rate);
    let mut block = [0u8; SYMBOL];
    let mut at = at;
    for index in 0..rate.symbols(length) {
        match symbol(
            source,
            at,
            rate,
            &carriers,
            index,
            &mut block[..width],
            points,
        ) {
            Ok(()) => at += width as u64,
            Err(fault) => return Err(fault),
        }
    }
    Ok(())
}

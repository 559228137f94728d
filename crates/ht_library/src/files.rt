//! Files in memory, and the files that the program's commands make of them.
ghost use Rattle.ht_certify.specs.Certifying.{certifying};
ghost use Rattle.ht_certify.specs.Checks.{checking};
ghost use Rattle.ht_sim.specs.Converting.{sending, upgrading};
ghost use Rattle.ht_legacy_sim.specs.Passing.{passing as legacy_passing};
ghost use Rattle.ht_sim.specs.Passing.{passing};
ghost use Rattle.ht_library.specs.Written.{Answers, Ran, by_conversion, by_filter};

use crate::crossing::MizgaureRefusal;
use crate::handing::{hand_over, source_of};
use ht_certify::{certify_capture, check_file};
use ht_io::GrowSink;
use ht_legacy_sim::legacy_channel;
use ht_list::List;
use ht_runs::RunFault;
use ht_sim::{channel, send, upgrade};
use std::alloc::Global;

fn sent(alloc: Global, frames: &[u8]) -> Result<List<u8>, RunFault>
    ensures { Ran (by_conversion sending) frames.now result }
{
    let mut source = source_of(alloc, frames)?;
    let mut sink = GrowSink::new(alloc);
    send(alloc, &mut source, &mut sink)?;
    Ok(List::from(sink.into_held()))
}

/// The file of symbols of the command `tx` for a file of frames.
#[unsafe(no_mangle)]
pub extern "C" fn mizgaure_tx(
    alloc: Global,
    frames: &[u8],
    symbols: &mut [u8],
    size: &mut u64,
    refusal: &mut MizgaureRefusal,
) -> u32
    ensures { Answers symbols.old symbols.new size.old size.new refusal.old refusal.new result (by_conversion sending) frames.now }
{
    hand_over(sent(alloc, frames), symbols, size, refusal)
}

fn passed(alloc: Global, seed: u64, noise: u16, symbols: &[u8]) -> Result<List<u8>, RunFault>
    ensures { Ran (by_conversion (passing seed noise)) symbols.now result }
{
    let mut source = source_of(alloc, symbols)?;
    let mut sink = GrowSink::new(alloc);
    channel(alloc, seed, noise, &mut source, &mut sink)?;
    Ok(List::from(sink.into_held()))
}

/// The capture of the command `channel` for a file of symbols, with this seed and this noise.
#[unsafe(no_mangle)]
pub extern "C" fn mizgaure_pass(
    alloc: Global,
    seed: u64,
    noise: u16,
    symbols: &[u8],
    capture: &mut [u8],
    size: &mut u64,
    refusal: &mut MizgaureRefusal,
) -> u32
    ensures { Answers capture.old capture.new size.old size.new refusal.old refusal.new result (by_conversion (passing seed noise)) symbols.now }
{
    hand_over(passed(alloc, seed, noise, symbols), capture, size, refusal)
}

fn legacy_passed(alloc: Global, seed: u64, noise: u16, frames: &[u8]) -> Result<List<u8>, RunFault>
    ensures { Ran (by_conversion (legacy_passing seed noise)) frames.now result }
{
    let mut source = source_of(alloc, frames)?;
    let mut sink = GrowSink::new(alloc);
    legacy_channel(alloc, seed, noise, &mut source, &mut sink)?;
    Ok(List::from(sink.into_held()))
}

/// The capture of the command `lchannel` for a file of clause 18 frames, with this seed and this noise.
#[unsafe(no_mangle)]
pub extern "C" fn mizgaure_legacy_pass(
    alloc: Global,
    seed: u64,
    noise: u16,
    frames: &[u8],
    capture: &mut [u8],
    size: &mut u64,
    refusal: &mut MizgaureRefusal,
) -> u32
    ensures { Answers capture.old capture.new size.old size.new refusal.old refusal.new result (by_conversion (legacy_passing seed noise)) frames.now }
{
    hand_over(
        legacy_passed(alloc, seed, noise, frames),
        capture,
        size,
        refusal,
    )
}

fn upgraded(alloc: Global, capture: &[u8]) -> Result<List<u8>, RunFault>
    ensures { Ran (by_conversion upgrading) capture.now result }
{
    let mut source = source_of(alloc, capture)?;
    let mut sink = GrowSink::new(alloc);
    upgrade(alloc, &mut source, &mut sink)?;
    Ok(List::from(sink.into_held()))
}

/// The capture of version 2 of the command `upgrade` for a capture of either version.
#[unsafe(no_mangle)]
pub extern "C" fn mizgaure_upgrade(
    alloc: Global,
    capture: &[u8],
    newer: &mut [u8],
    size: &mut u64,
    refusal: &mut MizgaureRefusal,
) -> u32
    ensures { Answers newer.old newer.new size.old size.new refusal.old refusal.new result (by_conversion upgrading) capture.now }
{
    hand_over(upgraded(alloc, capture), newer, size, refusal)
}

fn certified(alloc: Global, capture: &[u8]) -> Result<List<u8>, RunFault>
    ensures { Ran (by_conversion certifying) capture.now result }
{
    let mut source = source_of(alloc, capture)?;
    let mut sink = GrowSink::new(alloc);
    certify_capture(alloc, &mut source, &mut sink)?;
    Ok(List::from(sink.into_held()))
}

/// The file of the command `certify` for a capture: a certificate for each data job.
#[unsafe(no_mangle)]
pub extern "C" fn mizgaure_certify(
    alloc: Global,
    capture: &[u8],
    file: &mut [u8],
    size: &mut u64,
    refusal: &mut MizgaureRefusal,
) -> u32
    ensures { Answers file.old file.new size.old size.new refusal.old refusal.new result (by_conversion certifying) capture.now }
{
    hand_over(certified(alloc, capture), file, size, refusal)
}

fn checked(alloc: Global, file: &[u8]) -> Result<List<u8>, RunFault>
    ensures { Ran (by_filter checking) file.now result }
{
    let mut source = source_of(alloc, file)?;
    let mut sink = GrowSink::new(alloc);
    check_file(alloc, &mut source, &mut sink)?;
    Ok(List::from(sink.into_held()))
}

/// The text of the command `check` for a file of certificates: whether each holds.
#[unsafe(no_mangle)]
pub extern "C" fn mizgaure_check(
    alloc: Global,
    file: &[u8],
    text: &mut [u8],
    size: &mut u64,
    refusal: &mut MizgaureRefusal,
) -> u32
    ensures { Answers text.old text.new size.old size.new refusal.old refusal.new result (by_filter checking) file.now }
{
    hand_over(checked(alloc, file), text, size, refusal)
}

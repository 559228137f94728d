//! Captures in memory, and the texts that the program's receivers write for them.
ghost use Rattle.ht_capture.specs.Fields.{captures};
ghost use Rattle.ht_legacy_files.specs.CaptureFormats.{captures as legacy_captures};
ghost use Rattle.ht_results.specs.JobTexts.{detect_text, lines_of};
ghost use Rattle.ht_results.specs.Texts.{frame_lines_of, rx_text};
ghost use Rattle.ht_soft_rx.specs.Texts.{soft_lines_of, soft_rx_text};
ghost use Rattle.ht_legacy_rx.specs.Texts.{legacy_lines_of, legacy_text};
ghost use Rattle.ht_many.specs.Bundles.{receiving};
ghost use Rattle.ht_runs.specs.Formats.{filter};
ghost use Rattle.ht_library.specs.Written.{Answers, Ran, by_conversion, by_filter};

use crate::crossing::MizgaureRefusal;
use crate::handing::{hand_over, source_of};
use ht_feed::OpenGate;
use ht_io::GrowSink;
use ht_legacy_rx::legacy_receive_alone;
use ht_list::List;
use ht_many::many_bundle_alone;
use ht_runs::RunFault;
use ht_rx::{list_text_alone, receive_text_alone};
use ht_soft_rx::receive_soft_alone;
use std::alloc::Global;

// The number of jobs that are under way at a time. It changes nothing of what is written.
const WINDOW: u16 = 1024;

fn detected(alloc: Global, capture: &[u8]) -> Result<List<u8>, RunFault>
    ensures { Ran (by_filter (filter captures detect_text lines_of)) capture.now result }
{
    let mut source = source_of(alloc, capture)?;
    let mut sink = GrowSink::new(alloc);
    list_text_alone(alloc, WINDOW, &mut source, &mut sink, &OpenGate)?;
    Ok(List::from(sink.into_held()))
}

/// The text of the command `detect` for a capture: the first nearest vector of each job, with its distance.
#[unsafe(no_mangle)]
pub extern "C" fn mizgaure_detect(
    alloc: Global,
    capture: &[u8],
    text: &mut [u8],
    size: &mut u64,
    refusal: &mut MizgaureRefusal,
) -> u32
    ensures { Answers text.old text.new size.old size.new refusal.old refusal.new result (by_filter (filter captures detect_text lines_of)) capture.now }
{
    hand_over(detected(alloc, capture), text, size, refusal)
}

fn received(alloc: Global, capture: &[u8]) -> Result<List<u8>, RunFault>
    ensures { Ran (by_filter (filter captures rx_text frame_lines_of)) capture.now result }
{
    let mut source = source_of(alloc, capture)?;
    let mut sink = GrowSink::new(alloc);
    receive_text_alone(alloc, WINDOW, &mut source, &mut sink, &OpenGate)?;
    Ok(List::from(sink.into_held()))
}

/// The text of the command `rx` for a capture: what each frame is decoded to by hard decisions.
#[unsafe(no_mangle)]
pub extern "C" fn mizgaure_rx(
    alloc: Global,
    capture: &[u8],
    text: &mut [u8],
    size: &mut u64,
    refusal: &mut MizgaureRefusal,
) -> u32
    ensures { Answers text.old text.new size.old size.new refusal.old refusal.new result (by_filter (filter captures rx_text frame_lines_of)) capture.now }
{
    hand_over(received(alloc, capture), text, size, refusal)
}

fn received_soft(alloc: Global, capture: &[u8]) -> Result<List<u8>, RunFault>
    ensures { Ran (by_filter (filter captures soft_rx_text soft_lines_of)) capture.now result }
{
    let mut source = source_of(alloc, capture)?;
    let mut sink = GrowSink::new(alloc);
    receive_soft_alone(alloc, WINDOW, &mut source, &mut sink, &OpenGate)?;
    Ok(List::from(sink.into_held()))
}

/// The text of the command `soft` for a capture: what each frame is decoded to by weights.
#[unsafe(no_mangle)]
pub extern "C" fn mizgaure_soft(
    alloc: Global,
    capture: &[u8],
    text: &mut [u8],
    size: &mut u64,
    refusal: &mut MizgaureRefusal,
) -> u32
    ensures { Answers text.old text.new size.old size.new refusal.old refusal.new result (by_filter (filter captures soft_rx_text soft_lines_of)) capture.now }
{
    hand_over(received_soft(alloc, capture), text, size, refusal)
}

fn legacy_received(alloc: Global, capture: &[u8]) -> Result<List<u8>, RunFault>
    ensures { Ran (by_filter (filter legacy_captures legacy_text legacy_lines_of)) capture.now result }
{
    let mut source = source_of(alloc, capture)?;
    let mut sink = GrowSink::new(alloc);
    legacy_receive_alone(alloc, WINDOW, &mut source, &mut sink, &OpenGate)?;
    Ok(List::from(sink.into_held()))
}

/// The text of the command `lrx` for a capture of clause 18 frames.
#[unsafe(no_mangle)]
pub extern "C" fn mizgaure_lrx(
    alloc: Global,
    capture: &[u8],
    text: &mut [u8],
    size: &mut u64,
    refusal: &mut MizgaureRefusal,
) -> u32
    ensures { Answers text.old text.new size.old size.new refusal.old refusal.new result
        (by_filter (filter legacy_captures legacy_text legacy_lines_of)) capture.now }
{
    hand_over(legacy_received(alloc, capture), text, size, refusal)
}

fn received_many(alloc: Global, bundle: &[u8]) -> Result<List<u8>, RunFault>
    ensures { Ran (by_conversion receiving) bundle.now result }
{
    let mut source = source_of(alloc, bundle)?;
    let mut sink = GrowSink::new(alloc);
    many_bundle_alone(alloc, WINDOW, &mut source, &mut sink, &OpenGate)?;
    Ok(List::from(sink.into_held()))
}

/// The text of the command `many` for a bundle of captures: for each the line `capture K` and the text of `rx`.
#[unsafe(no_mangle)]
pub extern "C" fn mizgaure_many(
    alloc: Global,
    bundle: &[u8],
    text: &mut [u8],
    size: &mut u64,
    refusal: &mut MizgaureRefusal,
) -> u32
    ensures { Answers text.old text.new size.old size.new refusal.old refusal.new result (by_conversion receiving) bundle.now }
{
    hand_over(received_many(alloc, bundle), text, size, refusal)
}

//! The devices of the captures of a bundle, and their texts.
ghost use Rattle.std.specs.Prelude.{◌≡◌, ◌≤◌, [], ◌++◌, length, map, replicate, IfOk};
ghost use Rattle.std.specs.Bool.{MatchBool};
ghost use Rattle.ht_io.specs.Writing.{Growing};
ghost use Rattle.ht_text.specs.Lines.{capture_text};
ghost use Rattle.ht_many.specs.Alone.{HasText, HaveText};
ghost use Rattle.ht_many.specs.Bundles.{PutsOrLeavesPart, texts_from};

use crate::many_end::ManyEnd;
use ht_bundles::Bundled;
use ht_io::{GrowSink, Sink, SureSource};
use ht_runs::RunFault;
use ht_text::capture_line;
use std::alloc::{AllocError, Global};

/// A source of the octets of each capture, in their order, of which no read fails. The only error is lack of memory.
pub(crate) fn sources_of(
    alloc: Global,
    captures: Vec<Bundled>,
) -> Result<Vec<SureSource>, AllocError>
    ensures { IfOk result (λ sources. sources.items ≡ captures.items) }
{
    let mut sources = Vec::new(alloc);
    for capture in captures {
        match sources.push(SureSource::new(capture.into_vec())) {
            Ok(()) => {}
            Err(_) => return Err(AllocError),
        }
    }
    Ok(sources)
}

/// This number of sinks that hold nothing. The only error is lack of memory.
pub(crate) fn sinks_of(alloc: Global, count: usize) -> Result<Vec<GrowSink>, AllocError>
    ensures { IfOk result (λ sinks. sinks.items ≡ replicate count (record { held = []; faults = 0 })) }
{
    let mut sinks = Vec::new(alloc);
    for _index in 0..count {
        match sinks.push(GrowSink::new(alloc)) {
            Ok(()) => {}
            Err(_) => return Err(AllocError),
        }
    }
    Ok(sinks)
}

// Whether a capture's whole text was put.
fn has_text(end: &ManyEnd) -> bool
    ensures { MatchBool result (HasText end.now) (HasText end.now → ⊥) }
{
    match end {
        ManyEnd::Done(_) | ManyEnd::Refused(_) => true,
        ManyEnd::Read | ManyEnd::Write => false,
    }
}

/// Whether the whole text of each capture was put: true exactly where each is `Done` or `Refused`.
pub(crate) fn have_text(ends: &[ManyEnd]) -> bool
    ensures { MatchBool result (HaveText ends.now) (HaveText ends.now → ⊥) }
{
    for at in 0..ends.len() {
        if !has_text(&ends[at]) {
            return false;
        }
    }
    true
}

// Puts the line `capture K`, and behind it the capture's text.
fn put_text<K: Sink>(alloc: Global, number: u8, text: &[u8], sink: &mut K) -> Result<(), RunFault>
    ensures { PutsOrLeavesPart (K.shown sink.old) (K.shown sink.new) (capture_text number ++ text.now) result }
{
    let line = capture_line(alloc, number)?;
    sink.put(&line)?;
    sink.put(text)?;
    Ok(())
}

/// Puts the line `capture K` and behind it the text that a sink holds, for each of at most 255 sinks.
///
/// K counts from 0. `Write` comes exactly where the sink failed, and `NoMemory` where a line found no room; in both cases a
/// part of the text, from its front, was put.
pub(crate) fn put_texts<K: Sink>(
    alloc: Global,
    texts: &[GrowSink],
    sink: &mut K,
) -> Result<(), RunFault>
    requires few { length texts.now ≤ 255 }
    ensures { PutsOrLeavesPart (K.shown sink.old) (K.shown sink.new) (texts_from 0 (map (λ (s : Growing). s.held) texts.now)) result }
{
    for at in 0..texts.len() {
        let text = texts[at].held();
        put_text(alloc, at as u8, text, sink)?;
    }
    Ok(())
}

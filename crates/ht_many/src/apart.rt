//! Captures received apart, each whole by one worker.
ghost use Rattle.std.specs.Prelude.{◌≡◌, ◌≤◌, ◌<◌, Option, map, IfOk, Some, None};
ghost use Rattle.ht_feed.specs.Limits.{IsWindowSize};
ghost use Rattle.ht_io.specs.Writing.{Growing};
ghost use Rattle.ht_results.specs.Texts.{rx_text};
ghost use Rattle.ht_many.specs.Apart.{AreReceived, HoldsText, captures_in, held_all, texts_in};

use crate::alone::AloneReceiver;
use ht_bundles::Bundled;
use ht_feed::Gate;
use ht_io::GrowSink;
use std::alloc::{AllocError, Global};
use std::mem;
use std::thread::{Threads, for_each_mut};

/// A capture that one worker receives, and its text once it is received, or none if memory ran out.
#[derive(Drop)]
pub(crate) struct Apart {
    pub(crate) capture: Bundled,
    pub(crate) text: Option<GrowSink>,
}

// The number of octets of captures.
fn octets_in(captures: &[Bundled]) -> u64 {
    let mut octets = 0u64;
    for capture in captures {
        octets = octets.saturating_add(capture.as_slice().len() as u64);
    }
    octets
}

/// Whether no worker gets more than five quarters of its share of the octets, where the captures are dealt out in order and
/// each worker gets the number of captures over the number of workers, rounded up. No clause says so, and no result depends
/// on it.
pub(crate) fn are_even(captures: &[Bundled], workers: u8) -> bool
    requires { 1 ≤ workers }
{
    if captures.is_empty() {
        return false;
    }
    let most = octets_in(captures).saturating_mul(5);
    let count = captures.len().div_ceil(usize::from(workers));
    for dealt in captures.chunks(count) {
        if octets_in(dealt).saturating_mul(4 * u64::from(workers)) > most {
            return false;
        }
    }
    true
}

// The text of one capture; none for lack of memory.
fn text_of<G: Gate>(alloc: Global, window: u16, capture: Bundled, gate: &G) -> Option<GrowSink>
    requires window { IsWindowSize window }
    ensures { HoldsText capture result }
{
    let mut captures = Vec::new(alloc);
    let Ok(()) = captures.push(capture) else {
        return None;
    };
    match AloneReceiver::new(alloc, window, gate).texts(captures) {
        Ok(mut sinks) => sinks.pop(),
        Err(_) => None,
    }
}

impl Apart {
    // Receives the capture in this thread, and lets its octets go.
    fn receive<G: Gate>(&mut self, alloc: Global, window: u16, gate: &G)
        requires window { IsWindowSize window }
        ensures { HoldsText self.old.capture self.new.text }
    {
        let capture = mem::replace(&mut self.capture, Bundled::from(Vec::new(alloc)));
        self.text = text_of(alloc, window, capture, gate);
    }

    // Gives its text up.
    fn into_text(self) -> Option<GrowSink>
        ensures { result ≡ self.text }
    {
        self.text
    }
}

// Captures of which none is received. The only error is lack of memory.
fn unreceived(alloc: Global, captures: Vec<Bundled>) -> Result<Vec<Apart>, AllocError>
    ensures { IfOk result (λ all. captures_in all.items ≡ captures.items) }
{
    let mut all = Vec::new(alloc);
    for capture in captures {
        match all.push(Apart {
            capture,
            text: None,
        }) {
            Ok(()) => {}
            Err(_) => return Err(AllocError),
        }
    }
    Ok(all)
}

// The texts of captures, unless one of them has none.
fn texts_of(alloc: Global, all: Vec<Apart>) -> Result<Vec<GrowSink>, AllocError>
    ensures { IfOk result (λ sinks. texts_in all.items ≡ held_all sinks.items) }
{
    let mut sinks = Vec::new(alloc);
    for capture in all {
        let Some(text) = capture.into_text() else {
            return Err(AllocError);
        };
        match sinks.push(text) {
            Ok(()) => {}
            Err(_) => return Err(AllocError),
        }
    }
    Ok(sinks)
}

// Receives each capture, in at most this many threads, of which this one is one. At most `window` jobs are due at a time
// in each; no clause says so.
fn receive_each<R: Threads + Sync, G: Gate + Sync>(
    rt: &R,
    alloc: Global,
    workers: u8,
    window: u16,
    all: &mut [Apart],
    gate: &G,
)
    requires least { 1 ≤ workers }
    requires window { IsWindowSize window }
    ensures { AreReceived all.old all.new }
{
    for_each_mut(
        rt,
        all,
        usize::from(workers),
        &|_: usize, capture: &mut Apart|
            requires { IsWindowSize window }
            ensures { HoldsText capture.old.capture capture.new.text }
        { capture.receive(alloc, window, gate) },
    );
}

/// The text of each capture. At most this many workers, 1 to 64, of which the caller is one, receive those dealt to them, one
/// after the other. At most `window` jobs are due at a time, of all captures together; no clause says so. The only error is
/// lack of memory.
pub(crate) fn texts_apart<R: Threads + Sync, G: Gate + Sync>(
    rt: &R,
    alloc: Global,
    workers: u8,
    window: u16,
    captures: Vec<Bundled>,
    gate: &G,
) -> Result<Vec<GrowSink>, AllocError>
    requires least { 1 ≤ workers }
    requires window { IsWindowSize window }
    requires shares { workers ≤ window }
    ensures { IfOk result (λ sinks. map (λ (s : Growing). s.held) sinks.items ≡ map rx_text captures.items) }
{
    let mut all = match unreceived(alloc, captures) {
        Ok(all) => all,
        Err(lack) => return Err(lack),
    };
    let own = window / u16::from(workers);
    receive_each(rt, alloc, workers, own, &mut all, gate);
    texts_of(alloc, all)
}

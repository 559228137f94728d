//! The commands of the program `radio`, over any source and any sink of octets.
//!
//! [`run`] is the whole program but for the world outside. It takes the words of a call, reads octets from a source, puts
//! text into a sink and answers how the run ended. Crate `ht_words` says which lists of words are accepted, and what they
//! ask for: a command with a value for each of its options. What a command writes is a definition over the octets that it
//! reads, `command_of` in `specs/Tasks.antt`. It depends neither on the workers nor on their window, so the text is the same
//! for all of them.
//!
//! `detect` and `rx` read a capture of either version as it comes, and find for each subcarrier that is present in
//! each OFDM symbol (IEEE Std 802.11-2012, clause 20.3.11) the first nearest vector of its grid. `detect` writes
//! it with its distance, and `rx` a line for each frame, with what its labels are decoded to. So `detect` on the capture
//! `examples/z.htcp`, whose diagonals are 10 and whose samples are 0, gives
//!
//! ```text
//! job 0 0 0 100 -1 0
//! ```
//!
//! and 111 lines more, in which a pilot has its own value, and then `end 1 frames`. `rx` on it gives
//! `frame 0 data 10400 pilot 800 code 0 seed zero` before that line. With 02 in octet 7 either refuses it, by the one
//! line `refused BadBandwidth at 7`. Crate `ht_results` defines these texts: `detect_text` and `rx_text`.
//!
//! `docs/COMMANDS.md` says in words what each command reads and writes.
#![tactic(auto)]

ghost use Rattle.std.specs.Prelude.{◌≡◌, ◌≤◌, IfSome};
ghost use Rattle.ht_words.specs.Words.{IsWithinRanges, asked};
ghost use Rattle.ht_cli.specs.Tasks.{CarriesOut, plan_of};

pub mod laws;
mod lines;
mod status;

use ht_certify::{certify_capture, check_file};
use ht_demo::{Plan, demo, demo_alone};
use ht_feed::Gate;
use ht_io::{Sink, Source};
use ht_legacy_rx::{legacy_receive, legacy_receive_alone};
use ht_legacy_sim::legacy_channel;
use ht_many::{many_bundle, many_bundle_alone};
use ht_rate::Rate;
use ht_rx::{list_text, list_text_alone, receive_text, receive_text_alone};
use ht_sim::{channel, send, upgrade};
use ht_soft_rx::{receive_soft, receive_soft_alone};
pub use ht_words::Asked;
use lines::{put_line, put_usage, settle};
pub use status::Status;
use std::alloc::Global;
use std::sync::Wait;
use std::thread::Threads;

/// Runs the command that the words name, without the program's name, and answers how it ended.
///
/// The lines of a block are put once its jobs were run, that of a frame once all of its were. Clauses on octets speak of those
/// taken, and of all that the source had left where these are known, as in memory. The gate is called before and after a job.
///
/// With two workers or more the jobs run in at most that many threads, the caller's among them, and the call waits for all;
/// else it is [`run_alone`]. Where memory runs out before the words are known, nothing is read or put.
///
/// `answered` of `CarriesOut` says what each status means; [`laws`] spells it out for each command.
pub fn run<R: Threads + Wait + Sync, S: Source, K: Sink, G: Gate + Sync>(
    rt: &R,
    alloc: Global,
    words: &[String],
    source: &mut S,
    sink: &mut K,
    gate: &G,
) -> Status
    ensures { CarriesOut S.shown K.shown (asked words.now) source.old source.new sink.old sink.new result }
{
    let asked = match Asked::of(alloc, words) {
        Ok(asked) => asked,
        Err(_) => return Status::NoMemory,
    };
    match asked {
        Some(Asked::Detect { workers, window }) if workers > 1 => {
            let listed = list_text(rt, alloc, workers, window, source, sink, gate);
            settle(alloc, listed, sink)
        }
        Some(Asked::Rx { workers, window }) if workers > 1 => {
            let received = receive_text(rt, alloc, workers, window, source, sink, gate);
            settle(alloc, received, sink)
        }
        Some(Asked::Soft { workers, window }) if workers > 1 => {
            let received = receive_soft(rt, alloc, workers, window, source, sink, gate);
            settle(alloc, received, sink)
        }
        Some(Asked::LegacyRx { workers, window }) if workers > 1 => {
            let received = legacy_receive(rt, alloc, workers, window, source, sink, gate);
            settle(alloc, received, sink)
        }
        Some(Asked::Many { workers, window }) if workers > 1 => {
            let received = many_bundle(rt, alloc, workers, window, source, sink, gate);
            settle(alloc, received, sink)
        }
        Some(
            Asked::Demo {
                seed,
                noise,
                frames,
                rate,
                length,
                workers,
                window,
            },
        ) if workers > 1 => {
            let plan = planned(seed, noise, frames, rate, length);
            let line = demo(rt, alloc, workers, window, &plan, gate);
            put_line(line, Status::Done, sink)
        }
        _ => carry_out(alloc, asked, source, sink, gate),
    }
}

/// Does as [`run`], and runs every job in this thread, however many workers the words ask for.
pub fn run_alone<S: Source, K: Sink, G: Gate>(
    alloc: Global,
    words: &[String],
    source: &mut S,
    sink: &mut K,
    gate: &G,
) -> Status
    ensures { CarriesOut S.shown K.shown (asked words.now) source.old source.new sink.old sink.new result }
{
    match Asked::of(alloc, words) {
        Ok(asked) => carry_out(alloc, asked, source, sink, gate),
        Err(_) => Status::NoMemory,
    }
}

// Does what was asked in this thread, or puts the usage line where nothing was.
fn carry_out<S: Source, K: Sink, G: Gate>(
    alloc: Global,
    asked: Option<Asked>,
    source: &mut S,
    sink: &mut K,
    gate: &G,
) -> Status
    requires ranges { IfSome asked IsWithinRanges }
    ensures { CarriesOut S.shown K.shown asked source.old source.new sink.old sink.new result }
{
    match asked {
        Some(Asked::Detect { window, .. }) => {
            let listed = list_text_alone(alloc, window, source, sink, gate);
            settle(alloc, listed, sink)
        }
        Some(Asked::Rx { window, .. }) => {
            let received = receive_text_alone(alloc, window, source, sink, gate);
            settle(alloc, received, sink)
        }
        Some(Asked::Soft { window, .. }) => {
            let received = receive_soft_alone(alloc, window, source, sink, gate);
            settle(alloc, received, sink)
        }
        Some(Asked::LegacyRx { window, .. }) => {
            let received = legacy_receive_alone(alloc, window, source, sink, gate);
            settle(alloc, received, sink)
        }
        Some(Asked::Many { window, .. }) => {
            let received = many_bundle_alone(alloc, window, source, sink, gate);
            settle(alloc, received, sink)
        }
        Some(Asked::Tx) => {
            let sent = send(alloc, source, sink);
            settle(alloc, sent, sink)
        }
        Some(Asked::Channel { seed, noise }) => {
            let passed = channel(alloc, seed, noise, source, sink);
            settle(alloc, passed, sink)
        }
        Some(Asked::Upgrade) => {
            let upgraded = upgrade(alloc, source, sink);
            settle(alloc, upgraded, sink)
        }
        Some(Asked::Certify) => {
            let certified = certify_capture(alloc, source, sink);
            settle(alloc, certified, sink)
        }
        Some(Asked::Check) => {
            let checked = check_file(alloc, source, sink);
            settle(alloc, checked, sink)
        }
        Some(Asked::LegacyChannel { seed, noise }) => {
            let passed = legacy_channel(alloc, seed, noise, source, sink);
            settle(alloc, passed, sink)
        }
        Some(
            Asked::Demo {
                seed,
                noise,
                frames,
                rate,
                length,
                window,
                ..
            },
        ) => {
            let plan = planned(seed, noise, frames, rate, length);
            let line = demo_alone(alloc, window, &plan, gate);
            put_line(line, Status::Done, sink)
        }
        None => put_usage(alloc, sink),
    }
}

// What a demonstration with these options is to do.
fn planned(seed: u64, noise: u16, frames: u16, rate: Rate, length: u16) -> Plan
    ensures { result ≡ plan_of seed noise frames rate length }
{
    Plan {
        seed,
        noise,
        frames,
        rate,
        length,
    }
}

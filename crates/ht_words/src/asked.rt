//! What a call asks for.
ghost use Rattle.std.specs.Prelude.{◌≡◌, ◌≤◌, ◌==◌, [], IfOk, IfSome, if◌then◌else◌, map, string_bytes};
ghost use Rattle.ht_rate.specs.Rates.{rate_at};
ghost use Rattle.ht_words.specs.declared.setting.Setting.TheVariants.{Noise, Seed, Window, Workers};
ghost use Rattle.ht_words.specs.Words.{IsWithinRanges, are_accepted, asked, asked_of, commands, demo_in, for_channel, for_demo, for_workers, only_if, value_of};
ghost use Rattle.ht_words.specs.Refusing.{Reads};

use crate::plain::{Refusal, accept, value};
use crate::setting::Setting;
use ht_rate::Rate;
use std::alloc::{AllocError, Global};

/// What the words of a call ask for: a command, with a value for each of its options.
#[derive(Clone, Copy, Debug, PartialEq, Eq)]
pub enum Asked {
    /// `detect`: the nearest vectors of a capture.
    Detect {
        workers: u8,
        window: u16,
    },
    /// `rx`: the frames of a capture.
    Rx {
        workers: u8,
        window: u16,
    },
    /// `soft`: the frames of a capture, decoded by weights.
    Soft {
        workers: u8,
        window: u16,
    },
    /// `many`: the frames of each capture of a bundle.
    Many {
        workers: u8,
        window: u16,
    },
    /// `tx`: the subcarrier values of frames.
    Tx,
    /// `channel`: a capture of subcarrier values.
    Channel {
        seed: u64,
        noise: u16,
    },
    /// `upgrade`: a capture as one of version 2.
    Upgrade,
    /// `certify`: certificates of the data jobs of a capture.
    Certify,
    /// `check`: whether certificates hold.
    Check,
    /// `lchannel`: a capture of clause 18 frames.
    LegacyChannel {
        seed: u64,
        noise: u16,
    },
    /// `lrx`: the frames of a capture of clause 18.
    LegacyRx {
        workers: u8,
        window: u16,
    },
    /// `demo`: sample frames, sent and received.
    Demo {
        seed: u64,
        noise: u16,
        frames: u16,
        rate: Rate,
        length: u16,
        workers: u8,
        window: u16,
    },
}

impl Asked {
    /// What the words ask for, which come without the program's name; `None` where they aren't accepted.
    ///
    /// The only error is a lack of memory.
    pub fn of(alloc: Global, words: &[String]) -> Result<Option<Asked>, AllocError>
        ensures value { IfOk result (λ answer. answer ≡ asked words.now) }
        ensures ranges { IfOk result (λ answer. IfSome answer IsWithinRanges) }
    {
        match by_command(alloc, words) {
            Ok(asked) => Ok(Some(asked)),
            Err(Refusal::Words) => Ok(None),
            Err(Refusal::NoMemory) => Err(AllocError),
        }
    }
}

/// What the words ask for, by their first.
fn by_command(alloc: Global, words: &[String]) -> Result<Asked, Refusal>
    ensures { Reads (asked words.now) result }
{
    let [command, options @ ..] = words else {
        return Err(Refusal::Words);
    };
    by_name(alloc, command.as_str(), options)
}

/// What the command of this name asks for with these words behind it.
fn by_name(alloc: Global, name: &str, words: &[String]) -> Result<Asked, Refusal>
    ensures { Reads (asked_of commands name.now (map string_bytes words.now)) result }
{
    match name {
        "detect" => crew(alloc, words).map(|(workers, window)| Asked::Detect { workers, window }),
        "rx" => crew(alloc, words).map(|(workers, window)| Asked::Rx { workers, window }),
        "soft" => crew(alloc, words).map(|(workers, window)| Asked::Soft { workers, window }),
        "many" => crew(alloc, words).map(|(workers, window)| Asked::Many { workers, window }),
        "tx" => alone(words, Asked::Tx),
        "channel" => channel(alloc, words).map(|(seed, noise)| Asked::Channel { seed, noise }),
        "upgrade" => alone(words, Asked::Upgrade),
        "certify" => alone(words, Asked::Certify),
        "check" => alone(words, Asked::Check),
        "lchannel" => channel(alloc, words).map(|(seed, noise)| Asked::LegacyChannel {
            seed,
            noise,
        }),
        "lrx" => crew(alloc, words).map(|(workers, window)| Asked::LegacyRx { workers, window }),
        "demo" => demo(alloc, words),
        _ => Err(Refusal::Words),
    }
}

/// A command without options.
fn alone(words: &[String], asked: Asked) -> Result<Asked, Refusal>
    ensures { Reads (only_if (are_accepted [] (map string_bytes words.now)) asked) result }
{
    if words.is_empty() {
        Ok(asked)
    } else {
        Err(Refusal::Words)
    }
}

/// The options of a command that a crew of workers runs: how many they are, and their window.
fn crew(alloc: Global, words: &[String]) -> Result<(u8, u16), Refusal>
    ensures { let texts = map string_bytes words.now in
        Reads (only_if (are_accepted for_workers texts) (value_of texts Workers, value_of texts Window)) result }
{
    accept(words, &[Setting::Workers, Setting::Window])?;
    let workers = value(alloc, words, Setting::Workers)?;
    let window = value(alloc, words, Setting::Window)?;
    Ok((workers as u8, window as u16))
}

/// The options of a command that sends frames through a channel: the seed, and the size of the noise.
fn channel(alloc: Global, words: &[String]) -> Result<(u64, u16), Refusal>
    ensures { let texts = map string_bytes words.now in
        Reads (only_if (are_accepted for_channel texts) (value_of texts Seed, value_of texts Noise)) result }
{
    accept(words, &[Setting::Seed, Setting::Noise])?;
    let seed = value(alloc, words, Setting::Seed)?;
    let noise = value(alloc, words, Setting::Noise)?;
    Ok((seed, noise as u16))
}

/// The options of `demo`.
static DEMO: [Setting; 8] = [
    Setting::Seed,
    Setting::Noise,
    Setting::Frames,
    Setting::Mcs,
    Setting::Bandwidth,
    Setting::Length,
    Setting::Workers,
    Setting::Window,
];

/// The rate of a bandwidth in MHz and an MCS index.
#[tactic(auto, unfolding(ht_rate::specs::Rates::rate_of))]
fn rate(bandwidth: u64, mcs: u64) -> Rate
    requires { mcs ≤ 31 }
    ensures { result ≡ rate_at (if bandwidth == 40 then 1 else 0) mcs }
{
    match Rate::of(u8::from(bandwidth == 40), mcs as u8) {
        Ok(rate) => rate,
        Err(_) => unreachable!(),
    }
}

/// The command `demo`.
fn demo(alloc: Global, words: &[String]) -> Result<Asked, Refusal>
    ensures { let texts = map string_bytes words.now in Reads (only_if (are_accepted for_demo texts) (demo_in texts)) result }
{
    accept(words, &DEMO)?;
    let seed = value(alloc, words, Setting::Seed)?;
    let noise = value(alloc, words, Setting::Noise)?;
    let frames = value(alloc, words, Setting::Frames)?;
    let mcs = value(alloc, words, Setting::Mcs)?;
    let bandwidth = value(alloc, words, Setting::Bandwidth)?;
    let length = value(alloc, words, Setting::Length)?;
    let workers = value(alloc, words, Setting::Workers)?;
    let window = value(alloc, words, Setting::Window)?;
    Ok(Asked::Demo {
        seed,
        noise: noise as u16,
        frames: frames as u16,
        rate: rate(bandwidth, mcs),
        length: length as u16,
        workers: workers as u8,
        window: window as u16,
    })
}

//! The text of an option, read by `clap`.
ghost use Rattle.std.specs.Prelude.{◌≡◌, true, Some, IfOk, is_some, map};
ghost use Rattle.clap.specs.Words.{kind_of, takes};
ghost use Rattle.clap.specs.declared.error.kind.ErrorKind.TheVariants.{OutOfMemory};
ghost use Rattle.ht_words.specs.Readings.{command_with, text_read};

use crate::setting::Setting;
use clap::{Arg, Command, Error};
use std::alloc::{AllocError, Global};

/// The text that `clap` reads for an option, of a command that has only this one.
pub fn read<'a>(
    alloc: Global,
    setting: Setting,
    words: &'a [&'a str],
) -> Result<&'a str, AllocError>
    requires taken { takes (command_with setting) (map (λ word. word.now) words.now) ≡ true }
    requires known { is_some (text_read setting (map (λ word. word.now) words.now)) ≡ true }
    ensures { IfOk result (λ text. Some text.now ≡ text_read setting (map (λ word. word.now) words.now)) }
{
    let name: &'a str = setting.plain_name();
    let default: &'a str = setting.default();
    let option = Arg::new(alloc, name).long(name).default_value(default);
    let command = Command::new(alloc, "radio").arg(option)?;
    match command.try_get_matches_from(words) {
        Ok(matches) => match matches.get_str(name) {
            Some(text) => Ok(text),
            None => unreachable!(),
        },
        Err(error) => Err(lack_of(error)),
    }
}

/// An error of `clap` that is a lack of memory.
fn lack_of(error: Error) -> AllocError
    requires { kind_of error ≡ OutOfMemory }
{
    drop(error);
    AllocError
}

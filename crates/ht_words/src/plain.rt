//! The plain form of words, and the values that they give to options.
ghost use Rattle.std.specs.Prelude.{◌≡◌, ◌≢◌, ◌≤◌, ◌^◌, true, false, Err, IfOk, IfSome, IfNone, IsTrue, OnErr, OnOk, map, option_map, string_bytes};
ghost use Rattle.std.specs.Char.{is_ascii_digit};
ghost use Rattle.std.specs.List.{list_all};
ghost use Rattle.std.specs.Str.Parse.{digits_value};
ghost use Rattle.ht_words.specs.declared.plain.Refusal.TheVariants.{NoMemory, Words};
ghost use Rattle.ht_words.specs.Settings.{admits, default_of};
ghost use Rattle.ht_words.specs.Words.{GivesNumbers, given, is_number, is_pair, is_plain, names_one, value_of};

use crate::read::read;
use crate::setting::Setting;
use std::alloc::{AllocError, Global};

/// Why words ask for nothing.
#[derive(Clone, Copy)]
pub(crate) enum Refusal {
    /// They aren't accepted.
    Words,
    /// Out of memory.
    NoMemory,
}

/// All octets are decimal digits.
fn are_digits(octets: &[u8]) -> bool
    ensures { result ≡ list_all is_ascii_digit octets.now }
{
    octets.iter().all(|octet| octet.is_ascii_digit())
}

/// 1 to 20 decimal digits.
fn is_number(text: &str) -> bool
    ensures { result ≡ is_number text.now }
{
    1 <= text.len() && text.len() <= 20 && are_digits(text.as_bytes())
}

/// The word names one of the options.
fn names_one(word: &str, settings: &[Setting]) -> bool
    ensures { result ≡ names_one settings.now word.now }
{
    settings.iter().any(|setting| word == setting.name())
}

/// The word that follows a name, in pairs of words.
fn given<'a>(words: &'a [String], name: &str) -> Option<&'a str>
    ensures { option_map (λ text. text.now) result ≡ given name.now (map string_bytes words.now) }
{
    let mut rest = words;
    while let [word, digits, others @ ..] = rest {
        if word.as_str() == name {
            return Some(digits.as_str());
        }
        rest = others;
    }
    None
}

/// An option's name and a number, and the name doesn't come again in the words behind them.
fn is_pair(name: &str, digits: &str, others: &[String], settings: &[Setting]) -> bool
    ensures { result ≡ is_pair settings.now name.now digits.now (map string_bytes others.now) }
{
    names_one(name, settings) && is_number(digits) && given(others, name).is_none()
}

/// The words are pairs of an option's name and a number, and no name comes twice.
fn is_plain(words: &[String], settings: &[Setting]) -> bool
    ensures value { result ≡ is_plain settings.now (map string_bytes words.now) }
    ensures numbers { IsTrue result → GivesNumbers (map string_bytes words.now) }
{
    let mut rest = words;
    while let [name, digits, others @ ..] = rest {
        if !is_pair(name.as_str(), digits.as_str(), others, settings) {
            return false;
        }
        rest = others;
    }
    rest.is_empty()
}

/// Refuses words that aren't pairs of one of these options and a number, each at most once.
pub(crate) fn accept(words: &[String], settings: &[Setting]) -> Result<(), Refusal>
    ensures plain { OnOk result (is_plain settings.now (map string_bytes words.now) ≡ true) }
    ensures numbers { OnOk result (GivesNumbers (map string_bytes words.now)) }
    ensures words { result ≢ Err NoMemory }
    ensures refused { OnErr result (is_plain settings.now (map string_bytes words.now) ≡ false) }
{
    if is_plain(words, settings) {
        Ok(())
    } else {
        Err(Refusal::Words)
    }
}

/// The number that a text of 1 to 20 decimal digits means, where it has 64 bits.
fn number(text: &str) -> Option<u64>
    requires { is_number text.now ≡ true }
    ensures some { IfSome result (λ value. value ≡ digits_value 10 text.now) }
    ensures none { IfNone result (2 ^ 64 ≤ digits_value 10 text.now) }
{
    text.parse().ok()
}

/// The number that the digits given for an option mean, where it has 64 bits.
fn read_given(alloc: Global, setting: Setting, digits: &str) -> Result<Option<u64>, AllocError>
    requires { is_number digits.now ≡ true }
    ensures some { IfOk result (λ answer. IfSome answer (λ value. value ≡ digits_value 10 digits.now)) }
    ensures none { IfOk result (λ answer. IfNone answer (2 ^ 64 ≤ digits_value 10 digits.now)) }
{
    let name = setting.name();
    let word = format!(in alloc; "{name}={digits}")?;
    let built = ["radio", word.as_str()];
    let text = read(alloc, setting, &built)?;
    Ok(number(text))
}

/// The number that an option's default means, which has 64 bits.
fn read_default(alloc: Global, setting: Setting) -> Result<Option<u64>, AllocError>
    ensures some { IfOk result (λ answer. IfSome answer (λ value. value ≡ default_of setting)) }
    ensures none { IfOk result (λ answer. IfNone answer (2 ^ 64 ≤ default_of setting)) }
{
    let built = ["radio"];
    let text = read(alloc, setting, &built)?;
    Ok(number(text))
}

/// The number that words in the plain form mean for an option, where it has 64 bits.
fn meant(alloc: Global, words: &[String], setting: Setting) -> Result<Option<u64>, AllocError>
    requires { GivesNumbers (map string_bytes words.now) }
    ensures some { IfOk result (λ answer. IfSome answer (λ value. value ≡ value_of (map string_bytes words.now) setting)) }
    ensures none { IfOk result (λ answer. IfNone answer (2 ^ 64 ≤ value_of (map string_bytes words.now) setting)) }
{
    match given(words, setting.name()) {
        Some(digits) => read_given(alloc, setting, digits),
        None => read_default(alloc, setting),
    }
}

/// The value that words in the plain form give to an option, where it may have it.
#[tactic(auto, using(crate::proofs::Numbers::admits_none_above))]
pub(crate) fn value(alloc: Global, words: &[String], setting: Setting) -> Result<u64, Refusal>
    requires { GivesNumbers (map string_bytes words.now) }
    ensures value { IfOk result (λ value. value ≡ value_of (map string_bytes words.now) setting) }
    ensures fits { IfOk result (λ value. admits setting value ≡ true) }
    ensures refused { result ≡ Err Words → admits setting (value_of (map string_bytes words.now) setting) ≡ false }
{
    match meant(alloc, words, setting) {
        Ok(Some(value)) if setting.admits(value) => Ok(value),
        Ok(_) => Err(Refusal::Words),
        Err(_) => Err(Refusal::NoMemory),
    }
}

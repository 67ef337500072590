//! The values SOURCE, LIST, D, G and T, which `clap` passes on as any text.
ghost use Rattle.std.specs.Prelude.{◌≡◌, ◌≢◌, ◌↔◌, ◌∷◌, ◌++◌, [], ℕ, List, IfErr, IfNone, IfOk};
ghost use Rattle.std.specs.Prelude.{IfSome, IsTrue, MatchOption, min};
ghost use Rattle.std.specs.Char.{is_ascii_digit};
ghost use Rattle.std.specs.List.{after_first, before_first, list_all};
ghost use Rattle.std.specs.Str.Parse.{IsNumeral, digits_value};
ghost use Rattle.command_words.specs.Values.{IsNoList, ListText, NumberText, SourceText, at_sign};
ghost use Rattle.command_words.specs.Values.{begins_name, colon, continues_name, is_colon, is_name};

use crate::words::WordsFault;
use std::alloc::Global;

/// Where a program's source is.
#[derive(Clone, Copy, Debug, PartialEq, Eq)]
pub enum Source<'a> {
    /// A file's name: any text that doesn't begin with `@`, also an empty one.
    File(&'a str),
    /// A program of the library, from `@NAME:DIGITS`. The name has no `@`, and may be one that no
    /// library has.
    Library {
        name: &'a str,
        /// The number that the digits write, or `u32::MAX` if that is larger.
        values: u32,
    },
}

/// Whether a name may begin with the byte.
fn can_begin_name(byte: u8) -> bool
    ensures { result ≡ begins_name byte }
{
    byte.is_ascii_alphabetic() || byte == b'_'
}

/// Whether a name may have the byte after its first.
fn can_continue_name(byte: u8) -> bool
    ensures { result ≡ continues_name byte }
{
    byte.is_ascii_alphanumeric() || byte == b'_'
}

/// Whether a name may have these bytes after its first.
fn can_end_name(bytes: &[u8]) -> bool
    ensures { result ≡ list_all continues_name bytes.now }
{
    bytes.iter().all(|byte| can_continue_name(*byte))
}

/// Whether the text is an identifier.
fn is_identifier(text: &str) -> bool
    ensures { result ≡ is_name text.now }
{
    match text.as_bytes() {
        [] => false,
        [first, rest @ ..] => can_begin_name(*first) && can_end_name(rest),
    }
}

fn has_only_digits(text: &str) -> bool
    ensures { result ≡ list_all is_ascii_digit text.now }
{
    text.bytes().all(|byte| byte.is_ascii_digit())
}

/// Whether the text is one or more decimal digits, with no sign.
fn is_numeral(text: &str) -> bool
    ensures { IsTrue result ↔ IsNumeral 10 text.now }
{
    !text.is_empty() && has_only_digits(text)
}

/// The number that the digits write, or the largest `u32` if it is larger.
fn capped_number(digits: &str) -> u32
    requires { IsNumeral 10 digits.now }
    ensures { result ≡ min (digits_value 10 digits.now) u32.MAX }
{
    digits.parse().unwrap_or(u32::MAX)
}

/// The number that decimal digits write, if it has 32 bits; a sign is no digit.
pub(crate) fn read_number(text: &str) -> Option<u32>
    ensures some { IfSome result (NumberText text.now) }
    ensures none { IfNone result ((n : ℕ) → ¬ (NumberText text.now n)) }
{
    if !is_numeral(text) {
        return None;
    }
    text.parse().ok()
}

/// The numbers that a text has with single commas between them.
pub(crate) fn read_list(alloc: Global, text: &str) -> Result<Vec<u32>, WordsFault>
    ensures ok { IfOk result (λ list. ListText text.now list.items) }
    ensures err { IfErr result (IsNoList text.now) }
{
    let mut list = Vec::new(alloc);
    for part in text.split(',') {
        let Some(number) = read_number(part) else {
            return Err(WordsFault::List);
        };
        list.push(number)?;
    }
    Ok(list)
}

/// What follows `@`.
pub(crate) fn after_at(text: &str) -> Option<&str>
    ensures { MatchOption result ((rest : List ℕ) → text.now ≢ at_sign ∷ rest)
        (λ r. text.now ≡ at_sign ∷ r.now) }
{
    text.strip_prefix('@')
}

/// The parts before and after the first colon.
pub(crate) fn cut_at_colon(text: &str) -> Option<(&str, &str)>
    ensures none { IfNone result (after_first is_colon text.now ≡ []) }
    ensures before { IfSome result (λ p. p.0.now ≡ before_first is_colon text.now) }
    ensures after { IfSome result (λ p. p.1.now ≡ after_first is_colon text.now) }
    ensures whole { IfSome result (λ p. text.now ≡ p.0.now ++ colon ∷ p.1.now) }
{
    text.split_once(':')
}

/// A program of the library, from what follows `@`.
fn read_library(text: &str) -> Option<Source<'_>>
    ensures some { IfSome result (SourceText (at_sign ∷ text.now)) }
    ensures none { IfNone result ((s : Source) → ¬ (SourceText (at_sign ∷ text.now) s)) }
{
    let (name, digits) = cut_at_colon(text)?;
    if !is_identifier(name) || !is_numeral(digits) {
        return None;
    }
    Some(Source::Library {
        name,
        values: capped_number(digits),
    })
}

/// The source that the text names, or `None` if it begins with `@` and doesn't go on as a name,
/// `:` and digits.
pub(crate) fn read_source(text: &str) -> Option<Source<'_>>
    ensures some { IfSome result (SourceText text.now) }
    ensures none { IfNone result ((s : Source) → ¬ (SourceText text.now s)) }
{
    match after_at(text) {
        None => Some(Source::File(text)),
        Some(rest) => read_library(rest),
    }
}

//! What stands before a place.

use crate::spelling::word_text;
use round_lang::{Token, Word};
use std::fmt;

/// How many characters of a name or a number are told at most.
const MAX_TOLD: usize = 32;

/// What stands before a place.
#[derive(Clone, Copy, PartialEq, Eq, Debug)]
pub(crate) enum Previous<'a> {
    Nothing,
    Word(&'a str),
    Number(&'a str),
    LongName,
    LongNumber,
}

impl<'a> Previous<'a> {
    /// The last of the tokens.
    pub(crate) fn of(tokens: &[Token<'a>]) -> Previous<'a> {
        let Some(last) = tokens.last() else {
            return Previous::Nothing;
        };
        match last.word {
            Word::Name(name) => Previous::name(name.text),
            Word::Number(digits) => Previous::number(digits),
            word => Previous::Word(word_text(word)),
        }
    }

    fn name(text: &'a str) -> Previous<'a> {
        if text.len() <= MAX_TOLD {
            Previous::Word(text)
        } else {
            Previous::LongName
        }
    }

    fn number(digits: &'a [u8]) -> Previous<'a> {
        match str::from_utf8(digits) {
            Ok(text) if text.len() <= MAX_TOLD => Previous::Number(text),
            _ => Previous::LongNumber,
        }
    }
}

impl fmt::Display for Previous<'_> {
    fn fmt<W: fmt::Write>(&self, f: &mut fmt::Formatter<W>) -> fmt::Result {
        match self {
            Previous::Nothing => write!(f, "at the beginning"),
            Previous::Word(word) => write!(f, "after \"{word}\""),
            Previous::Number(digits) => write!(f, "after {digits}"),
            Previous::LongName => write!(f, "after a name"),
            Previous::LongNumber => write!(f, "after a number"),
        }
    }
}

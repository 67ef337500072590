//! Trying whether a program goes on with a token.

use crate::kind::TokenKind;
use round_lang::{LangFault, Token, Word, parse};
use run_events::NoMemory;
use std::alloc::Global;

/// A text with the names and the numbers of the tokens before a place, and with others of the kinds
/// of the other tokens.
#[derive(Drop)]
pub(crate) struct Trial {
    text: String,
}

/// Whether a blank has to stand between two tokens. One stands there if something stood between
/// them, and so that no two symbols become one.
fn is_apart(last: &Token<'_>, next: &Token<'_>) -> bool {
    last.span.after < next.span.first
        || (TokenKind::of(last.word) == TokenKind::Comparison
            && TokenKind::of(next.word) == TokenKind::Equal)
}

/// Writes a token, or another of its kind.
fn push_word(text: &mut String, word: Word<'_>) -> Result<(), NoMemory> {
    match word {
        Word::Name(name) => text.push_str(name.text)?,
        Word::Number(digits) => match str::from_utf8(digits) {
            Ok(digits) => text.push_str(digits)?,
            Err(_) => text.push_str(TokenKind::Number.sample())?,
        },
        _ => text.push_str(TokenKind::of(word).sample())?,
    }
    Ok(())
}

impl Trial {
    /// The text of such tokens. It's no longer than theirs, but for a blank at its end.
    pub(crate) fn new(alloc: Global, tokens: &[Token<'_>]) -> Result<Trial, NoMemory> {
        let mut text = String::new(alloc);
        let mut last: Option<&Token<'_>> = None;
        for token in tokens {
            if last.is_some_and(|last| is_apart(last, token)) {
                text.push_str(" ")?;
            }
            push_word(&mut text, token.word)?;
            last = Some(token);
        }
        text.push_str(" ")?;
        Ok(Trial { text })
    }

    /// Whether `parse` can tell how the text goes on: it passes no limit already.
    pub(crate) fn is_open(&self, alloc: Global) -> Result<bool, NoMemory> {
        match parse(alloc, self.text.as_str()) {
            Ok(_) | Err(LangFault::Unexpected(_)) => Ok(true),
            Err(LangFault::NoMemory) => Err(NoMemory),
            Err(_) => Ok(false),
        }
    }

    /// Whether some program's tokens are those of the text, then one of the kind, and then others.
    /// `parse` tells the first token with which no program goes on, so its answer shows it.
    pub(crate) fn goes_on_with(&self, alloc: Global, kind: TokenKind) -> Result<bool, NoMemory> {
        let mut text = self.text.clone()?;
        text.push_str(kind.sample())?;
        match parse(alloc, text.as_str()) {
            Ok(_) => Ok(true),
            Err(LangFault::NoMemory) => Err(NoMemory),
            Err(LangFault::Unexpected(span)) => {
                Ok(self.text.len() < span.first && kind != TokenKind::End)
            }
            Err(LangFault::TooDeep | LangFault::LimitPassed(_)) => Ok(true),
            Err(LangFault::TooLong | LangFault::BadToken(_)) => Ok(false),
        }
    }
}

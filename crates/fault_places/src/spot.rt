//! A place at which a text goes wrong, and what stands around it.

use crate::kind::TokenKind;
use crate::place::before;
use round_lang::{Mark, Token, TokenFault, Word, tokens};
use run_events::NoMemory;
use std::alloc::Global;

/// What stands at a place.
#[derive(Clone, Copy)]
pub(crate) enum Found<'a> {
    Token(Word<'a>),
    /// The byte with which no token begins.
    Byte(u8),
    End,
}

/// A place at which a text goes wrong, and what stands around it.
#[derive(Clone, Copy)]
pub(crate) struct Spot<'t, 'a> {
    /// The tokens before it.
    pub(crate) front: &'t [Token<'a>],
    pub(crate) found: Found<'a>,
    /// The byte behind the first one of what stands there.
    pub(crate) second_byte: Option<u8>,
    /// The kind of the token behind the one that stands there.
    pub(crate) next: Option<TokenKind>,
    /// Whether a comment begins there, as other languages write it.
    pub(crate) is_comment: bool,
    /// The kinds of token that could stand there.
    pub(crate) kinds: &'t [TokenKind],
}

/// The first tokens of a text, and the byte behind them with which none begins.
#[derive(Drop)]
struct Ahead<'a> {
    tokens: Vec<Token<'a>>,
    bad: Option<u8>,
}

impl<'a> Ahead<'a> {
    fn new(alloc: Global, bytes: &'a [u8]) -> Result<Ahead<'a>, NoMemory> {
        let bad = match tokens(alloc, bytes) {
            Ok(tokens) => return Ok(Ahead { tokens, bad: None }),
            Err(TokenFault::NoMemory) => return Err(NoMemory),
            Err(TokenFault::BadToken(bad)) => bad,
        };
        let tokens = match tokens(alloc, before(bytes, bad.first)) {
            Ok(tokens) => tokens,
            Err(TokenFault::NoMemory) => return Err(NoMemory),
            Err(TokenFault::BadToken(_)) => Vec::new(alloc),
        };
        let bad = bytes.get(bad.first).copied();
        Ok(Ahead { tokens, bad })
    }

    fn found(&self) -> Found<'a> {
        match (self.tokens.first(), self.bad) {
            (Some(first), _) => Found::Token(first.word),
            (None, Some(byte)) => Found::Byte(byte),
            (None, None) => Found::End,
        }
    }

    fn next(&self) -> Option<TokenKind> {
        let second = self.tokens.get(1)?;
        Some(TokenKind::of(second.word))
    }
}

/// Whether `//`, `/*` or `--` stands round the offset.
fn begins_comment(bytes: &[u8], offset: usize) -> bool {
    let (front, rest) = bytes.split_at(offset.min(bytes.len()));
    match rest {
        [b'/', b'/' | b'*', ..] => true,
        [b'-', b'-', ..] => true,
        [b'-', ..] => front.last() == Some(&b'-'),
        _ => false,
    }
}

impl<'t, 'a> Spot<'t, 'a> {
    /// The place at the offset, behind such tokens.
    pub(crate) fn new(
        alloc: Global,
        bytes: &'a [u8],
        offset: usize,
        front: &'t [Token<'a>],
        kinds: &'t [TokenKind],
    ) -> Result<Spot<'t, 'a>, NoMemory> {
        let rest = bytes.get(offset..).unwrap_or(&[]);
        let ahead = Ahead::new(alloc, rest)?;
        Ok(Spot {
            front,
            found: ahead.found(),
            second_byte: rest.get(1).copied(),
            next: ahead.next(),
            is_comment: begins_comment(bytes, offset),
            kinds,
        })
    }

    /// The kind of the token that stands there; the end, if none does.
    pub(crate) fn kind(&self) -> TokenKind {
        match self.found {
            Found::Token(word) => TokenKind::of(word),
            Found::Byte(_) | Found::End => TokenKind::End,
        }
    }

    /// The name that stands there.
    pub(crate) fn name(&self) -> Option<&'a str> {
        match self.found {
            Found::Token(Word::Name(name)) => Some(name.text),
            _ => None,
        }
    }

    /// Whether a token of the kind could stand there.
    pub(crate) fn can(&self, kind: TokenKind) -> bool {
        self.kinds.contains(&kind)
    }

    /// Whether the mark could stand there.
    pub(crate) fn can_mark(&self, mark: Mark) -> bool {
        self.can(TokenKind::Mark(mark))
    }

    /// Whether a token of the kind has to stand there.
    pub(crate) fn needs(&self, kind: TokenKind) -> bool {
        self.kinds.len() == 1 && self.can(kind)
    }

    /// Whether the token before is of the kind.
    pub(crate) fn follows(&self, kind: TokenKind) -> bool {
        match self.front.last() {
            Some(last) => TokenKind::of(last.word) == kind,
            None => false,
        }
    }

    /// Whether the mark stands before, and perhaps a name between.
    pub(crate) fn is_behind(&self, mark: Mark) -> bool {
        self.follows(TokenKind::Mark(mark)) || self.is_behind_name(mark)
    }

    /// Whether the mark and a name stand before.
    pub(crate) fn is_behind_name(&self, mark: Mark) -> bool {
        match self.front {
            [.., first, name] => {
                TokenKind::of(name.word) == TokenKind::Name
                    && TokenKind::of(first.word) == TokenKind::Mark(mark)
            }
            _ => false,
        }
    }

    /// Whether an operand could stand there.
    pub(crate) fn is_operand(&self) -> bool {
        self.can(TokenKind::Constant)
    }

    /// Whether an operator could stand there.
    pub(crate) fn is_behind_operand(&self) -> bool {
        self.can(TokenKind::Sum)
    }

    /// Whether an assignment could begin there.
    pub(crate) fn is_in_assignments(&self) -> bool {
        self.can(TokenKind::Name) && (self.can_mark(Mark::End) || self.can_mark(Mark::At))
    }
}

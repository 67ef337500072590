//! The parts of a program's tokens: expressions with their operands, and lists.

use round_lang::{BinaryOperator, Mark, Span, Token, Word};
use run_events::NoMemory;
use std::alloc::Global;

/// What is looked for outside of brackets.
#[derive(Clone, Copy)]
pub(crate) enum Wanted {
    Mark(Mark),
    Infix(BinaryOperator),
    /// The first word of a declaration or a block.
    Beginning,
}

impl Wanted {
    fn is(self, word: Word<'_>) -> bool {
        match (self, word) {
            (Wanted::Mark(wanted), Word::Mark(mark)) => wanted == mark,
            (Wanted::Infix(wanted), Word::Infix(operator)) => wanted == operator,
            (Wanted::Beginning, Word::Mark(mark)) => {
                matches!(mark, Mark::State | Mark::Input | Mark::Decide | Mark::At)
            }
            _ => false,
        }
    }
}

/// How many brackets are open behind a token.
fn depth_behind(depth: usize, word: Word<'_>) -> usize {
    match word {
        Word::Mark(Mark::Open | Mark::OpenSquare | Mark::OpenCurly) => depth.saturating_add(1),
        Word::Mark(Mark::Close | Mark::CloseSquare | Mark::CloseCurly) => depth.saturating_sub(1),
        _ => depth,
    }
}

/// The first such token outside of brackets.
fn first_at_top(part: &[Token<'_>], wanted: Wanted) -> Option<usize> {
    let mut depth = 0;
    for (place, token) in part.iter().enumerate() {
        if depth == 0 && wanted.is(token.word) {
            return Some(place);
        }
        depth = depth_behind(depth, token.word);
    }
    None
}

/// The last such token outside of brackets.
fn last_at_top(part: &[Token<'_>], wanted: Wanted) -> Option<usize> {
    let mut depth = 0;
    let mut last = None;
    for (place, token) in part.iter().enumerate() {
        if depth == 0 && wanted.is(token.word) {
            last = Some(place);
        }
        depth = depth_behind(depth, token.word);
    }
    last
}

/// The first tokens, and those behind them.
pub(crate) fn cut<'t, 'a>(
    part: &'t [Token<'a>],
    count: usize,
) -> (&'t [Token<'a>], &'t [Token<'a>]) {
    part.split_at(count.min(part.len()))
}

/// The tokens before and behind a place; all and none, if there is no place.
pub(crate) fn around<'t, 'a>(
    part: &'t [Token<'a>],
    place: Option<usize>,
) -> (&'t [Token<'a>], &'t [Token<'a>]) {
    let (front, rest) = cut(part, place.unwrap_or(part.len()));
    let (_, behind) = cut(rest, 1);
    (front, behind)
}

/// The tokens before and behind the first such token outside of brackets.
pub(crate) fn split<'t, 'a>(
    part: &'t [Token<'a>],
    wanted: Wanted,
) -> (&'t [Token<'a>], &'t [Token<'a>]) {
    around(part, first_at_top(part, wanted))
}

/// The tokens before and behind the last one.
pub(crate) fn last_split<'t, 'a>(
    part: &'t [Token<'a>],
    wanted: Wanted,
) -> (&'t [Token<'a>], &'t [Token<'a>]) {
    around(part, last_at_top(part, wanted))
}

/// The tokens without so many first and so many last ones.
pub(crate) fn inner<'t, 'a>(part: &'t [Token<'a>], count: usize) -> &'t [Token<'a>] {
    let (_, rest) = cut(part, count);
    let (inner, _) = cut(rest, rest.len().saturating_sub(count));
    inner
}

/// The tokens without the first and the last one.
pub(crate) fn inside<'t, 'a>(part: &'t [Token<'a>]) -> &'t [Token<'a>] {
    inner(part, 1)
}

/// The pieces between such tokens outside of brackets; none of no tokens.
pub(crate) fn pieces<'t, 'a>(
    alloc: Global,
    part: &'t [Token<'a>],
    separator: Wanted,
) -> Result<Vec<&'t [Token<'a>]>, NoMemory> {
    let mut pieces = Vec::new(alloc);
    let (_, mut rest) = cut(part, 0);
    for _piece in 0..part.len() {
        let (piece, behind) = split(rest, separator);
        if !piece.is_empty() {
            pieces.push(piece)?;
        }
        rest = behind;
    }
    Ok(pieces)
}

/// Where the tokens stand, if there are any.
pub(crate) fn span_of(part: &[Token<'_>]) -> Option<Span> {
    let first = part.first()?;
    let last = part.last()?;
    Some(Span {
        first: first.span.first,
        after: last.span.after,
    })
}

/// Whether the first token is `(` and the last the `)` that belongs to it.
fn is_in_brackets(part: &[Token<'_>]) -> bool {
    match part {
        [first, inner @ .., last] => {
            matches!(first.word, Word::Mark(Mark::Open))
                && matches!(last.word, Word::Mark(Mark::Close))
                && first_at_top(inner, Wanted::Mark(Mark::Close)).is_none()
        }
        _ => false,
    }
}

/// How many pairs of round brackets stand around an expression.
fn count_brackets(part: &[Token<'_>]) -> usize {
    for count in 0..part.len() {
        if !is_in_brackets(inner(part, count)) {
            return count;
        }
    }
    0
}

/// The tokens of an expression without the round brackets around it.
pub(crate) fn unwrapped<'t, 'a>(part: &'t [Token<'a>]) -> &'t [Token<'a>] {
    inner(part, count_brackets(part))
}

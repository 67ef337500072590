//! What could stand where a text goes wrong.

use crate::kind::{KINDS, TokenKind};
use crate::mistake::Mistake;
use crate::place::before;
use crate::previous::Previous;
use crate::recognition::mistake_of;
use crate::spot::{Found, Spot};
use crate::trial::Trial;
use round_lang::{Mark, Span, Token, TokenFault, tokens};
use run_events::NoMemory;
use std::alloc::Global;
use std::fmt;

/// What is told of the kinds of token that could stand at a place.
#[derive(Clone, Copy, PartialEq, Eq, Debug)]
enum Item {
    /// Whatever begins an expression.
    Expression,
    /// Whatever begins an operand, where an `if` has to stand in brackets.
    Operand,
    /// An operator between operands, or the index of a row.
    Operator,
    Kind(TokenKind),
}

impl fmt::Display for Item {
    fn fmt<W: fmt::Write>(&self, f: &mut fmt::Formatter<W>) -> fmt::Result {
        match self {
            Item::Expression => write!(f, "an expression"),
            Item::Operand => write!(f, "an operand"),
            Item::Operator => write!(f, "an operator"),
            Item::Kind(kind) => write!(f, "{kind}"),
        }
    }
}

/// What could stand at a place of a text.
#[derive(Drop, Debug)]
pub struct Expected<'a> {
    kinds: Vec<TokenKind>,
    items: Vec<Item>,
    previous: Previous<'a>,
    mistake: Option<Mistake>,
    /// Where the token before ends, if something is missing behind it.
    gap: Option<usize>,
}

impl Expected<'_> {
    /// The kinds of token that could stand there.
    pub fn kinds(&self) -> &[TokenKind] {
        &self.kinds
    }

    /// The part of the text to show, if `parse` answers this one: the place behind the token
    /// before, if something is missing there.
    pub fn place(&self, refused: Span) -> Span {
        match self.gap {
            Some(end) => Span {
                first: end,
                after: end,
            },
            None => refused,
        }
    }

    /// The mistake that was made there, if it's one of the common ones.
    pub fn mistake(&self) -> Option<Mistake> {
        self.mistake
    }
}

/// A sentence of what could stand there.
impl fmt::Display for Expected<'_> {
    fn fmt<W: fmt::Write>(&self, f: &mut fmt::Formatter<W>) -> fmt::Result {
        match self.items.as_slice() {
            [] => write!(f, "this can't stand here {}", self.previous),
            [item] => write!(f, "{} there has to be {item}", self.previous),
            items => {
                write!(f, "{} there can be ", self.previous)?;
                write_items(items, f)
            }
        }
    }
}

/// Writes a list of items.
fn write_items<W: fmt::Write>(items: &[Item], f: &mut fmt::Formatter<W>) -> fmt::Result {
    for (place, item) in items.iter().enumerate() {
        if place == 0 {
            write!(f, "{item}")?;
        } else if place + 1 == items.len() {
            write!(f, " or {item}")?;
        } else {
            write!(f, ", {item}")?;
        }
    }
    Ok(())
}

/// Whether a kind is one of those that begin an expression.
fn begins_expression(kind: TokenKind) -> bool {
    match kind {
        TokenKind::Name | TokenKind::Number | TokenKind::Constant | TokenKind::Call => true,
        TokenKind::Mark(mark) => matches!(
            mark,
            Mark::Open | Mark::OpenSquare | Mark::OpenCurly | Mark::If | Mark::Not | Mark::Has
        ),
        _ => false,
    }
}

/// Whether a kind goes on behind an operand, within an expression.
fn is_operator(kind: TokenKind) -> bool {
    matches!(
        kind,
        TokenKind::Or
            | TokenKind::And
            | TokenKind::Equal
            | TokenKind::Comparison
            | TokenKind::Sum
            | TokenKind::Product
            | TokenKind::Mark(Mark::OpenSquare)
    )
}

/// What is told of the kinds.
fn items_of(alloc: Global, kinds: &[TokenKind]) -> Result<Vec<Item>, NoMemory> {
    let is_operand = kinds.contains(&TokenKind::Constant);
    let is_behind_operand = kinds.contains(&TokenKind::Sum);
    let mut items = Vec::new(alloc);
    if is_operand && kinds.contains(&TokenKind::Mark(Mark::If)) {
        items.push(Item::Expression)?;
    } else if is_operand {
        items.push(Item::Operand)?;
    }
    if is_behind_operand {
        items.push(Item::Operator)?;
    }
    for kind in kinds {
        let is_told = is_operand && begins_expression(*kind);
        if !is_told && !(is_behind_operand && is_operator(*kind)) {
            items.push(Item::Kind(*kind))?;
        }
    }
    Ok(items)
}

/// The kinds of which a token can stand behind the tokens.
fn kinds_behind(alloc: Global, before: &[Token<'_>]) -> Result<Vec<TokenKind>, NoMemory> {
    let trial = Trial::new(alloc, before)?;
    let mut kinds = Vec::new(alloc);
    if !trial.is_open(alloc)? {
        return Ok(kinds);
    }
    for kind in KINDS {
        if trial.goes_on_with(alloc, kind)? {
            kinds.push(kind)?;
        }
    }
    Ok(kinds)
}

/// Where the token before ends, if something is missing behind it.
fn gap(spot: &Spot<'_, '_>, mistake: Option<Mistake>) -> Option<usize> {
    let last = spot.front.last()?;
    let is_end = matches!(spot.found, Found::End);
    let is_gap = mistake.is_some_and(|mistake| mistake.is_gap());
    (is_end || is_gap).then_some(last.span.after)
}

/// What could stand at the offset: the kinds of token with which some program goes on, if its
/// tokens begin as the text does before the offset. The offset that `parse` answers for an
/// unexpected token or a bad one is meant. If the tokens before it pass a limit of the language, or
/// fill a text to its limit, no kind is found.
pub fn expected_at<'a>(
    alloc: Global,
    text: &'a str,
    offset: usize,
) -> Result<Expected<'a>, NoMemory> {
    let front = before(text.as_bytes(), offset);
    let front = match tokens(alloc, front) {
        Ok(front) => front,
        Err(TokenFault::NoMemory) => return Err(NoMemory),
        Err(TokenFault::BadToken(_)) => Vec::new(alloc),
    };
    let kinds = kinds_behind(alloc, &front)?;
    let spot = Spot::new(alloc, text.as_bytes(), offset, &front, &kinds)?;
    let mistake = mistake_of(alloc, &spot)?;
    let gap = gap(&spot, mistake);
    Ok(Expected {
        items: items_of(alloc, &kinds)?,
        previous: Previous::of(&front),
        mistake,
        gap,
        kinds,
    })
}

//! The operands of an expression among its tokens.

use crate::parts::{Wanted, around, cut, inner, inside, last_split, split};
use round_lang::{BinaryOperator, Mark, Token, UnaryOperator, Word};

/// The operand of an operator on one value.
pub(crate) fn operand<'t, 'a>(operator: UnaryOperator, part: &'t [Token<'a>]) -> &'t [Token<'a>] {
    let (_, rest) = cut(part, 1);
    match operator {
        UnaryOperator::Not => inner(rest, 0),
        _ => inner(rest, 1),
    }
}

/// The operands of an operator on two values.
pub(crate) fn operands<'t, 'a>(
    operator: BinaryOperator,
    part: &'t [Token<'a>],
) -> (&'t [Token<'a>], &'t [Token<'a>]) {
    match operator {
        BinaryOperator::Has => {
            let (_, brackets) = cut(part, 1);
            split(inside(brackets), Wanted::Mark(Mark::Comma))
        }
        BinaryOperator::Entry => {
            let (front, _) = cut(part, part.len().saturating_sub(1));
            last_split(front, Wanted::Mark(Mark::OpenSquare))
        }
        _ => last_split(part, Wanted::Infix(operator)),
    }
}

/// The place of the `then` or `else` that belongs to an `if` before the tokens.
fn branch(part: &[Token<'_>], ends: Mark) -> Option<usize> {
    let mut open = 1usize;
    for (place, token) in part.iter().enumerate() {
        if matches!(token.word, Word::Mark(Mark::If)) {
            open = open.saturating_add(1);
        } else if matches!(token.word, Word::Mark(mark) if mark == ends) {
            open = open.saturating_sub(1);
            if open == 0 {
                return Some(place);
            }
        }
    }
    None
}

/// The condition and the branches of an `if`.
pub(crate) fn branches<'t, 'a>(part: &'t [Token<'a>]) -> [&'t [Token<'a>]; 3] {
    let (_, rest) = cut(part, 1);
    let (condition, rest) = around(rest, branch(rest, Mark::Then));
    let (first, second) = around(rest, branch(rest, Mark::Else));
    [condition, first, second]
}

/// The name and the body of `{v : ..}` or `[v : ..]`.
pub(crate) fn comprehension<'t, 'a>(part: &'t [Token<'a>]) -> (&'t [Token<'a>], &'t [Token<'a>]) {
    split(inside(part), Wanted::Mark(Mark::Colon))
}

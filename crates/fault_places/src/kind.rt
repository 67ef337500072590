//! The kinds of token, as far as they matter to what may come next.

use crate::spelling::mark_text;
use round_lang::{BinaryOperator, Mark, Word};
use std::fmt;

/// A kind of token. Of two tokens of one kind, either can stand where the other can.
#[derive(Clone, Copy, PartialEq, Eq, Debug)]
pub enum TokenKind {
    Name,
    Number,
    /// `num`, `bool`, `set` or `row`.
    Type,
    /// A word that stands for a value, as `true` and `me`.
    Constant,
    /// `single`, `size` or `least`.
    Call,
    Or,
    And,
    /// `=`, which compares, and which stands before a variable's first value.
    Equal,
    /// `<>`, `<`, `<=`, `>` or `>=`.
    Comparison,
    /// `+`, `-`, `union` or `minus`.
    Sum,
    /// `div`, `mod` or `inter`.
    Product,
    /// Any other symbol or word.
    Mark(Mark),
    /// No token: the end of the text.
    End,
}

/// All kinds, in the order in which they are told.
pub(crate) const KINDS: [TokenKind; 38] = [
    TokenKind::Name,
    TokenKind::Number,
    TokenKind::Type,
    TokenKind::Constant,
    TokenKind::Call,
    TokenKind::Or,
    TokenKind::And,
    TokenKind::Equal,
    TokenKind::Comparison,
    TokenKind::Sum,
    TokenKind::Product,
    TokenKind::Mark(Mark::Open),
    TokenKind::Mark(Mark::OpenSquare),
    TokenKind::Mark(Mark::OpenCurly),
    TokenKind::Mark(Mark::If),
    TokenKind::Mark(Mark::Not),
    TokenKind::Mark(Mark::Has),
    TokenKind::Mark(Mark::Values),
    TokenKind::Mark(Mark::Period),
    TokenKind::Mark(Mark::State),
    TokenKind::Mark(Mark::Input),
    TokenKind::Mark(Mark::Decide),
    TokenKind::Mark(Mark::Message),
    TokenKind::Mark(Mark::Send),
    TokenKind::Mark(Mark::When),
    TokenKind::Mark(Mark::On),
    TokenKind::Mark(Mark::Then),
    TokenKind::Mark(Mark::Else),
    TokenKind::Mark(Mark::Colon),
    TokenKind::Mark(Mark::Assign),
    TokenKind::Mark(Mark::Comma),
    TokenKind::Mark(Mark::Semicolon),
    TokenKind::Mark(Mark::Close),
    TokenKind::Mark(Mark::CloseSquare),
    TokenKind::Mark(Mark::CloseCurly),
    TokenKind::Mark(Mark::End),
    TokenKind::Mark(Mark::At),
    TokenKind::End,
];

impl TokenKind {
    /// The kind of a token.
    pub(crate) fn of(word: Word<'_>) -> TokenKind {
        match word {
            Word::Name(_) => TokenKind::Name,
            Word::Number(_) => TokenKind::Number,
            Word::Mark(mark) => TokenKind::Mark(mark),
            Word::Kind(_) => TokenKind::Type,
            Word::Fixed(_) => TokenKind::Constant,
            Word::Call(_) => TokenKind::Call,
            Word::Infix(operator) => TokenKind::of_operator(operator),
        }
    }

    fn of_operator(operator: BinaryOperator) -> TokenKind {
        match operator {
            BinaryOperator::Or => TokenKind::Or,
            BinaryOperator::And => TokenKind::And,
            BinaryOperator::Equal => TokenKind::Equal,
            BinaryOperator::Differs
            | BinaryOperator::Less
            | BinaryOperator::AtMost
            | BinaryOperator::More
            | BinaryOperator::AtLeast => TokenKind::Comparison,
            BinaryOperator::Add
            | BinaryOperator::Sub
            | BinaryOperator::Union
            | BinaryOperator::Minus => TokenKind::Sum,
            BinaryOperator::Div | BinaryOperator::Mod | BinaryOperator::Inter => {
                TokenKind::Product
            }
            BinaryOperator::Has => TokenKind::Mark(Mark::Has),
            BinaryOperator::Entry => TokenKind::Mark(Mark::OpenSquare),
        }
    }

    /// The shortest token of the kind.
    pub(crate) fn sample(self) -> &'static str {
        match self {
            TokenKind::Name => "a",
            TokenKind::Number => "1",
            TokenKind::Type => "num",
            TokenKind::Constant => "n",
            TokenKind::Call => "size",
            TokenKind::Or => "or",
            TokenKind::And => "and",
            TokenKind::Equal => "=",
            TokenKind::Comparison => "<",
            TokenKind::Sum => "+",
            TokenKind::Product => "div",
            TokenKind::Mark(mark) => mark_text(mark),
            TokenKind::End => "",
        }
    }
}

/// The kind in words.
impl fmt::Display for TokenKind {
    fn fmt<W: fmt::Write>(&self, f: &mut fmt::Formatter<W>) -> fmt::Result {
        match self {
            TokenKind::Name => write!(f, "a name"),
            TokenKind::Number => write!(f, "a number"),
            TokenKind::Type => write!(f, "a type"),
            TokenKind::Constant => write!(f, "a word for a value"),
            TokenKind::Call => write!(f, "\"single\", \"size\" or \"least\""),
            TokenKind::Comparison => write!(f, "a comparison"),
            TokenKind::End => write!(f, "the end of the text"),
            kind => write!(f, "\"{}\"", kind.sample()),
        }
    }
}

//! Tokens.
ghost use Rattle.std.specs.Prelude.{◌≡◌};
ghost use Rattle.round_lang.specs.Lexemes.{same_mark};

use crate::expr::{BinaryOperator, Constant, Ty, UnaryOperator};
use crate::fault::Span;
use crate::name::Name;

/// A symbol or a keyword of the grammar that isn't a type, a constant, an operator between two
/// operands or a call of one argument.
#[derive(Clone, Copy, PartialEq, Eq, Debug)]
pub enum Mark {
    Values,
    Period,
    State,
    Input,
    Decide,
    At,
    Message,
    Send,
    When,
    On,
    End,
    If,
    Then,
    Else,
    Not,
    Has,
    Open,
    Close,
    OpenSquare,
    CloseSquare,
    OpenCurly,
    CloseCurly,
    Colon,
    Assign,
    Semicolon,
    Comma,
}

/// What a token is. A number has its digits.
#[derive(Clone, Copy, Debug)]
pub enum Word<'a> {
    Name(Name<'a>),
    Number(&'a [u8]),
    Mark(Mark),
    Kind(Ty),
    Fixed(Constant),
    Call(UnaryOperator),
    Infix(BinaryOperator),
}

/// A token and where it stands.
#[derive(Clone, Copy, Debug)]
pub struct Token<'a> {
    pub word: Word<'a>,
    pub span: Span,
}

/// Whether two marks are the same.
#[tactic(auto, unfolding(crate::specs::Lexemes::same_mark))]
pub(crate) fn is_mark(a: Mark, b: Mark) -> bool
    ensures { result ≡ same_mark a b }
{
    a == b
}

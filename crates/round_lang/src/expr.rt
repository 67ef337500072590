//! The syntax tree of expressions.

use crate::identifier::Identifier;

/// The type of a value.
#[derive(Clone, Copy, PartialEq, Eq, Debug)]
pub enum Ty {
    Num,
    Bool,
    Set,
    Row,
}

/// A word that stands for a value: a literal, or what a node knows of itself and its round.
#[derive(Clone, Copy, PartialEq, Eq, Debug)]
pub enum Constant {
    True,
    False,
    Empty,
    All,
    Zero,
    Me,
    Nodes,
    Faults,
    Round,
    Phase,
    Dest,
    From,
}

/// An operator on one value.
#[derive(Clone, Copy, PartialEq, Eq, Debug)]
pub enum UnaryOperator {
    Not,
    Single,
    Size,
    Least,
}

/// An operator on two values; `Has` is `has(s, e)`, `Entry` is `r[e]`.
#[derive(Clone, Copy, PartialEq, Eq, Debug)]
pub enum BinaryOperator {
    Add,
    Sub,
    Div,
    Mod,
    Equal,
    Differs,
    Less,
    AtMost,
    More,
    AtLeast,
    And,
    Or,
    Union,
    Inter,
    Minus,
    Has,
    Entry,
}

/// An expression. `SetOf` is `{v : e}`, `RowOf` is `[v : e]`.
#[derive(Drop, Debug)]
pub enum Expr {
    Number(u32),
    Fixed(Constant),
    Named(Identifier),
    Unary(UnaryOperator, Box<Expr>),
    Binary(BinaryOperator, Box<Expr>, Box<Expr>),
    If(Box<Expr>, Box<Expr>, Box<Expr>),
    SetOf(Identifier, Box<Expr>),
    RowOf(Identifier, Box<Expr>),
}

//! What wants a type.

use crate::layout::NameAt;
use std::fmt;

/// What wants an expression to have a type.
#[derive(Clone, Copy, PartialEq, Eq, Debug)]
pub enum Wants<'a> {
    /// An operator or a call, by its word or symbol.
    Operator(&'static str),
    /// `=` or `<>`, whose sides have one type.
    OtherSide(&'static str),
    /// The condition of an `if`.
    Condition,
    /// The branches of an `if`, which have one type.
    OtherBranch,
    /// `{v : ..}`.
    SetOf,
    /// `[v : ..]`.
    RowOf,
    /// The declaration of a variable, for its first value.
    Declaration(NameAt<'a>),
    SendWhen,
    /// A field, for the value that is sent in it.
    Field(NameAt<'a>),
    /// An assignment, to the variable that is declared there.
    Assignment(NameAt<'a>),
    Decide,
}

impl<'a> Wants<'a> {
    /// The name, declared elsewhere in the text, that wants the type, if one does.
    pub(crate) fn name(&self) -> Option<NameAt<'a>> {
        match self {
            Wants::Field(name) => Some(*name),
            Wants::Assignment(name) => Some(*name),
            _ => None,
        }
    }
}

/// What wants the type, in words.
impl fmt::Display for Wants<'_> {
    fn fmt<W: fmt::Write>(&self, f: &mut fmt::Formatter<W>) -> fmt::Result {
        match self {
            Wants::Operator(word) => write!(f, "\"{word}\" wants"),
            Wants::OtherSide(word) => write!(f, "both sides of \"{word}\" have one type, here"),
            Wants::Condition => write!(f, "the condition of an \"if\" is"),
            Wants::OtherBranch => write!(f, "both branches of an \"if\" have one type, here"),
            Wants::SetOf => write!(f, "behind the \":\" of a set stands"),
            Wants::RowOf => write!(f, "behind the \":\" of a row stands"),
            Wants::Declaration(name) => write!(f, "\"{}\" begins as", name.text),
            Wants::SendWhen => write!(f, "the condition of \"send\" is"),
            Wants::Field(name) => write!(f, "the field \"{}\" is", name.text),
            Wants::Assignment(name) => write!(f, "the variable \"{}\" is", name.text),
            Wants::Decide => write!(f, "\"decide\" names"),
        }
    }
}

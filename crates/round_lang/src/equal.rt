//! Comparisons of the lists of a program, item by item.
ghost use Rattle.std.specs.Prelude.{◌≡◌, ◌↔◌, IsTrue};

use crate::block::{Assignment, Block, Field};
use crate::formula::Formula;
use crate::identifier::Identifier;
use crate::program::{Variable, VariableKind};

/// A part of a program, which tells whether another one is the same.
pub(crate) trait Part {
    fn is_same(&self, other: &Self) -> bool
        ensures { IsTrue result ↔ (self.now ≡ other.now) };
}

impl Part for Identifier {
    fn is_same(&self, other: &Identifier) -> bool {
        self.same(other)
    }
}

impl Part for Formula {
    fn is_same(&self, other: &Formula) -> bool {
        self.same(other)
    }
}

impl Part for Field {
    fn is_same(&self, other: &Field) -> bool {
        self.same(other)
    }
}

impl Part for Assignment {
    fn is_same(&self, other: &Assignment) -> bool {
        self.same(other)
    }
}

impl Part for Variable {
    fn is_same(&self, other: &Variable) -> bool {
        self.same(other)
    }
}

impl Part for Block {
    fn is_same(&self, other: &Block) -> bool {
        self.same(other)
    }
}

/// Whether both lists have the same items in the same order.
pub(crate) fn same_parts<T: Part>(one: &[T], other: &[T]) -> bool
    ensures { IsTrue result ↔ (one.now ≡ other.now) }
{
    match (one, other) {
        ([], []) => true,
        ([a, one @ ..], [b, other @ ..]) => a.is_same(b) && same_parts(one, other),
        _ => false,
    }
}

impl Field {
    /// Whether both are one field.
    pub fn same(&self, other: &Field) -> bool
        ensures { IsTrue result ↔ (self.now ≡ other.now) }
    {
        self.name.same(&other.name) && self.ty == other.ty
    }
}

impl Assignment {
    /// Whether both are one assignment.
    pub fn same(&self, other: &Assignment) -> bool
        ensures { IsTrue result ↔ (self.now ≡ other.now) }
    {
        self.target.same(&other.target) && self.formula.same(&other.formula)
    }
}

impl VariableKind {
    /// Whether both are one kind.
    pub fn same(&self, other: &VariableKind) -> bool
        ensures { IsTrue result ↔ (self.now ≡ other.now) }
    {
        match (self, other) {
            (VariableKind::Input, VariableKind::Input) => true,
            (
                VariableKind::State { ty: a, start: one },
                VariableKind::State {
                    ty: b,
                    start: other,
                },
            ) => *a == *b && one.same(other),
            _ => false,
        }
    }
}

impl Variable {
    /// Whether both are one variable.
    pub fn same(&self, other: &Variable) -> bool
        ensures { IsTrue result ↔ (self.now ≡ other.now) }
    {
        self.name.same(&other.name) && self.kind.same(&other.kind)
    }
}

//! What names stand for where an expression stands.

use crate::layout::{BlockPlace, Layout, NameAt};
use crate::wants::Wants;
use round_lang::{Block, Field, Identifier, Program, Ty, Variable, VariableKind};

/// A part of a program that expressions stand in.
#[derive(Clone, Copy, PartialEq, Eq, Debug)]
pub(crate) enum Position {
    Start,
    Send,
    OnMessage,
    End,
}

/// Comprehension variables in scope, the innermost first, and where they stand.
#[derive(Clone, Copy)]
pub(crate) enum Bound<'p, 'a> {
    Outermost,
    Inner(&'p Identifier, NameAt<'a>, &'p Bound<'p, 'a>),
}

impl<'a> Bound<'_, 'a> {
    /// Where the name is bound, if it is.
    pub(crate) fn place(&self, name: &Identifier) -> Option<NameAt<'a>> {
        match self {
            Bound::Outermost => None,
            Bound::Inner(inner, place, outer) => {
                if inner.is(name) {
                    Some(*place)
                } else {
                    outer.place(name)
                }
            }
        }
    }
}

/// A program and where its parts stand.
#[derive(Clone, Copy)]
pub(crate) struct Placed<'p, 't, 'a> {
    pub(crate) program: &'p Program,
    pub(crate) layout: &'p Layout<'t, 'a>,
}

/// The fields of a block, and where they stand.
#[derive(Clone, Copy)]
pub(crate) struct Fields<'p, 'a> {
    pub(crate) fields: &'p [Field],
    pub(crate) places: &'p [NameAt<'a>],
}

/// The type of a variable.
pub(crate) fn variable_type(variable: &Variable) -> Ty {
    match &variable.kind {
        VariableKind::Input => Ty::Num,
        VariableKind::State { ty, .. } => *ty,
    }
}

/// Whether a variable is the input.
pub(crate) fn is_input(variable: &Variable) -> bool {
    matches!(&variable.kind, VariableKind::Input)
}

impl<'p, 'a> Fields<'p, 'a> {
    /// The fields of a block.
    pub(crate) fn of(block: &'p Block, place: &'p BlockPlace<'_, 'a>) -> Fields<'p, 'a> {
        Fields {
            fields: block.fields(),
            places: place.fields.as_slice(),
        }
    }

    /// Where the field with the name is declared.
    pub(crate) fn place(&self, name: &Identifier) -> Option<NameAt<'a>> {
        let place = self.fields.iter().position(|field| field.name.is(name))?;
        self.places.get(place).copied()
    }

    /// The type of the field with the name.
    pub(crate) fn type_of(&self, name: &Identifier) -> Option<Ty> {
        let place = self.fields.iter().position(|field| field.name.is(name))?;
        Some(self.fields.get(place)?.ty)
    }

    /// The type that the value with the number has to have, if there is a field for it.
    pub(crate) fn wanted(&self, number: usize) -> Option<(Ty, Wants<'a>)> {
        let field = self.fields.get(number)?;
        let place = self.places.get(number)?;
        Some((field.ty, Wants::Field(*place)))
    }
}

impl<'p, 'a> Placed<'p, '_, 'a> {
    /// The variable with the name.
    pub(crate) fn variable(&self, name: &Identifier) -> Option<&'p Variable> {
        self.program
            .variables()
            .iter()
            .find(|variable| variable.name.is(name))
    }

    /// Where the variable with the name is declared.
    pub(crate) fn variable_place(&self, name: &Identifier) -> Option<NameAt<'a>> {
        let variables = self.program.variables();
        let place = variables
            .iter()
            .position(|variable| variable.name.is(name))?;
        Some(self.layout.variables.get(place)?.name)
    }

    /// The type that is to be assigned to the variable with the name.
    pub(crate) fn wanted(&self, name: &Identifier) -> Option<(Ty, Wants<'a>)> {
        let variable = self.variable(name)?;
        let place = self.variable_place(name)?;
        Some((variable_type(variable), Wants::Assignment(place)))
    }

    /// Where the first field with the name is declared, in whatever block.
    pub(crate) fn field_place(&self, name: &Identifier) -> Option<NameAt<'a>> {
        for (block, place) in self.program.blocks().iter().zip(&self.layout.blocks) {
            if let Some(place) = Fields::of(block, place).place(name) {
                return Some(place);
            }
        }
        None
    }
}

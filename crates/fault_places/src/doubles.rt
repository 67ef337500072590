//! Names that are declared twice.

use crate::earliest::Earliest;
use crate::fault::{Double, FaultPlace};
use crate::layout::NameAt;
use crate::scope::{Fields, Placed, is_input};
use round_lang::Identifier;

impl<'a> Earliest<'a> {
    fn note_double(&mut self, name: NameAt<'a>, other: NameAt<'a>, double: Double) {
        self.note(
            name.span.first,
            FaultPlace::DoubleName {
                name,
                other,
                double,
            },
        );
    }

    /// Notes a name, if the first one that is the same stands before it.
    fn note_if_later(&mut self, name: NameAt<'a>, other: Option<NameAt<'a>>, double: Double) {
        if let Some(other) = other {
            if other.span.first < name.span.first {
                self.note_double(name, other, double);
            }
        }
    }

    fn note_double_variables(&mut self, placed: &Placed<'_, '_, 'a>) {
        let variables = placed.program.variables().iter();
        for (variable, place) in variables.zip(&placed.layout.variables) {
            let other = placed.variable_place(&variable.name);
            self.note_if_later(place.name, other, Double::Variable);
        }
    }

    /// Notes the fields that have the name of another or of a variable.
    fn note_double_fields(&mut self, fields: Fields<'_, 'a>, placed: &Placed<'_, '_, 'a>) {
        for (field, place) in fields.fields.iter().zip(fields.places) {
            let name: &Identifier = &field.name;
            self.note_if_later(*place, fields.place(name), Double::Field);
            self.note_if_later(*place, placed.variable_place(name), Double::FieldAsVariable);
        }
    }

    fn note_second_input(&mut self, placed: &Placed<'_, '_, 'a>) {
        let mut first: Option<NameAt<'a>> = None;
        let variables = placed.program.variables().iter();
        for (variable, place) in variables.zip(&placed.layout.variables) {
            if is_input(variable) {
                self.note_if_later(place.name, first, Double::Input);
                first = first.or(Some(place.name));
            }
        }
    }

    fn note_second_decide(&mut self, placed: &Placed<'_, '_, 'a>) {
        if let [first, second, ..] = placed.layout.decides.as_slice() {
            self.note_double(*second, *first, Double::Decide);
        }
    }
}

/// Notes each name that is declared twice, and a second `input` and `decide`.
pub(crate) fn note_doubles<'a>(placed: &Placed<'_, '_, 'a>, earliest: &mut Earliest<'a>) {
    earliest.note_double_variables(placed);
    earliest.note_second_input(placed);
    earliest.note_second_decide(placed);
    for (block, place) in placed.program.blocks().iter().zip(&placed.layout.blocks) {
        earliest.note_double_fields(Fields::of(block, place), placed);
    }
}

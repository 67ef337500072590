//! The names and words that may stand where a name stands that isn't declared.

use crate::layout::{NameAt, name_at};
use crate::nearest::{Meant, nearest};
use crate::parts::{Wanted, cut, span_of, split};
use crate::rules::constant_fault;
use crate::scope::{Placed, Position, is_input};
use crate::sites::{Site, Sites};
use crate::spelling::constant_text;
use round_lang::{Constant, Mark, Token, Word};
use run_events::NoMemory;
use std::alloc::Global;

/// All words for a value.
const CONSTANTS: [Constant; 12] = [
    Constant::True,
    Constant::False,
    Constant::Empty,
    Constant::All,
    Constant::Zero,
    Constant::Me,
    Constant::Nodes,
    Constant::Faults,
    Constant::Round,
    Constant::Phase,
    Constant::Dest,
    Constant::From,
];

/// The names and words among which a meaning is looked for.
#[derive(Drop)]
struct Meanings<'a> {
    list: Vec<Meant<'a>>,
}

/// Whether an offset lies within the tokens.
fn encloses(part: &[Token<'_>], offset: usize) -> bool {
    match span_of(part) {
        Some(span) => span.first <= offset && offset < span.after,
        None => false,
    }
}

/// What ends the body of a set or a row.
fn closing(word: Word<'_>) -> Option<Mark> {
    match word {
        Word::Mark(Mark::OpenCurly) => Some(Mark::CloseCurly),
        Word::Mark(Mark::OpenSquare) => Some(Mark::CloseSquare),
        _ => None,
    }
}

/// The v of the `{v : ..}` or `[v : ..]` with which the tokens begin, if the offset lies in its
/// body.
fn bound_over<'a>(part: &[Token<'a>], offset: usize) -> Option<NameAt<'a>> {
    match part {
        [open, name, colon, rest @ ..] if matches!(colon.word, Word::Mark(Mark::Colon)) => {
            let (body, _) = split(rest, Wanted::Mark(closing(open.word)?));
            if encloses(body, offset) {
                name_at(name)
            } else {
                None
            }
        }
        _ => None,
    }
}

impl<'a> Meanings<'a> {
    fn add_variables(
        &mut self,
        placed: &Placed<'_, '_, 'a>,
        position: Position,
    ) -> Result<(), NoMemory> {
        let variables = placed.program.variables().iter();
        for (variable, place) in variables.zip(&placed.layout.variables) {
            if position != Position::Start || is_input(variable) {
                self.list.push(Meant::name(place.name))?;
            }
        }
        Ok(())
    }

    /// Adds what may stand in an expression at the offset.
    fn add_site(
        &mut self,
        placed: &Placed<'_, '_, 'a>,
        site: &Site<'_, '_, 'a>,
        offset: usize,
    ) -> Result<(), NoMemory> {
        self.add_variables(placed, site.position)?;
        self.add_fields(site)?;
        for place in 0..site.part.len() {
            let (_, rest) = cut(site.part, place);
            if let Some(name) = bound_over(rest, offset) {
                self.list.push(Meant::name(name))?;
            }
        }
        for constant in CONSTANTS {
            if constant_fault(constant, site.position).is_none() {
                self.list.push(Meant::word(constant_text(constant)))?;
            }
        }
        Ok(())
    }

    /// Adds the fields that can be read in an expression.
    fn add_fields(&mut self, site: &Site<'_, '_, 'a>) -> Result<(), NoMemory> {
        if site.position != Position::OnMessage {
            return Ok(());
        }
        match site.fields {
            Some(fields) => self.add_names(fields.places),
            None => Ok(()),
        }
    }

    fn add_names(&mut self, names: &[NameAt<'a>]) -> Result<(), NoMemory> {
        for name in names {
            self.list.push(Meant::name(*name))?;
        }
        Ok(())
    }
}

/// What was meant by a name of the program that isn't declared: the nearest of the names and words
/// that may stand there, if one is near enough.
pub(crate) fn meant<'a>(
    alloc: Global,
    placed: &Placed<'_, '_, 'a>,
    sites: &Sites<'_, '_, 'a>,
    name: NameAt<'a>,
) -> Result<Option<Meant<'a>>, NoMemory> {
    let offset = name.span.first;
    let mut meanings = Meanings {
        list: Vec::new(alloc),
    };
    let expressions = sites.expressions.as_slice();
    match expressions.iter().find(|site| encloses(site.part, offset)) {
        Some(site) => meanings.add_site(placed, site, offset)?,
        None => meanings.add_variables(placed, Position::End)?,
    }
    nearest(alloc, name.text, &meanings.list)
}

//! The expressions of a program, and the names that are set or decided.

use crate::layout::{AssignmentPlace, BlockPlace, NameAt};
use crate::scope::{Fields, Placed, Position};
use crate::wants::Wants;
use round_lang::{Assignment, Block, Expr, Formula, Identifier, Token, Ty, Variable, VariableKind};
use run_events::NoMemory;
use std::alloc::Global;

/// An expression, where it stands, and of which type it has to be, if that's known.
#[derive(Clone, Copy)]
pub(crate) struct Site<'p, 't, 'a> {
    pub(crate) expr: &'p Expr,
    pub(crate) part: &'t [Token<'a>],
    pub(crate) position: Position,
    /// Its block's fields; none for a variable's first value.
    pub(crate) fields: Option<Fields<'p, 'a>>,
    pub(crate) wanted: Option<(Ty, Wants<'a>)>,
}

/// A name that an assignment sets, or that `decide` names.
#[derive(Clone, Copy)]
pub(crate) struct Target<'p, 'a> {
    pub(crate) name: &'p Identifier,
    pub(crate) place: NameAt<'a>,
}

/// All of a program.
#[derive(Drop)]
pub(crate) struct Sites<'p, 't, 'a> {
    pub(crate) expressions: Vec<Site<'p, 't, 'a>>,
    pub(crate) targets: Vec<Target<'p, 'a>>,
}

/// A block, and where it stands.
#[derive(Clone, Copy)]
struct PlacedBlock<'p, 't, 'a> {
    block: &'p Block,
    place: &'p BlockPlace<'t, 'a>,
    fields: Fields<'p, 'a>,
}

impl<'p, 't, 'a> Sites<'p, 't, 'a> {
    pub(crate) fn new(
        alloc: Global,
        placed: &Placed<'p, 't, 'a>,
    ) -> Result<Sites<'p, 't, 'a>, NoMemory> {
        let mut sites = Sites {
            expressions: Vec::new(alloc),
            targets: Vec::new(alloc),
        };
        sites.add_starts(placed)?;
        let decides = placed.program.decides().iter();
        for (name, place) in decides.zip(&placed.layout.decides) {
            sites.targets.push(Target {
                name,
                place: *place,
            })?;
        }
        let blocks = placed.program.blocks().iter().zip(&placed.layout.blocks);
        for (block, place) in blocks {
            let fields = Fields::of(block, place);
            let at = PlacedBlock {
                block,
                place,
                fields,
            };
            sites.add_block(placed, &at)?;
        }
        Ok(sites)
    }

    /// Adds the variables' first values.
    fn add_starts(&mut self, placed: &Placed<'p, 't, 'a>) -> Result<(), NoMemory> {
        let variables: &'p [Variable] = placed.program.variables();
        for (variable, place) in variables.iter().zip(&placed.layout.variables) {
            if let VariableKind::State { ty, start } = &variable.kind {
                self.expressions.push(Site {
                    expr: start.expr(),
                    part: place.start,
                    position: Position::Start,
                    fields: None,
                    wanted: Some((*ty, Wants::Declaration(place.name))),
                })?;
            }
        }
        Ok(())
    }

    fn add_block(
        &mut self,
        placed: &Placed<'p, 't, 'a>,
        at: &PlacedBlock<'p, 't, 'a>,
    ) -> Result<(), NoMemory> {
        self.expressions.push(Site {
            expr: at.block.condition().expr(),
            part: at.place.condition,
            position: Position::Send,
            fields: Some(at.fields),
            wanted: Some((Ty::Bool, Wants::SendWhen)),
        })?;
        self.add_sent(at)?;
        let on_message = at.block.on_message().iter();
        for (assignment, place) in on_message.zip(&at.place.on_message) {
            self.add_assignment(placed, assignment, place, Position::OnMessage, at.fields)?;
        }
        for (assignment, place) in at.block.end().iter().zip(&at.place.end) {
            self.add_assignment(placed, assignment, place, Position::End, at.fields)?;
        }
        Ok(())
    }

    /// Adds what a block sends.
    fn add_sent(&mut self, at: &PlacedBlock<'p, 't, 'a>) -> Result<(), NoMemory> {
        let sent: &'p [Formula] = at.block.sent();
        for (number, (formula, part)) in sent.iter().zip(&at.place.sent).enumerate() {
            self.expressions.push(Site {
                expr: formula.expr(),
                part,
                position: Position::Send,
                fields: Some(at.fields),
                wanted: at.fields.wanted(number),
            })?;
        }
        Ok(())
    }

    fn add_assignment(
        &mut self,
        placed: &Placed<'p, 't, 'a>,
        assignment: &'p Assignment,
        place: &AssignmentPlace<'t, 'a>,
        position: Position,
        fields: Fields<'p, 'a>,
    ) -> Result<(), NoMemory> {
        self.targets.push(Target {
            name: &assignment.target,
            place: place.target,
        })?;
        self.expressions.push(Site {
            expr: assignment.formula.expr(),
            part: place.formula,
            position,
            fields: Some(fields),
            wanted: placed.wanted(&assignment.target),
        })?;
        Ok(())
    }
}

//! A program in which EXPR stands, so that the place of its fault is found as that of a program's.
use round_lang::{Block, Program, Ty, Variable, VariableKind};
use std::fmt;

/// The text of a program that declares what another one does and has EXPR in its first `end:`, as
/// the condition of an `if`, up to EXPR.
#[derive(Clone, Copy)]
pub(crate) struct BeforeCondition<'a>(pub &'a Program);

impl fmt::Display for BeforeCondition<'_> {
    fn fmt<W: fmt::Write>(&self, f: &mut fmt::Formatter<W>) -> fmt::Result {
        let program = self.0;
        writeln!(f, "values {} period {}", program.values(), program.period())?;
        for variable in program.variables() {
            write_variable(variable, f)?;
        }
        for decided in program.decides() {
            writeln!(f, "decide {}", decided.as_str())?;
        }
        if let Some(first) = program.blocks().first() {
            write_block(first, f)?;
        }
        if let Some(decided) = program.decides().first() {
            writeln!(f, "{} := if (", decided.as_str())?;
        }
        Ok(())
    }
}

/// The rest of that text. It begins on a new line, since EXPR may end with a comment.
#[derive(Clone, Copy)]
pub(crate) struct AfterCondition<'a>(pub &'a Program);

impl fmt::Display for AfterCondition<'_> {
    fn fmt<W: fmt::Write>(&self, f: &mut fmt::Formatter<W>) -> fmt::Result {
        let program = self.0;
        if let Some(decided) = program.decides().first() {
            let name = decided.as_str();
            writeln!(f, "\n) then {name} else {name};")?;
        }
        for block in program.blocks().iter().skip(1) {
            write_block(block, f)?;
        }
        Ok(())
    }
}

fn write_variable<W: fmt::Write>(variable: &Variable, f: &mut fmt::Formatter<W>) -> fmt::Result {
    let name = variable.name.as_str();
    match &variable.kind {
        VariableKind::Input => writeln!(f, "input {name}"),
        VariableKind::State { ty, .. } => {
            writeln!(f, "state {name}: {} = {}", name_of(*ty), least_of(*ty))
        }
    }
}

/// A block that sends nothing, up to what its `end:` does.
fn write_block<W: fmt::Write>(block: &Block, f: &mut fmt::Formatter<W>) -> fmt::Result {
    write!(f, "at {}: message (", block.number())?;
    for (place, field) in block.fields().iter().enumerate() {
        let comma = comma_before(place);
        write!(f, "{comma}{}: {}", field.name.as_str(), name_of(field.ty))?;
    }
    write!(f, ") send when false: (")?;
    for (place, field) in block.fields().iter().enumerate() {
        write!(f, "{}{}", comma_before(place), least_of(field.ty))?;
    }
    writeln!(f, ") on message: end:")
}

fn comma_before(place: usize) -> &'static str {
    if place == 0 { "" } else { ", " }
}

/// The word for a type.
pub(crate) fn name_of(ty: Ty) -> &'static str {
    match ty {
        Ty::Num => "num",
        Ty::Bool => "bool",
        Ty::Set => "set",
        Ty::Row => "row",
    }
}

/// An expression of a type.
fn least_of(ty: Ty) -> &'static str {
    match ty {
        Ty::Num => "0",
        Ty::Bool => "false",
        Ty::Set => "empty",
        Ty::Row => "zero",
    }
}

//! Which programs, and which of their parts, are the same, and which values and setups.
use crate::acts::Answers;
use crate::equality::{
    are_one_assignments, are_one_fields, are_one_variables, is_one_program, is_one_setup,
    is_one_value,
};
use crate::reading::{setup_in, value};
use crate::showing::show_same;
use round_check::{CheckFault, Checked, check};
use round_lang::{Block, Program, Shape, Value, Vars, VarsBuilder, parse};
use round_meaning::Setup;
use std::alloc::{AllocError, Global};
use test_kit::{Fault, cut_pair};

/// A part that differs is named.
fn name_other(out: &mut String, part: &str, is_same: bool) -> Result<(), AllocError> {
    if is_same { Ok(()) } else { out.push_str(part) }
}

fn name_other_blocks(out: &mut String, one: &Block, other: &Block) -> Result<(), AllocError> {
    name_other(out, " block", one == other)?;
    name_other(out, " at", one.number() == other.number())?;
    name_other(out, " fields", are_one_fields(one.fields(), other.fields()))?;
    name_other(out, " condition", one.condition() == other.condition())?;
    name_other(out, " sent", one.sent() == other.sent())?;
    name_other(
        out,
        " message",
        are_one_assignments(one.on_message(), other.on_message()),
    )?;
    name_other(out, " end", one.end() == other.end())
}

fn name_other_declarations(
    out: &mut String,
    one: &Program,
    other: &Program,
) -> Result<(), AllocError> {
    name_other(out, " values", one.values() == other.values())?;
    name_other(out, " period", one.period() == other.period())?;
    name_other(
        out,
        " variables",
        are_one_variables(one.variables(), other.variables()),
    )?;
    name_other(out, " decide", one.decides() == other.decides())
}

/// Whether two programs are one by `same` and by `==`, and which of their parts differ.
fn show_programs(out: &mut String, one: &Program, other: &Program) -> Result<(), AllocError> {
    show_same(out, "program", one.same(other))?;
    show_same(out, "", one == other)?;
    name_other_declarations(out, one, other)?;
    for (one, other) in one.blocks().iter().zip(other.blocks()) {
        name_other_blocks(out, one, other)?;
    }
    Ok(())
}

/// The checked program, or none if a cause stands against it.
fn if_checked(alloc: Global, program: Program) -> Result<Option<Checked>, Fault> {
    match check(alloc, program) {
        Ok(checked) => Ok(Some(checked)),
        Err(CheckFault::NoMemory) => Err(Fault::NoMemory),
        Err(_) => Ok(None),
    }
}

/// Whether two checked programs are one, of which the first is copied.
fn show_checked(out: &mut String, one: &Checked, other: &Checked) -> Result<(), Fault> {
    show_same(out, " checked", is_one_program(one, other))?;
    show_same(out, "", one.copy()? == *other)?;
    Ok(())
}

/// Compares the programs that two texts are.
fn show_texts(alloc: Global, one: &str, other: &str, out: &mut String) -> Result<(), Fault> {
    let one = parse(alloc, one)?;
    let other = parse(alloc, other)?;
    show_programs(out, &one, &other)?;
    match (if_checked(alloc, one)?, if_checked(alloc, other)?) {
        (Some(one), Some(other)) => show_checked(out, &one, &other),
        _ => Ok(()),
    }
}

/// Compares a program with others, each of which an act makes: `values 2 | values 3` puts the
/// second text in the place of the first.
#[derive(Clone, Copy)]
pub struct Changes<'a> {
    pub text: &'a str,
}

impl<'a> Answers for Changes<'a> {
    fn answer(&mut self, alloc: Global, act: &str, out: &mut String) -> Result<(), Fault> {
        let (old, new) = cut_pair(act)?;
        let (before, after) = self.text.split_once(old).ok_or(Fault::Unreadable)?;
        let other = format!(in alloc; "{before}{new}{after}")?;
        show_texts(alloc, self.text, other.as_str(), out)
    }
}

/// A state of one value.
fn state(alloc: Global, value: &Value) -> Result<Vars, Fault> {
    let mut builder = VarsBuilder::new(alloc);
    builder.push(value)?;
    Ok(builder.finish(&Shape::empty())?)
}

fn show_states(alloc: Global, out: &mut String, one: &Value, other: &Value) -> Result<(), Fault> {
    let one = state(alloc, one)?;
    let other = state(alloc, other)?;
    show_same(out, " state", one.same(&other))?;
    show_same(out, "", one == other)?;
    Ok(())
}

fn show_rows(out: &mut String, one: &Value, other: &Value) -> Result<(), Fault> {
    if let (Value::Row(one), Value::Row(other)) = (one, other) {
        show_same(out, " row", one.copy()? == *other)?;
    }
    Ok(())
}

fn show_values(alloc: Global, out: &mut String, one: &Value, other: &Value) -> Result<(), Fault> {
    show_same(out, "value", one.same(other))?;
    show_same(out, "", is_one_value(one, other))?;
    show_states(alloc, out, one, other)?;
    show_rows(out, one, other)
}

/// Compares two values, of which the first is copied, states of one of them, and rows.
pub fn pair(alloc: Global, act: &str, out: &mut String) -> Result<(), Fault> {
    let (one, other) = cut_pair(act)?;
    let one = value(alloc, one)?.copy()?;
    let other = value(alloc, other)?;
    show_values(alloc, out, &one, &other)
}

fn show_setups(out: &mut String, one: &Setup, other: &Setup) -> Result<(), Fault> {
    show_same(out, "setup", one.same(&other.copy()?))?;
    show_same(out, "", is_one_setup(one, other))?;
    show_same(out, " inputs", one.inputs == other.inputs)?;
    Ok(())
}

/// Compares two setups.
pub fn setups(alloc: Global, act: &str, out: &mut String) -> Result<(), Fault> {
    let (one, other) = cut_pair(act)?;
    show_setups(out, &setup_in(alloc, one)?, &setup_in(alloc, other)?)
}

//! What a program says, with its expressions as trees.
use crate::trees::write_tree;
use round_lang::{Assignment, Block, Program, Variable, VariableKind, parse};
use std::alloc::{AllocError, Global};
use test_kit::Fault;

/// How many columns a line has at most.
const WIDTH: usize = 92;

fn write_variable(out: &mut String, variable: &Variable) -> Result<(), AllocError> {
    let name = variable.name.as_str();
    match &variable.kind {
        VariableKind::Input => write!(out, "input {name}; "),
        VariableKind::State { ty, start } => {
            write!(out, "state {name}: {ty:?} = ")?;
            write_tree(out, start.expr())?;
            out.push_str("; ")
        }
    }
}

fn write_assignments(out: &mut String, assignments: &[Assignment]) -> Result<(), AllocError> {
    for assignment in assignments {
        write!(out, " {} := ", assignment.target.as_str())?;
        write_tree(out, assignment.formula.expr())?;
        out.push_str(";")?;
    }
    Ok(())
}

fn write_message(out: &mut String, block: &Block) -> Result<(), AllocError> {
    write!(out, "at {}: message", block.number())?;
    for field in block.fields() {
        write!(out, " {}: {:?}", field.name.as_str(), field.ty)?;
    }
    out.push_str(" when ")?;
    write_tree(out, block.condition().expr())
}

fn write_sent(out: &mut String, block: &Block) -> Result<(), AllocError> {
    out.push_str(" sent")?;
    for formula in block.sent() {
        out.push_str(" ")?;
        write_tree(out, formula.expr())?;
    }
    Ok(())
}

fn write_block(out: &mut String, block: &Block) -> Result<(), AllocError> {
    write_message(out, block)?;
    write_sent(out, block)?;
    out.push_str("; on message")?;
    write_assignments(out, block.on_message())?;
    out.push_str(" end")?;
    write_assignments(out, block.end())
}

/// A program without its blocks.
fn write_declared(out: &mut String, program: &Program) -> Result<(), AllocError> {
    write!(
        out,
        "values {} period {} ",
        program.values(),
        program.period()
    )?;
    for variable in program.variables() {
        write_variable(out, variable)?;
    }
    out.push_str("decide")?;
    for name in program.decides() {
        write!(out, " {}", name.as_str())?;
    }
    Ok(())
}

/// A text as lines: a word that finds no room in one begins the next, behind four blanks.
fn write_folded(out: &mut String, text: &str) -> Result<(), AllocError> {
    let mut column = 0usize;
    for word in text.split(' ') {
        let after = column.saturating_add(word.len()).saturating_add(1);
        let is_next = after > WIDTH;
        out.push_str(gap(column, is_next))?;
        out.push_str(word)?;
        column = if is_next { word.len() } else { after };
    }
    out.push_str("\n")
}

/// What stands before a word.
fn gap(column: usize, is_next: bool) -> &'static str {
    if is_next {
        "\n    "
    } else if column == 0 {
        ""
    } else {
        " "
    }
}

fn write_block_lines(alloc: Global, block: &Block, out: &mut String) -> Result<(), AllocError> {
    let mut text = String::new(alloc);
    write_block(&mut text, block)?;
    write_folded(out, text.as_str())
}

/// The lines of what stands before the blocks, and those of each block.
pub fn write_parts(alloc: Global, text: &str, out: &mut String) -> Result<(), Fault> {
    let program = parse(alloc, text)?;
    let mut declared = String::new(alloc);
    write_declared(&mut declared, &program)?;
    write_folded(out, declared.as_str())?;
    for block in program.blocks() {
        write_block_lines(alloc, block, out)?;
    }
    Ok(())
}

//! What a checked program tells.
use crate::reading::checked_of;
use round_check::Checked;
use round_lang::Shape;
use round_meaning::is_broadcast;
use std::alloc::{AllocError, Global};
use test_kit::Fault;

fn write_shape(out: &mut String, shape: &Shape) -> Result<(), AllocError> {
    for kind in shape.kinds() {
        write!(out, " {kind:?}")?;
    }
    out.push_str("\n")
}

fn write_names(out: &mut String, checked: &Checked) -> Result<(), AllocError> {
    let input = checked.input().as_str();
    let decided = checked.decided().as_str();
    writeln!(out, "values {}", checked.program().values())?;
    writeln!(out, "input {input}")?;
    writeln!(out, "decided {decided}")
}

/// The kinds of a block's message, of no block `none`.
fn write_message(out: &mut String, checked: &Checked, block: usize) -> Result<(), AllocError> {
    write!(out, "message {block}")?;
    match checked.message_shape(block) {
        Some(shape) => write_shape(out, shape),
        None => out.push_str(" none\n"),
    }
}

/// Whether a node sends the same to all in a round.
fn write_sending(out: &mut String, checked: &Checked, round: u32) -> Result<(), AllocError> {
    let is_to_all = is_broadcast(checked, round);
    let to = if is_to_all { "all" } else { "each its own" };
    writeln!(out, "round {round} to {to}")
}

fn write_rounds(out: &mut String, checked: &Checked) -> Result<(), AllocError> {
    for round in 1..checked.program().period() + 1 {
        write_sending(out, checked, round)?;
    }
    Ok(())
}

/// The kinds of the state and of each message; there is none behind the last block.
fn write_kinds(out: &mut String, checked: &Checked) -> Result<(), AllocError> {
    out.push_str("state")?;
    write_shape(out, checked.state_shape())?;
    let blocks = checked.program().blocks().len();
    for block in 0..blocks {
        write_message(out, checked, block)?;
    }
    write_message(out, checked, blocks)
}

/// All that a checked program tells.
fn write_told(out: &mut String, checked: &Checked) -> Result<(), AllocError> {
    write_names(out, checked)?;
    write_kinds(out, checked)?;
    write_rounds(out, checked)
}

/// Whether a checked program is its copy, and what the copy tells.
pub fn write_checked(alloc: Global, text: &str, out: &mut String) -> Result<(), Fault> {
    let checked = checked_of(alloc, text)?;
    let copy = checked.copy()?;
    copy.typed();
    out.push_str(if copy == checked {
        "copy same\n"
    } else {
        "copy different\n"
    })?;
    Ok(write_told(out, &copy)?)
}

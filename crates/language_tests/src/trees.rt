//! Expressions and their trees.
use round_lang::{Expr, VariableKind, parse};
use std::alloc::{AllocError, Global};
use test_kit::Fault;

/// What stands before an expression in the text of a program.
const BEFORE: &str = "values 2 period 1 state s: num = ";

/// The tree, each form with its parts in round brackets.
pub fn write_tree(out: &mut String, expr: &Expr) -> Result<(), AllocError> {
    match expr {
        Expr::Number(number) => return write!(out, "{number}"),
        Expr::Fixed(constant) => return write!(out, "{constant:?}"),
        Expr::Named(name) => return out.push_str(name.as_str()),
        Expr::Unary(operator, a) => {
            write!(out, "{operator:?}(")?;
            write_tree(out, a)?;
        }
        Expr::Binary(operator, a, b) => {
            write!(out, "{operator:?}(")?;
            write_tree(out, a)?;
            out.push_str(" ")?;
            write_tree(out, b)?;
        }
        Expr::If(c, a, b) => {
            out.push_str("If(")?;
            write_tree(out, c)?;
            out.push_str(" ")?;
            write_tree(out, a)?;
            out.push_str(" ")?;
            write_tree(out, b)?;
        }
        Expr::SetOf(name, a) => {
            write!(out, "SetOf({}", name.as_str())?;
            out.push_str(" ")?;
            write_tree(out, a)?;
        }
        Expr::RowOf(name, a) => {
            write!(out, "RowOf({}", name.as_str())?;
            out.push_str(" ")?;
            write_tree(out, a)?;
        }
    }
    out.push_str(")")
}

/// The tree of the expression that an act is.
pub fn tree(alloc: Global, act: &str, out: &mut String) -> Result<(), Fault> {
    let text = format!(in alloc; "{BEFORE}{act}")?;
    let program = parse(alloc, text.as_str())?;
    for variable in program.variables() {
        if let VariableKind::State { start, .. } = &variable.kind {
            write_tree(out, start.expr())?;
        }
    }
    Ok(())
}

//! Names and expressions that are made by hand, within their limits and past them.
use crate::showing::show_yes;
use round_lang::{BinaryOperator, Constant, Expr, Formula, Identifier, UnaryOperator};
use std::alloc::Global;
use test_kit::{Fault, cut, number};

fn name_of(alloc: Global, text: &str) -> Result<Option<Identifier>, Fault> {
    Ok(Identifier::new(String::from_str(alloc, text)?))
}

/// Whether the act is a name.
pub fn name(alloc: Global, act: &str, out: &mut String) -> Result<(), Fault> {
    let name = name_of(alloc, act)?;
    Ok(show_yes(out, name.is_some())?)
}

/// `not .. not true`, which nests so deep.
fn nots(alloc: Global, depth: u32) -> Result<Expr, Fault> {
    let mut expr = Expr::Fixed(Constant::True);
    for _ in 1..depth {
        expr = Expr::Unary(UnaryOperator::Not, Box::new(alloc, expr)?);
    }
    Ok(expr)
}

fn choice(place: &str, part: Box<Expr>, one: Box<Expr>, other: Box<Expr>) -> Expr {
    match place {
        "condition" => Expr::If(part, one, other),
        "then" => Expr::If(one, part, other),
        _ => Expr::If(one, other, part),
    }
}

/// An expression at a place of the form that has three parts.
fn in_choice(alloc: Global, place: &str, part: Expr) -> Result<Expr, Fault> {
    let part = Box::new(alloc, part)?;
    let one = Box::new(alloc, Expr::Number(1))?;
    let other = Box::new(alloc, Expr::Number(2))?;
    Ok(choice(place, part, one, other))
}

fn in_operator(alloc: Global, place: &str, part: Expr) -> Result<Expr, Fault> {
    let part = Box::new(alloc, part)?;
    let one = Box::new(alloc, Expr::Number(1))?;
    Ok(match place {
        "left" => Expr::Binary(BinaryOperator::Has, part, one),
        _ => Expr::Binary(BinaryOperator::Has, one, part),
    })
}

fn in_comprehension(alloc: Global, place: &str, part: Expr) -> Result<Expr, Fault> {
    let name = name_of(alloc, "v")?.ok_or(Fault::Unreadable)?;
    let part = Box::new(alloc, part)?;
    Ok(match place {
        "set" => Expr::SetOf(name, part),
        _ => Expr::RowOf(name, part),
    })
}

/// An expression at each place where a form has a part.
fn around(alloc: Global, place: &str, part: Expr) -> Result<Expr, Fault> {
    match place {
        "alone" => Ok(part),
        "condition" | "then" | "else" => in_choice(alloc, place, part),
        "left" | "right" => in_operator(alloc, place, part),
        "set" | "row" => in_comprehension(alloc, place, part),
        _ => Err(Fault::Unreadable),
    }
}

/// Whether an expression of so many levels may stand at a place, as `then 31`.
pub fn nest(alloc: Global, act: &str, out: &mut String) -> Result<(), Fault> {
    let (place, depth) = cut(act);
    let expr = around(alloc, place, nots(alloc, number(depth)?)?)?;
    Ok(show_yes(out, Formula::new(expr).is_some())?)
}

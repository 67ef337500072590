//! Expressions of parts that are there already: what takes memory is the place of each part.
ghost use Rattle.std.specs.Prelude.{◌≡◌, IfOk};
ghost use Rattle.round_lang.specs.Tree.{TBinary, TIf, TRowOf, TSetOf, TUnary, tree_of};

use crate::expr::{BinaryOperator, Expr, UnaryOperator};
use crate::identifier::Identifier;
use run_events::NoMemory;
use std::alloc::Global;

pub(crate) fn unary(alloc: Global, operator: UnaryOperator, operand: Expr) -> Result<Expr, NoMemory>
    ensures { IfOk result (λ e. tree_of e ≡ TUnary operator (tree_of operand)) }
{
    Ok(Expr::Unary(operator, Box::new(alloc, operand)?))
}

pub(crate) fn binary(
    alloc: Global,
    operator: BinaryOperator,
    left: Expr,
    right: Expr,
) -> Result<Expr, NoMemory>
    ensures { IfOk result (λ e. tree_of e ≡ TBinary operator (tree_of left) (tree_of right)) }
{
    let left = Box::new(alloc, left)?;
    let right = Box::new(alloc, right)?;
    Ok(Expr::Binary(operator, left, right))
}

/// `if condition then one else other`.
pub(crate) fn choice(
    alloc: Global,
    condition: Expr,
    one: Expr,
    other: Expr,
) -> Result<Expr, NoMemory>
    ensures { IfOk result (λ e. tree_of e ≡ TIf (tree_of condition) (tree_of one) (tree_of other)) }
{
    let condition = Box::new(alloc, condition)?;
    let one = Box::new(alloc, one)?;
    let other = Box::new(alloc, other)?;
    Ok(Expr::If(condition, one, other))
}

/// `{name : body}`.
pub(crate) fn set_of(alloc: Global, name: Identifier, body: Expr) -> Result<Expr, NoMemory>
    ensures { IfOk result (λ e. tree_of e ≡ TSetOf name (tree_of body)) }
{
    let body = Box::new(alloc, body)?;
    Ok(Expr::SetOf(name, body))
}

/// `[name : body]`.
pub(crate) fn row_of(alloc: Global, name: Identifier, body: Expr) -> Result<Expr, NoMemory>
    ensures { IfOk result (λ e. tree_of e ≡ TRowOf name (tree_of body)) }
{
    let body = Box::new(alloc, body)?;
    Ok(Expr::RowOf(name, body))
}

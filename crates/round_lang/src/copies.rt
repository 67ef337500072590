//! Copies and comparisons of syntax trees, which compare trees and not where they lie.
ghost use Rattle.std.specs.Prelude.{◌≡◌, IfOk, IsTrue, ◌↔◌};
ghost use Rattle.round_lang.specs.Tree.{tree_of};

use crate::building::{binary, choice, row_of, set_of, unary};
use crate::expr::Expr;
use run_events::NoMemory;
use std::alloc::Global;

/// A copy with the same tree.
pub(crate) fn copy(alloc: Global, expr: &Expr) -> Result<Expr, NoMemory>
    ensures { IfOk result (λ c. tree_of c ≡ tree_of expr.now) }
{
    match expr {
        Expr::Number(n) => Ok(Expr::Number(*n)),
        Expr::Fixed(constant) => Ok(Expr::Fixed(*constant)),
        Expr::Named(name) => Ok(Expr::Named(name.copy()?)),
        Expr::Unary(operator, a) => unary(alloc, *operator, copy(alloc, a)?),
        Expr::Binary(operator, a, b) => {
            let a = copy(alloc, a)?;
            binary(alloc, *operator, a, copy(alloc, b)?)
        }
        Expr::If(c, a, b) => {
            let c = copy(alloc, c)?;
            let a = copy(alloc, a)?;
            choice(alloc, c, a, copy(alloc, b)?)
        }
        Expr::SetOf(name, body) => {
            let body = copy(alloc, body)?;
            set_of(alloc, name.copy()?, body)
        }
        Expr::RowOf(name, body) => {
            let body = copy(alloc, body)?;
            row_of(alloc, name.copy()?, body)
        }
    }
}

/// Whether two expressions are one tree.
pub(crate) fn same(one: &Expr, other: &Expr) -> bool
    ensures { IsTrue result ↔ (tree_of one.now ≡ tree_of other.now) }
{
    match (one, other) {
        (Expr::Number(m), Expr::Number(n)) => *m == *n,
        (Expr::Fixed(c), Expr::Fixed(d)) => *c == *d,
        (Expr::Named(x), Expr::Named(y)) => x.same(y),
        (Expr::Unary(f, a), Expr::Unary(g, b)) => *f == *g && same(a, b),
        (Expr::Binary(f, a, b), Expr::Binary(g, c, d)) => *f == *g && same(a, c) && same(b, d),
        (Expr::If(c, a, b), Expr::If(d, e, f)) => same(c, d) && same(a, e) && same(b, f),
        (Expr::SetOf(x, a), Expr::SetOf(y, b)) => x.same(y) && same(a, b),
        (Expr::RowOf(x, a), Expr::RowOf(y, b)) => x.same(y) && same(a, b),
        _ => false,
    }
}

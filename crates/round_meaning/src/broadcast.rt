//! When all nodes are sent the same.
ghost use Rattle.std.specs.Prelude.{◌≡◌, IsTrue, not};
ghost use Rattle.round_lang.specs.Tree.{tree_of};
ghost use Rattle.round_meaning.specs.Broadcast.{IsBroadcast, any_names_dest, names_dest};
ghost use Rattle.round_meaning.specs.Broadcast.{sends_by_dest};
ghost use Rattle.round_meaning.specs.Rounds.{algorithm_of};
ghost use Rattle.round_meaning.specs.Turn.{block_at};
ghost use Rattle.round_meaning.specs.declared.setup.Setup.{Setup};

use crate::turn::block_at;
use round_check::Checked;
use round_lang::{Constant, Expr, Formula, Program};

/// Whether a node sends the same to all in a round, as its text shows: `dest` doesn't stand in what
/// the round's block says of sending.
pub fn is_broadcast(program: &Checked, round: u32) -> bool
    ensures text { result ≡ not (sends_by_dest (block_at program.now round)) }
    ensures broadcast { IsTrue result
        → (s : Setup) → IsBroadcast (algorithm_of program.now s) round }
{
    !sends_by_dest(program.program(), round)
}

fn sends_by_dest(program: &Program, round: u32) -> bool
    ensures { result ≡ sends_by_dest (block_at program.now round) }
{
    match block_at(program, round) {
        Some(block) => names_dest(block.condition().expr()) || any_names_dest(block.sent()),
        None => false,
    }
}

fn any_names_dest(formulas: &[Formula]) -> bool
    ensures { result ≡ any_names_dest formulas.now }
{
    match formulas {
        [] => false,
        [first, rest @ ..] => names_dest(first.expr()) || any_names_dest(rest),
    }
}

fn names_dest(expr: &Expr) -> bool
    ensures { result ≡ names_dest (tree_of expr.now) }
{
    match expr {
        Expr::Number(_) | Expr::Named(_) => false,
        Expr::Fixed(constant) => *constant == Constant::Dest,
        Expr::Unary(_, a) => names_dest(a),
        Expr::Binary(_, a, b) => names_dest(a) || names_dest(b),
        Expr::If(condition, a, b) => names_dest(condition) || names_dest(a) || names_dest(b),
        Expr::SetOf(_, body) => names_dest(body),
        Expr::RowOf(_, body) => names_dest(body),
    }
}

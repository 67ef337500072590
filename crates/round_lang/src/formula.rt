//! An expression, seen by contracts as its tree.
ghost use Rattle.std.specs.Prelude.{◌≡◌, ◌≤◌, ◌<◌, ◌+◌, ◌↔◌, IfNone, IfOk, IfSome, IsTrue, SomeIff};
ghost use Rattle.round_lang.specs.Limits.{max_nesting, max_text};
ghost use Rattle.round_lang.specs.Tree.{least_words, nesting, tree_of};

use crate::copies::{copy, same};
use crate::expr::Expr;
use crate::limits::{MAX_NESTING, MAX_TEXT};
use run_events::NoMemory;
use std::alloc::Global;
use std::marker::Model;

/// An expression of a program, which nests at most 32 deep and needs at most 65,536 words of text.
#[derive(Drop, Debug)]
pub struct Formula {
    expr: Expr,
}

impl Model for Formula {
    ghost use Rattle.std.specs.Prelude.{◌≤◌, List};
    ghost use Rattle.std.specs.Coded.{codes, code_by};
    ghost use Rattle.round_lang.specs.Limits.{max_nesting, max_text};
    ghost use Rattle.round_lang.specs.Tree.{Tree, least_words, nesting, tree_of};
    ghost use Rattle.round_lang.specs.TreeCode.{Word, words, tree_from, tree_back};

    ghost Value = { Tree };

    ghost coded = { code_by (List Word) (Prim.hlevel codes) words tree_from tree_back };

    ghost view = { λ f. tree_of f.expr };

    ghost invariant = { λ f. (nesting (tree_of f.expr) ≤ max_nesting)
        × (least_words (tree_of f.expr) ≤ max_text) };
}

impl Formula {
    /// The expression, if it is within the limits.
    pub fn new(expr: Expr) -> Option<Formula>
        ensures { SomeIff result
            ((nesting (tree_of expr) ≤ max_nesting) × (least_words (tree_of expr) ≤ max_text))
            (tree_of expr) }
    {
        if nests_within(&expr, MAX_NESTING) && needs_within(&expr, MAX_TEXT) {
            Some(Formula { expr })
        } else {
            None
        }
    }

    /// The expression, which is known to be within the limits.
    pub(crate) fn known(expr: Expr) -> Formula
        requires shallow { nesting (tree_of expr) ≤ max_nesting }
        requires short { least_words (tree_of expr) ≤ max_text }
        ensures { result ≡ tree_of expr }
    {
        Formula { expr }
    }

    pub fn expr(&self) -> &Expr
        ensures tree { tree_of result.now ≡ self.now }
        ensures shallow { nesting (tree_of result.now) ≤ max_nesting }
        ensures short { least_words (tree_of result.now) ≤ max_text }
    {
        &self.expr
    }

    pub fn copy(&self, alloc: Global) -> Result<Formula, NoMemory>
        ensures { IfOk result (λ f. f ≡ self.now) }
    {
        Ok(Formula {
            expr: copy(alloc, &self.expr)?,
        })
    }

    /// Whether both are one tree.
    pub fn same(&self, other: &Formula) -> bool
        ensures { IsTrue result ↔ (self.now ≡ other.now) }
    {
        same(&self.expr, &other.expr)
    }
}

/// Whether the expression nests at most so deep. It looks at no part that lies deeper, so that it
/// needs little stack whatever it's given.
fn nests_within(expr: &Expr, depth: usize) -> bool
    ensures { IsTrue result ↔ (nesting (tree_of expr.now) ≤ depth) }
{
    if depth == 0 {
        return false;
    }
    let inner = depth - 1;
    match expr {
        Expr::Number(_) => true,
        Expr::Fixed(_) => true,
        Expr::Named(_) => true,
        Expr::Unary(_, a) => nests_within(a, inner),
        Expr::Binary(_, a, b) => nests_within(a, inner) && nests_within(b, inner),
        Expr::If(c, a, b) => {
            nests_within(c, inner) && nests_within(a, inner) && nests_within(b, inner)
        }
        Expr::SetOf(_, body) => nests_within(body, inner),
        Expr::RowOf(_, body) => nests_within(body, inner),
    }
}

/// Whether the expression needs at most so many words of text.
fn needs_within(expr: &Expr, words: usize) -> bool
    ensures { IsTrue result ↔ (least_words (tree_of expr.now) ≤ words) }
{
    words_left(expr, words).is_some()
}

/// What the words of the expression leave of so many words, none if it has more. It looks at no
/// part once the words are used up.
fn words_left(expr: &Expr, words: usize) -> Option<usize>
    ensures some { IfSome result (λ left. left + least_words (tree_of expr.now) ≡ words) }
    ensures none { IfNone result (words < least_words (tree_of expr.now)) }
{
    match expr {
        Expr::Number(_) => words.checked_sub(1),
        Expr::Fixed(_) => words.checked_sub(1),
        Expr::Named(_) => words.checked_sub(1),
        Expr::Unary(_, a) => words_left(a, words.checked_sub(1)?),
        Expr::Binary(_, a, b) => {
            let left = words_left(a, words.checked_sub(1)?)?;
            words_left(b, left)
        }
        Expr::If(c, a, b) => {
            let left = words_left(c, words.checked_sub(3)?)?;
            let left = words_left(a, left)?;
            words_left(b, left)
        }
        Expr::SetOf(_, body) => words_left(body, words.checked_sub(4)?),
        Expr::RowOf(_, body) => words_left(body, words.checked_sub(4)?),
    }
}

/// Equal if both are one tree, wherever they lie.
impl PartialEq for Formula {
    ghost use Rattle.round_lang.specs.Equality.{is_same, is_same_per};
    ghost use Rattle.round_lang.specs.contracts.formula.Formula as formula;

    ghost eq = { is_same formula.the_row.coded };

    ghost laws = { is_same_per formula.the_row.coded };

    fn eq(&self, other: &Formula) -> bool {
        self.same(other)
    }
}

impl Eq for Formula {
    ghost use Rattle.round_lang.specs.Equality.{is_same_equiv};
    ghost use Rattle.round_lang.specs.contracts.formula.Formula as formula;

    ghost laws = { is_same_equiv formula.the_row.coded };
}

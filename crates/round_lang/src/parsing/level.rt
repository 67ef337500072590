//! The levels of expressions, each looser than the next.
ghost use Rattle.std.specs.Prelude.{◌≡◌};
ghost use Rattle.round_lang.specs.Grammar as grammar;
ghost use Rattle.round_lang.specs.Reading as reading;

use crate::expr::BinaryOperator;

/// A level of the grammar.
#[derive(Clone, Copy, PartialEq, Eq, Debug)]
pub(crate) enum Level {
    Whole,
    Disjunction,
    Conjunction,
    Negation,
    Comparison,
    Sum,
    Product,
    Postfix,
    Atom,
}

/// The level of what an operator of this level takes at its right.
pub(crate) fn tighter(level: Level) -> Level
    ensures { result ≡ grammar.tighter level }
{
    match level {
        Level::Whole => Level::Disjunction,
        Level::Disjunction => Level::Conjunction,
        Level::Conjunction => Level::Negation,
        Level::Negation => Level::Comparison,
        Level::Comparison => Level::Sum,
        Level::Sum => Level::Product,
        Level::Product => Level::Postfix,
        Level::Postfix => Level::Atom,
        Level::Atom => Level::Atom,
    }
}

/// The level of an operator that stands between its operands.
pub(crate) fn level_of(operator: BinaryOperator) -> Option<Level>
    ensures { result ≡ grammar.level_of operator }
{
    match operator {
        BinaryOperator::Or => Some(Level::Disjunction),
        BinaryOperator::And => Some(Level::Conjunction),
        BinaryOperator::Equal => Some(Level::Comparison),
        BinaryOperator::Differs => Some(Level::Comparison),
        BinaryOperator::Less => Some(Level::Comparison),
        BinaryOperator::AtMost => Some(Level::Comparison),
        BinaryOperator::More => Some(Level::Comparison),
        BinaryOperator::AtLeast => Some(Level::Comparison),
        BinaryOperator::Add => Some(Level::Sum),
        BinaryOperator::Sub => Some(Level::Sum),
        BinaryOperator::Union => Some(Level::Sum),
        BinaryOperator::Minus => Some(Level::Sum),
        BinaryOperator::Div => Some(Level::Product),
        BinaryOperator::Mod => Some(Level::Product),
        BinaryOperator::Inter => Some(Level::Product),
        BinaryOperator::Has => None,
        BinaryOperator::Entry => None,
    }
}

/// Whether two levels are the same.
#[tactic(auto, unfolding(crate::specs::Reading::same_level))]
pub(crate) fn is_level(a: Level, b: Level) -> bool
    ensures { result ≡ reading.same_level a b }
{
    a == b
}

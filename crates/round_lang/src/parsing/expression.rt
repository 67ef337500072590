//! Expressions, by recursive descent with one token of lookahead.
ghost use Rattle.std.specs.Prelude.{◌≡◌, ◌<◌, ◌≤◌, suc, IfOk, length};
ghost use Rattle.round_lang.specs.CodeTokens.{lexemes};
ghost use Rattle.round_lang.specs.Limits.{max_text};
ghost use Rattle.round_lang.specs.Outcome.{Gives, IsChainLevel, expr_found, left_of};
ghost use Rattle.round_lang.specs.Reading as reading;
ghost use Rattle.round_lang.specs.Tree.{TRowOf, TSetOf, tree_of};

use crate::building;
use crate::expr::{BinaryOperator, Expr, UnaryOperator};
use crate::formula::Formula;
use crate::identifier::Identifier;
use crate::limits::{MAX_NAME, MAX_NESTING, MAX_NUMBER};
use crate::name::Name;
use crate::parsing::cursor::{after, expect, name_at, number_at, operator_at, span_at};
use crate::parsing::fault::Fault;
use crate::parsing::level::{Level, tighter};
use crate::token::{Mark, Token, Word};
use run_events::NoMemory;
use std::alloc::Global;

/// What a parser carries along: its allocator, and the length of the text.
#[derive(Clone, Copy)]
pub(crate) struct Parser {
    pub alloc: Global,
    pub end: usize,
}

/// An expression, how deep it nests, and the tokens after it.
type Nested<'t, 'a> = Result<(Expr, usize, &'t [Token<'a>]), Fault>;

pub fn identifier(alloc: Global, name: Name<'_>) -> Result<Identifier, NoMemory>
    requires { length name.text.now ≤ MAX_NAME }
    ensures { IfOk result (λ x. x ≡ name.entry.text.now) }
{
    Ok(Identifier::known(String::from_str(alloc, name.text)?))
}

/// Reads the expression at the front that stands at the level and nests at most as deep as the
/// room.
#[cycle(expr)]
#[tactic(auto, unfolding(crate::specs::Reading::parse))]
pub(crate) fn read<'t, 'a>(
    parser: Parser,
    room: usize,
    level: Level,
    tokens: &'t [Token<'a>],
) -> Nested<'t, 'a>
    requires { room ≤ MAX_NESTING }
    ensures gives { Gives expr_found result (reading.parse room level (lexemes tokens.now)) }
    ensures nests { IfOk result (λ x. x.1 ≤ room) }
{
    if room == 0 {
        return Err(Fault::TooDeep);
    }
    at_level(parser, room - 1, level, tokens)
}

#[cycle(expr)]
fn at_level<'t, 'a>(
    parser: Parser,
    inner: usize,
    level: Level,
    tokens: &'t [Token<'a>],
) -> Nested<'t, 'a>
    requires { inner < MAX_NESTING }
    ensures gives { Gives expr_found result
        (reading.level_at (reading.parse inner) (suc inner) level (lexemes tokens.now)) }
    ensures nests { IfOk result (λ x. x.1 ≤ suc inner) }
{
    match level {
        Level::Whole => whole(parser, inner, tokens),
        Level::Negation => negation(parser, inner, tokens),
        Level::Comparison => comparison(parser, inner, tokens),
        Level::Postfix => postfix(parser, inner, tokens),
        Level::Atom => atom(parser, inner, tokens),
        Level::Disjunction => chain(parser, inner, Level::Disjunction, tokens),
        Level::Conjunction => chain(parser, inner, Level::Conjunction, tokens),
        Level::Sum => chain(parser, inner, Level::Sum, tokens),
        Level::Product => chain(parser, inner, Level::Product, tokens),
    }
}

/// An expression and the mark behind it.
#[cycle(expr)]
#[tactic(auto, unfolding(crate::specs::Reading::closed))]
fn closed<'t, 'a>(
    parser: Parser,
    inner: usize,
    mark: Mark,
    tokens: &'t [Token<'a>],
) -> Nested<'t, 'a>
    requires { inner < MAX_NESTING }
    ensures gives { Gives expr_found result
        (reading.closed (reading.parse inner) (suc inner) mark (lexemes tokens.now)) }
    ensures nests { IfOk result (λ x. x.1 ≤ inner) }
{
    let (expr, depth, rest) = read(parser, inner, Level::Whole, tokens)?;
    let rest = expect(parser.end, mark, rest)?;
    Ok((expr, depth, rest))
}

#[cycle(expr)]
#[tactic(auto, unfolding(crate::specs::Reading::chosen, crate::specs::Reading::choice))]
fn whole<'t, 'a>(parser: Parser, inner: usize, tokens: &'t [Token<'a>]) -> Nested<'t, 'a>
    requires { inner < MAX_NESTING }
    ensures gives { Gives expr_found result
        (reading.level_at (reading.parse inner) (suc inner) Level.Whole (lexemes tokens.now)) }
    ensures nests { IfOk result (λ x. x.1 ≤ suc inner) }
{
    match after(Mark::If, tokens) {
        None => at_level(parser, inner, Level::Disjunction, tokens),
        Some(rest) => {
            let (condition, depth, rest) = closed(parser, inner, Mark::Then, rest)?;
            let (one, one_depth, rest) = closed(parser, inner, Mark::Else, rest)?;
            let (other, other_depth, rest) = read(parser, inner, Level::Whole, rest)?;
            let depth = depth.max(one_depth.max(other_depth));
            Ok((
                building::choice(parser.alloc, condition, one, other)?,
                depth + 1,
                rest,
            ))
        }
    }
}

/// Operands of the next tighter level with operators of this one, which group from the left.
#[cycle(expr)]
fn chain<'t, 'a>(
    parser: Parser,
    inner: usize,
    level: Level,
    tokens: &'t [Token<'a>],
) -> Nested<'t, 'a>
    requires room { inner < MAX_NESTING }
    requires chain { IsChainLevel level }
    ensures gives { Gives expr_found result
        (reading.level_at (reading.parse inner) (suc inner) level (lexemes tokens.now)) }
    ensures nests { IfOk result (λ x. x.1 ≤ suc inner) }
{
    let (mut left, mut depth, mut rest) = at_level(parser, inner, tighter(level), tokens)?;
    while let Some((operator, operand)) = operator_at(level, rest) {
        if depth > inner {
            return Err(Fault::TooDeep);
        }
        let (right, right_depth, after) = read(parser, inner, tighter(level), operand)?;
        left = building::binary(parser.alloc, operator, left, right)?;
        depth = depth.max(right_depth) + 1;
        rest = after;
    }
    Ok((left, depth, rest))
}

#[cycle(expr)]
#[tactic(auto, unfolding(crate::specs::Reading::compared, crate::specs::Reading::operand))]
fn comparison<'t, 'a>(parser: Parser, inner: usize, tokens: &'t [Token<'a>]) -> Nested<'t, 'a>
    requires { inner < MAX_NESTING }
    ensures gives { Gives expr_found result
        (reading.level_at (reading.parse inner) (suc inner) Level.Comparison (lexemes tokens.now)) }
    ensures nests { IfOk result (λ x. x.1 ≤ suc inner) }
{
    let (left, depth, rest) = at_level(parser, inner, Level::Sum, tokens)?;
    match operator_at(Level::Comparison, rest) {
        None => Ok((left, depth, rest)),
        Some((operator, operand)) => {
            if depth > inner {
                return Err(Fault::TooDeep);
            }
            let (right, right_depth, rest) = read(parser, inner, Level::Sum, operand)?;
            let tree = building::binary(parser.alloc, operator, left, right)?;
            Ok((tree, depth.max(right_depth) + 1, rest))
        }
    }
}

#[cycle(expr)]
#[tactic(auto, unfolding(crate::specs::Reading::negations, crate::specs::Reading::negated))]
fn negation<'t, 'a>(parser: Parser, inner: usize, tokens: &'t [Token<'a>]) -> Nested<'t, 'a>
    requires { inner < MAX_NESTING }
    ensures gives { Gives expr_found result
        (reading.level_at (reading.parse inner) (suc inner) Level.Negation (lexemes tokens.now)) }
    ensures nests { IfOk result (λ x. x.1 ≤ suc inner) }
{
    match after(Mark::Not, tokens) {
        None => at_level(parser, inner, Level::Comparison, tokens),
        Some(rest) => {
            let (operand, depth, rest) = read(parser, inner, Level::Negation, rest)?;
            let tree = building::unary(parser.alloc, UnaryOperator::Not, operand)?;
            Ok((tree, depth + 1, rest))
        }
    }
}

#[cycle(expr)]
#[tactic(auto, unfolding(crate::specs::Reading::postfixed, crate::specs::Reading::indexed))]
fn postfix<'t, 'a>(parser: Parser, inner: usize, tokens: &'t [Token<'a>]) -> Nested<'t, 'a>
    requires { inner < MAX_NESTING }
    ensures gives { Gives expr_found result
        (reading.level_at (reading.parse inner) (suc inner) Level.Postfix (lexemes tokens.now)) }
    ensures nests { IfOk result (λ x. x.1 ≤ suc inner) }
{
    let (row, depth, rest) = at_level(parser, inner, Level::Atom, tokens)?;
    match after(Mark::OpenSquare, rest) {
        None => Ok((row, depth, rest)),
        Some(rest) => {
            if depth > inner {
                return Err(Fault::TooDeep);
            }
            let (place, place_depth, rest) = closed(parser, inner, Mark::CloseSquare, rest)?;
            let entry = building::binary(parser.alloc, BinaryOperator::Entry, row, place)?;
            Ok((entry, depth.max(place_depth) + 1, rest))
        }
    }
}

#[cycle(expr)]
#[tactic(auto, unfolding(crate::specs::Reading::atom))]
fn atom<'t, 'a>(parser: Parser, inner: usize, tokens: &'t [Token<'a>]) -> Nested<'t, 'a>
    requires { inner < MAX_NESTING }
    ensures gives { Gives expr_found result
        (reading.atom (reading.parse inner) (suc inner) (lexemes tokens.now)) }
    ensures nests { IfOk result (λ x. x.1 ≤ suc inner) }
{
    match tokens {
        [] => Err(Fault::Unexpected(span_at(parser.end, tokens))),
        [first, rest @ ..] => match first.word {
            Word::Name(_) => {
                let (name, rest) = name_at(parser.end, tokens)?;
                Ok((Expr::Named(identifier(parser.alloc, name)?), 1, rest))
            }
            Word::Number(_) => {
                let (number, rest) = number_at(parser.end, 0, MAX_NUMBER, tokens)?;
                Ok((Expr::Number(number), 1, rest))
            }
            Word::Fixed(constant) => Ok((Expr::Fixed(constant), 1, rest)),
            Word::Call(operator) => call(parser, inner, operator, rest),
            Word::Mark(Mark::Has) => has(parser, inner, rest),
            Word::Mark(Mark::Open) => brackets(parser, inner, rest),
            Word::Mark(Mark::OpenCurly) => set_of(parser, inner, rest),
            Word::Mark(Mark::OpenSquare) => row_of(parser, inner, rest),
            _ => Err(Fault::Unexpected(first.span)),
        },
    }
}

/// The rest of a call of one argument, behind its name.
#[cycle(expr)]
#[tactic(auto, unfolding(crate::specs::Reading::called))]
fn call<'t, 'a>(
    parser: Parser,
    inner: usize,
    operator: UnaryOperator,
    tokens: &'t [Token<'a>],
) -> Nested<'t, 'a>
    requires { inner < MAX_NESTING }
    ensures gives { Gives expr_found result
        (reading.called (reading.parse inner) (suc inner) operator (lexemes tokens.now)) }
    ensures nests { IfOk result (λ x. x.1 ≤ suc inner) }
{
    if inner == 0 {
        return Err(Fault::TooDeep);
    }
    let rest = expect(parser.end, Mark::Open, tokens)?;
    let (operand, depth, rest) = closed(parser, inner, Mark::Close, rest)?;
    let tree = building::unary(parser.alloc, operator, operand)?;
    Ok((tree, depth + 1, rest))
}

#[cycle(expr)]
#[tactic(auto, unfolding(crate::specs::Reading::has))]
fn has<'t, 'a>(parser: Parser, inner: usize, tokens: &'t [Token<'a>]) -> Nested<'t, 'a>
    requires { inner < MAX_NESTING }
    ensures gives { Gives expr_found result
        (reading.has (reading.parse inner) (suc inner) (lexemes tokens.now)) }
    ensures nests { IfOk result (λ x. x.1 ≤ suc inner) }
{
    if inner == 0 {
        return Err(Fault::TooDeep);
    }
    let rest = expect(parser.end, Mark::Open, tokens)?;
    let (set, set_depth, rest) = closed(parser, inner, Mark::Comma, rest)?;
    let (member, member_depth, rest) = closed(parser, inner, Mark::Close, rest)?;
    let tree = building::binary(parser.alloc, BinaryOperator::Has, set, member)?;
    Ok((tree, set_depth.max(member_depth) + 1, rest))
}

/// The rest of round brackets, which leave no trace in the tree.
#[cycle(expr)]
#[tactic(auto, unfolding(crate::specs::Reading::brackets))]
fn brackets<'t, 'a>(parser: Parser, inner: usize, tokens: &'t [Token<'a>]) -> Nested<'t, 'a>
    requires { inner < MAX_NESTING }
    ensures gives { Gives expr_found result
        (reading.brackets (reading.parse inner) (suc inner) (lexemes tokens.now)) }
    ensures nests { IfOk result (λ x. x.1 ≤ suc inner) }
{
    let (expr, depth, rest) = closed(parser, inner, Mark::Close, tokens)?;
    Ok((expr, depth + 1, rest))
}

/// The rest of a comprehension of a set.
#[cycle(expr)]
#[tactic(auto, unfolding(crate::specs::Reading::comprehension))]
fn set_of<'t, 'a>(parser: Parser, inner: usize, tokens: &'t [Token<'a>]) -> Nested<'t, 'a>
    requires { inner < MAX_NESTING }
    ensures gives { Gives expr_found result (reading.comprehension (reading.parse inner)
        (suc inner) TSetOf Mark.CloseCurly (lexemes tokens.now)) }
    ensures nests { IfOk result (λ x. x.1 ≤ suc inner) }
{
    if inner == 0 {
        return Err(Fault::TooDeep);
    }
    let (name, rest) = name_at(parser.end, tokens)?;
    let rest = expect(parser.end, Mark::Colon, rest)?;
    let (body, depth, rest) = closed(parser, inner, Mark::CloseCurly, rest)?;
    let name = identifier(parser.alloc, name)?;
    let tree = building::set_of(parser.alloc, name, body)?;
    Ok((tree, depth + 1, rest))
}

/// The rest of a comprehension of a row.
#[cycle(expr)]
#[tactic(auto, unfolding(crate::specs::Reading::comprehension))]
fn row_of<'t, 'a>(parser: Parser, inner: usize, tokens: &'t [Token<'a>]) -> Nested<'t, 'a>
    requires { inner < MAX_NESTING }
    ensures gives { Gives expr_found result (reading.comprehension (reading.parse inner)
        (suc inner) TRowOf Mark.CloseSquare (lexemes tokens.now)) }
    ensures nests { IfOk result (λ x. x.1 ≤ suc inner) }
{
    if inner == 0 {
        return Err(Fault::TooDeep);
    }
    let (name, rest) = name_at(parser.end, tokens)?;
    let rest = expect(parser.end, Mark::Colon, rest)?;
    let (body, depth, rest) = closed(parser, inner, Mark::CloseSquare, rest)?;
    let name = identifier(parser.alloc, name)?;
    let tree = building::row_of(parser.alloc, name, body)?;
    Ok((tree, depth + 1, rest))
}

/// A whole expression that nests within the limit. It has no more words than there are tokens.
#[tactic(auto, unfolding(crate::specs::Reading::formula))]
pub fn formula<'t, 'a>(
    parser: Parser,
    tokens: &'t [Token<'a>],
) -> Result<(Formula, &'t [Token<'a>]), Fault>
    requires { length tokens.now ≤ max_text }
    ensures gives { Gives left_of result (reading.formula (lexemes tokens.now)) }
    ensures fewer { IfOk result (λ x. length x.1.now ≤ length tokens.now) }
{
    let (expr, _, rest) = read(parser, MAX_NESTING, Level::Whole, tokens)?;
    Ok((Formula::known(expr), rest))
}

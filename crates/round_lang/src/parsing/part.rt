//! The parts of a program: declarations, blocks and assignments.
ghost use Rattle.std.specs.Prelude.{◌≡◌, ◌≤◌, ◌++◌, [], ◌∷◌, IfOk, length, vec_len};
ghost use Rattle.round_lang.specs.CodeTokens.{lexemes};
ghost use Rattle.round_lang.specs.Limits.{max_text};
ghost use Rattle.round_lang.specs.Outcome.{Gives, name_found, left_of, list_found, head_found};
ghost use Rattle.round_lang.specs.Outcome.{sending_found, declared_found};
ghost use Rattle.round_lang.specs.Parts as parts;
ghost use Rattle.round_lang.specs.Source.{variables_of, decides_of};

use crate::block::{Assignment, Block, Field};
use crate::expr::Ty;
use crate::formula::Formula;
use crate::identifier::Identifier;
use crate::limits::{MAX_FIELDS, MAX_NAME, MAX_NUMBER, MAX_VARIABLES};
use crate::name::Name;
use crate::parsing::cursor::{
    after, begins_name, begins_with, expect, expect_equal, name_at, number_at, span_at, type_at,
};
use crate::parsing::expression::{Parser, formula, identifier};
use crate::parsing::fault::Fault;
use crate::program::{Variable, VariableKind};
use crate::token::{Mark, Token, Word};
use run_events::NoMemory;
use std::alloc::Global;

/// What a declaration declares.
#[derive(Drop)]
pub(crate) enum Declaration {
    Variable(Variable),
    Decide(Identifier),
}

/// No items yet, and the tokens that they are read from.
fn no_items<'t, 'a, T: Drop>(alloc: Global, tokens: &'t [Token<'a>]) -> (Vec<T>, &'t [Token<'a>])
    ensures items { result.0.items ≡ [] }
    ensures rest { result.1.now ≡ tokens.now }
{
    (Vec::new(alloc), tokens)
}

/// The name that has to come next, of something of which there are at most so many.
#[tactic(auto, unfolding(crate::specs::Parts::counted_name))]
fn counted_name<'t, 'a>(
    end: usize,
    count: usize,
    most: usize,
    tokens: &'t [Token<'a>],
) -> Result<(Name<'a>, &'t [Token<'a>]), Fault>
    ensures gives { Gives name_found result (parts.counted_name count most (lexemes tokens.now)) }
    ensures fewer { IfOk result (λ x. length x.1.now ≤ length tokens.now) }
    ensures short { IfOk result (λ x. length x.0.text.now ≤ MAX_NAME) }
{
    let (name, rest) = name_at(end, tokens)?;
    if count < most {
        Ok((name, rest))
    } else {
        Err(Fault::LimitPassed(span_at(end, tokens)))
    }
}

/// `state NAME : TYPE = EXPR` behind its first word, after so many variables.
#[tactic(auto, unfolding(crate::specs::Parts::state))]
fn state<'t, 'a>(
    parser: Parser,
    count: usize,
    tokens: &'t [Token<'a>],
) -> Result<(Declaration, &'t [Token<'a>]), Fault>
    requires { length tokens.now ≤ max_text }
    ensures gives { Gives left_of result (parts.state count (lexemes tokens.now)) }
    ensures fewer { IfOk result (λ x. length x.1.now ≤ length tokens.now) }
{
    let (name, rest) = counted_name(parser.end, count, MAX_VARIABLES, tokens)?;
    let rest = expect(parser.end, Mark::Colon, rest)?;
    let (ty, rest) = type_at(parser.end, rest)?;
    let rest = expect_equal(parser.end, rest)?;
    let (start, rest) = formula(parser, rest)?;
    let name = identifier(parser.alloc, name)?;
    let kind = VariableKind::State { ty, start };
    Ok((Declaration::Variable(Variable { name, kind }), rest))
}

#[tactic(auto, unfolding(crate::specs::Parts::input))]
fn input<'t, 'a>(
    parser: Parser,
    count: usize,
    tokens: &'t [Token<'a>],
) -> Result<(Declaration, &'t [Token<'a>]), Fault>
    ensures gives { Gives left_of result (parts.input count (lexemes tokens.now)) }
    ensures fewer { IfOk result (λ x. length x.1.now ≤ length tokens.now) }
{
    let (name, rest) = counted_name(parser.end, count, MAX_VARIABLES, tokens)?;
    let name = identifier(parser.alloc, name)?;
    let kind = VariableKind::Input;
    Ok((Declaration::Variable(Variable { name, kind }), rest))
}

#[tactic(auto, unfolding(crate::specs::Parts::decide))]
fn decide<'t, 'a>(
    parser: Parser,
    tokens: &'t [Token<'a>],
) -> Result<(Declaration, &'t [Token<'a>]), Fault>
    ensures gives { Gives left_of result (parts.decide (lexemes tokens.now)) }
    ensures fewer { IfOk result (λ x. length x.1.now ≤ length tokens.now) }
{
    let (name, rest) = name_at(parser.end, tokens)?;
    Ok((Declaration::Decide(identifier(parser.alloc, name)?), rest))
}

/// Whether a declaration comes next.
#[tactic(auto, unfolding(crate::specs::Parts::begins_declaration))]
fn begins_declaration(tokens: &[Token<'_>]) -> bool
    ensures { result ≡ parts.begins_declaration (lexemes tokens.now) }
{
    match tokens {
        [first, ..] => matches!(
            first.word,
            Word::Mark(Mark::State | Mark::Input | Mark::Decide)
        ),
        [] => false,
    }
}

/// A declaration, after so many variables.
#[tactic(auto, unfolding(crate::specs::Parts::declaration))]
fn read_declaration<'t, 'a>(
    parser: Parser,
    count: usize,
    tokens: &'t [Token<'a>],
) -> Result<(Declaration, &'t [Token<'a>]), Fault>
    requires { length tokens.now ≤ max_text }
    ensures gives { Gives left_of result (parts.declaration count (lexemes tokens.now)) }
    ensures fewer { IfOk result (λ x. length x.1.now ≤ length tokens.now) }
{
    match tokens {
        [first, rest @ ..] => match first.word {
            Word::Mark(Mark::State) => state(parser, count, rest),
            Word::Mark(Mark::Input) => input(parser, count, rest),
            Word::Mark(Mark::Decide) => decide(parser, rest),
            _ => Err(Fault::Unexpected(first.span)),
        },
        [] => Err(Fault::Unexpected(span_at(parser.end, tokens))),
    }
}

/// What a program declares.
#[derive(Drop)]
pub(crate) struct Declared {
    pub variables: Vec<Variable>,
    pub decides: Vec<Identifier>,
}

impl Declared {
    fn push(&mut self, declaration: Declaration) -> Result<(), NoMemory>
        ensures variables { IfOk result (λ _. self.new.variables.items
            ≡ self.old.variables.items ++ variables_of (declaration ∷ [])) }
        ensures decides { IfOk result (λ _. self.new.decides.items
            ≡ self.old.decides.items ++ decides_of (declaration ∷ [])) }
    {
        match declaration {
            Declaration::Variable(variable) => self.variables.push(variable)?,
            Declaration::Decide(name) => self.decides.push(name)?,
        }
        Ok(())
    }
}

pub(crate) fn declarations<'t, 'a>(
    parser: Parser,
    tokens: &'t [Token<'a>],
) -> Result<(Declared, &'t [Token<'a>]), Fault>
    requires { length tokens.now ≤ max_text }
    ensures gives { Gives declared_found result (parts.declared (lexemes tokens.now)) }
    ensures fewer { IfOk result (λ x. length x.1.now ≤ length tokens.now) }
    ensures few { IfOk result (λ x. vec_len x.0.variables ≤ MAX_VARIABLES) }
{
    let (variables, mut rest) = no_items(parser.alloc, tokens);
    let decides = Vec::new(parser.alloc);
    let mut declared = Declared { variables, decides };
    while begins_declaration(rest) {
        let (next, behind) = read_declaration(parser, declared.variables.len(), rest)?;
        declared.push(next)?;
        rest = behind;
    }
    Ok((declared, rest))
}

#[tactic(auto, unfolding(crate::specs::Parts::assignment))]
fn assignment<'t, 'a>(
    parser: Parser,
    tokens: &'t [Token<'a>],
) -> Result<(Assignment, &'t [Token<'a>]), Fault>
    requires { length tokens.now ≤ max_text }
    ensures gives { Gives left_of result (parts.assignment (lexemes tokens.now)) }
    ensures fewer { IfOk result (λ x. length x.1.now ≤ length tokens.now) }
{
    let (name, rest) = name_at(parser.end, tokens)?;
    let rest = expect(parser.end, Mark::Assign, rest)?;
    let (formula, rest) = formula(parser, rest)?;
    let rest = expect(parser.end, Mark::Semicolon, rest)?;
    let target = identifier(parser.alloc, name)?;
    Ok((Assignment { target, formula }, rest))
}

fn assignments<'t, 'a>(
    parser: Parser,
    tokens: &'t [Token<'a>],
) -> Result<(Vec<Assignment>, &'t [Token<'a>]), Fault>
    requires { length tokens.now ≤ max_text }
    ensures gives { Gives list_found result (parts.assignments (lexemes tokens.now)) }
    ensures fewer { IfOk result (λ x. length x.1.now ≤ length tokens.now) }
{
    let (mut assignments, mut rest) = no_items(parser.alloc, tokens);
    while begins_name(rest) {
        let (next, behind) = assignment(parser, rest)?;
        assignments.push(next)?;
        rest = behind;
    }
    Ok((assignments, rest))
}

/// A field, after so many of its block.
#[tactic(auto, unfolding(crate::specs::Parts::field))]
fn field<'t, 'a>(
    parser: Parser,
    count: usize,
    tokens: &'t [Token<'a>],
) -> Result<(Field, &'t [Token<'a>]), Fault>
    ensures gives { Gives left_of result (parts.field count (lexemes tokens.now)) }
    ensures fewer { IfOk result (λ x. length x.1.now ≤ length tokens.now) }
{
    let (name, rest) = counted_name(parser.end, count, MAX_FIELDS, tokens)?;
    let rest = expect(parser.end, Mark::Colon, rest)?;
    let (ty, rest) = type_at(parser.end, rest)?;
    let name = identifier(parser.alloc, name)?;
    Ok((Field { name, ty }, rest))
}

/// The fields up to a `)`.
fn fields<'t, 'a>(
    parser: Parser,
    tokens: &'t [Token<'a>],
) -> Result<(Vec<Field>, &'t [Token<'a>]), Fault>
    ensures gives { Gives list_found result (parts.fields (lexemes tokens.now)) }
    ensures fewer { IfOk result (λ x. length x.1.now ≤ length tokens.now) }
    ensures few { IfOk result (λ x. vec_len x.0 ≤ MAX_FIELDS) }
{
    let mut fields = Vec::new(parser.alloc);
    if begins_with(Mark::Close, tokens) {
        return Ok((fields, tokens));
    }
    let (first, mut rest) = field(parser, 0, tokens)?;
    fields.push(first)?;
    while let Some(next) = after(Mark::Comma, rest) {
        let (next, behind) = field(parser, fields.len(), next)?;
        fields.push(next)?;
        rest = behind;
    }
    Ok((fields, rest))
}

/// The sent expressions up to a `)`.
fn sent<'t, 'a>(
    parser: Parser,
    tokens: &'t [Token<'a>],
) -> Result<(Vec<Formula>, &'t [Token<'a>]), Fault>
    requires { length tokens.now ≤ max_text }
    ensures gives { Gives list_found result (parts.sent (lexemes tokens.now)) }
    ensures fewer { IfOk result (λ x. length x.1.now ≤ length tokens.now) }
{
    let mut sent = Vec::new(parser.alloc);
    if begins_with(Mark::Close, tokens) {
        return Ok((sent, tokens));
    }
    let (first, mut rest) = formula(parser, tokens)?;
    sent.push(first)?;
    while let Some(next) = after(Mark::Comma, rest) {
        let (next, behind) = formula(parser, next)?;
        sent.push(next)?;
        rest = behind;
    }
    Ok((sent, rest))
}

/// `NUMBER : message ( FIELDS )` of a block.
#[tactic(auto, unfolding(crate::specs::Parts::head))]
fn head<'t, 'a>(
    parser: Parser,
    tokens: &'t [Token<'a>],
) -> Result<(u32, Vec<Field>, &'t [Token<'a>]), Fault>
    ensures gives { Gives head_found result (parts.head (lexemes tokens.now)) }
    ensures fewer { IfOk result (λ x. length x.2.now ≤ length tokens.now) }
    ensures few { IfOk result (λ x. vec_len x.1 ≤ MAX_FIELDS) }
{
    let (number, rest) = number_at(parser.end, 0, MAX_NUMBER, tokens)?;
    let rest = expect(parser.end, Mark::Colon, rest)?;
    let rest = expect(parser.end, Mark::Message, rest)?;
    let rest = expect(parser.end, Mark::Open, rest)?;
    let (fields, rest) = fields(parser, rest)?;
    let rest = expect(parser.end, Mark::Close, rest)?;
    Ok((number, fields, rest))
}

/// `send when EXPR : ( EXPRS )` of a block.
#[tactic(auto, unfolding(crate::specs::Parts::sending))]
fn sending<'t, 'a>(
    parser: Parser,
    tokens: &'t [Token<'a>],
) -> Result<(Formula, Vec<Formula>, &'t [Token<'a>]), Fault>
    requires { length tokens.now ≤ max_text }
    ensures gives { Gives sending_found result (parts.sending (lexemes tokens.now)) }
    ensures fewer { IfOk result (λ x. length x.2.now ≤ length tokens.now) }
{
    let rest = expect(parser.end, Mark::Send, tokens)?;
    let rest = expect(parser.end, Mark::When, rest)?;
    let (condition, rest) = formula(parser, rest)?;
    let rest = expect(parser.end, Mark::Colon, rest)?;
    let rest = expect(parser.end, Mark::Open, rest)?;
    let (sent, rest) = sent(parser, rest)?;
    let rest = expect(parser.end, Mark::Close, rest)?;
    Ok((condition, sent, rest))
}

/// `on message : ASSIGNMENTS` of a block.
#[tactic(auto, unfolding(crate::specs::Parts::on_message))]
fn on_message<'t, 'a>(
    parser: Parser,
    tokens: &'t [Token<'a>],
) -> Result<(Vec<Assignment>, &'t [Token<'a>]), Fault>
    requires { length tokens.now ≤ max_text }
    ensures gives { Gives list_found result (parts.on_message (lexemes tokens.now)) }
    ensures fewer { IfOk result (λ x. length x.1.now ≤ length tokens.now) }
{
    let rest = expect(parser.end, Mark::On, tokens)?;
    let rest = expect(parser.end, Mark::Message, rest)?;
    let rest = expect(parser.end, Mark::Colon, rest)?;
    assignments(parser, rest)
}

/// `end : ASSIGNMENTS` of a block.
#[tactic(auto, unfolding(crate::specs::Parts::ending))]
fn end<'t, 'a>(
    parser: Parser,
    tokens: &'t [Token<'a>],
) -> Result<(Vec<Assignment>, &'t [Token<'a>]), Fault>
    requires { length tokens.now ≤ max_text }
    ensures gives { Gives list_found result (parts.ending (lexemes tokens.now)) }
    ensures fewer { IfOk result (λ x. length x.1.now ≤ length tokens.now) }
{
    let rest = expect(parser.end, Mark::End, tokens)?;
    let rest = expect(parser.end, Mark::Colon, rest)?;
    assignments(parser, rest)
}

/// A block behind its `at`.
#[tactic(auto, unfolding(crate::specs::Parts::block))]
fn block<'t, 'a>(parser: Parser, tokens: &'t [Token<'a>]) -> Result<(Block, &'t [Token<'a>]), Fault>
    requires { length tokens.now ≤ max_text }
    ensures gives { Gives left_of result (parts.block (lexemes tokens.now)) }
    ensures fewer { IfOk result (λ x. length x.1.now ≤ length tokens.now) }
{
    let (number, fields, rest) = head(parser, tokens)?;
    let (condition, sent, rest) = sending(parser, rest)?;
    let (on_message, rest) = on_message(parser, rest)?;
    let (end, rest) = end(parser, rest)?;
    let block = Block::new(number, fields, condition, sent, on_message, end);
    Ok((block, rest))
}

pub(crate) fn blocks<'t, 'a>(
    parser: Parser,
    tokens: &'t [Token<'a>],
) -> Result<(Vec<Block>, &'t [Token<'a>]), Fault>
    requires { length tokens.now ≤ max_text }
    ensures gives { Gives list_found result (parts.blocks (lexemes tokens.now)) }
    ensures fewer { IfOk result (λ x. length x.1.now ≤ length tokens.now) }
{
    let (mut blocks, mut rest) = no_items(parser.alloc, tokens);
    while let Some(next) = after(Mark::At, rest) {
        let (next, behind) = block(parser, next)?;
        blocks.push(next)?;
        rest = behind;
    }
    Ok((blocks, rest))
}

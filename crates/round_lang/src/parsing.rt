//! From a text to its program, or to its expression.
ghost use Rattle.std.specs.Prelude.{◌≡◌, ◌≢◌, ◌<◌, ◌≤◌, ◌↔◌, IfOk, IfErr, Err, List, length};
ghost use Rattle.round_lang.specs.CodeTokens.{lexemes};
ghost use Rattle.round_lang.specs.Lexemes.{Lexeme};
ghost use Rattle.round_lang.specs.Limits.{max_text};
ghost use Rattle.round_lang.specs.Outcome.{Gives, fault_of_text};
ghost use Rattle.round_lang.specs.Parts as parts;
ghost use Rattle.round_lang.specs.Source.{IsFormula, IsSource};
ghost use Rattle.round_lang.specs.Syntax.{ProgramTree};
ghost use Rattle.round_lang.specs.Tokens.{Tokens};
ghost use Rattle.round_lang.specs.Tree.{Tree};

mod cursor;
mod expression;
mod fault;
mod level;
mod part;

use crate::fault::LangFault;
use crate::formula::Formula;
use crate::lexing::{TokenFault, tokens};
use crate::limits::{MAX_PERIOD, MAX_TEXT, MAX_VALUES};
use crate::program::Program;
use crate::token::{Mark, Token};
use cursor::{expect, number_at, span_at};
use expression::{Parser, formula};
use fault::Fault;
use part::{blocks, declarations};
use std::alloc::Global;

/// The program that the tokens are.
#[tactic(auto, unfolding(crate::specs::Parts::program))]
fn program(parser: Parser, tokens: &[Token<'_>]) -> Result<Program, Fault>
    requires { length tokens.now ≤ max_text }
    ensures { Gives (λ p. p) result (parts.program (lexemes tokens.now)) }
{
    let rest = expect(parser.end, Mark::Values, tokens)?;
    let (values, rest) = number_at(parser.end, 1, MAX_VALUES, rest)?;
    let rest = expect(parser.end, Mark::Period, rest)?;
    let (period, rest) = number_at(parser.end, 1, MAX_PERIOD, rest)?;
    let (declared, rest) = declarations(parser, rest)?;
    let (blocks, rest) = blocks(parser, rest)?;
    if rest.is_empty() {
        Ok(Program::new(values, period, declared.variables, declared.decides, blocks))
    } else {
        Err(Fault::Unexpected(span_at(parser.end, rest)))
    }
}

/// The expression that the tokens are.
#[tactic(auto, unfolding(crate::specs::Parts::lone_formula))]
fn lone_formula(parser: Parser, tokens: &[Token<'_>]) -> Result<Formula, Fault>
    requires { length tokens.now ≤ max_text }
    ensures { Gives (λ t. t) result (parts.lone_formula (lexemes tokens.now)) }
{
    let (formula, rest) = formula(parser, tokens)?;
    if rest.is_empty() {
        Ok(formula)
    } else {
        Err(Fault::Unexpected(span_at(parser.end, rest)))
    }
}

/// The tokens of the text, of which there are no more than bytes.
#[tactic(auto, using(crate::proofs::LeastWords::bytes_many))]
fn tokens_of(alloc: Global, text: &str) -> Result<Vec<Token<'_>>, LangFault>
    ensures found { IfOk result (λ v. Tokens text.now (lexemes v.items)) }
    ensures few { IfOk result (λ v. length v.items ≤ max_text) }
    // The text has no other tokens.
    ensures only { IfOk result (λ v. (ls : List Lexeme) → Tokens text.now ls
        → ls ≡ lexemes v.items) }
    ensures refused { IfErr result (λ e. e ≢ LangFault.NoMemory → e ≢ LangFault.TooLong
        → (ls : List Lexeme) → Tokens text.now ls → ⊥) }
    ensures long { (result ≡ Err LangFault.TooLong) ↔ (max_text < length text.now) }
{
    if text.len() > MAX_TEXT {
        return Err(LangFault::TooLong);
    }
    match tokens(alloc, text.as_bytes()) {
        Ok(tokens) => Ok(tokens),
        Err(TokenFault::NoMemory) => Err(LangFault::NoMemory),
        Err(TokenFault::BadToken(span)) => Err(LangFault::BadToken(span)),
    }
}

/// What a fault of the tokens is as one of the text.
fn fault_of_text(fault: Fault) -> LangFault
    ensures { result ≡ fault_of_text fault }
{
    match fault {
        Fault::NoMemory => LangFault::NoMemory,
        Fault::Unexpected(span) => LangFault::Unexpected(span),
        Fault::TooDeep => LangFault::TooDeep,
        Fault::LimitPassed(span) => LangFault::LimitPassed(span),
    }
}

/// The program that the text is.
pub fn parse(alloc: Global, text: &str) -> Result<Program, LangFault>
    // What is answered is the text's program.
    ensures found { IfOk result (λ p. IsSource text.now p) }
    // Only a text that is no program is refused, or one that is too long, memory aside.
    ensures refused { IfErr result (λ e. e ≢ LangFault.NoMemory → e ≢ LangFault.TooLong
        → (p : ProgramTree) → IsSource text.now p → ⊥) }
    ensures long { (result ≡ Err LangFault.TooLong) ↔ (max_text < length text.now) }
{
    let tokens = tokens_of(alloc, text)?;
    let parser = Parser {
        alloc,
        end: text.len(),
    };
    match program(parser, &tokens) {
        Ok(program) => Ok(program),
        Err(fault) => Err(fault_of_text(fault)),
    }
}

/// The expression that the text is: one that stands in no program, such as a property of states.
pub fn parse_formula(alloc: Global, text: &str) -> Result<Formula, LangFault>
    // What is answered is the text's expression.
    ensures found { IfOk result (λ t. IsFormula text.now t) }
    // Only a text that is no expression is refused, or one that is too long, memory aside.
    ensures refused { IfErr result (λ e. e ≢ LangFault.NoMemory → e ≢ LangFault.TooLong
        → (t : Tree) → IsFormula text.now t → ⊥) }
    ensures long { (result ≡ Err LangFault.TooLong) ↔ (max_text < length text.now) }
{
    let tokens = tokens_of(alloc, text)?;
    let parser = Parser {
        alloc,
        end: text.len(),
    };
    match lone_formula(parser, &tokens) {
        Ok(formula) => Ok(formula),
        Err(fault) => Err(fault_of_text(fault)),
    }
}

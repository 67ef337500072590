//! How a program is spelled as numbers, so that two programs are compared number by number.
ghost use Rattle.std.specs.Prelude.{◌≡◌, ◌∷◌, ◌++◌, ℕ, List, IfOk, OnOk};
ghost use Rattle.round_lang.specs.Tree.{tree_of};
ghost use Rattle.round_lang.specs.TreeCode.{Word, words_then};
ghost use Rattle.round_check.specs.Spelling.{assignment_then, binary_number, block_then};
ghost use Rattle.round_check.specs.Spelling.{constant_number, field_then, kind_then, list_then};
ghost use Rattle.round_check.specs.Spelling.{name_then, program_then, spelled, tree_then};
ghost use Rattle.round_check.specs.Spelling.{ty_number, unary_number, variable_then, words_spelled};

use round_lang::{
    Assignment, BinaryOperator, Block, Constant, Expr, Field, Formula, Identifier, Program, Ty,
    UnaryOperator, Variable, VariableKind,
};
use run_events::NoMemory;
use std::alloc::Global;

/// Spells a program.
pub(crate) fn spell(alloc: Global, program: &Program) -> Result<Vec<u32>, NoMemory>
    ensures { IfOk result (λ words. words.items ≡ spelled program.now) }
{
    let mut words = Vec::new(alloc);
    put_program(&mut words, program)?;
    Ok(words)
}

fn put(words: &mut Vec<u32>, word: u32) -> Result<(), NoMemory>
    ensures { OnOk result ((rest : List ℕ) → words.new.items ++ rest
        ≡ words.old.items ++ word ∷ rest) }
{
    words.push(word)?;
    Ok(())
}

/// A word of a tree's code that has a number.
fn put_word(words: &mut Vec<u32>, tag: u32, number: u32) -> Result<(), NoMemory>
    ensures { OnOk result ((rest : List ℕ) → words.new.items ++ rest
        ≡ words.old.items ++ 1 ∷ tag ∷ number ∷ rest) }
{
    put(words, 1)?;
    put(words, tag)?;
    put(words, number)
}

fn put_bytes(words: &mut Vec<u32>, bytes: &[u8]) -> Result<(), NoMemory>
    ensures { OnOk result ((rest : List ℕ) → words.new.items ++ rest
        ≡ words.old.items ++ name_then bytes.now rest) }
{
    match bytes {
        [] => put(words, 0),
        [first, bytes @ ..] => {
            put(words, u32::from(*first) + 1)?;
            put_bytes(words, bytes)
        }
    }
}

fn put_name(words: &mut Vec<u32>, name: &Identifier) -> Result<(), NoMemory>
    ensures { OnOk result ((rest : List ℕ) → words.new.items ++ rest
        ≡ words.old.items ++ name_then name.now rest) }
{
    put_bytes(words, name.as_str().as_bytes())
}

/// A word of a tree's code that has a name.
fn put_named(words: &mut Vec<u32>, tag: u32, name: &Identifier) -> Result<(), NoMemory>
    ensures { OnOk result ((rest : List ℕ) → words.new.items ++ rest
        ≡ words.old.items ++ 1 ∷ tag ∷ name_then name.now rest) }
{
    put(words, 1)?;
    put(words, tag)?;
    put_name(words, name)
}

/// The words of an expression's code, behind which others come.
fn put_words(words: &mut Vec<u32>, expr: &Expr) -> Result<(), NoMemory>
    ensures { OnOk result ((ws : List Word) (rest : List ℕ)
        → words.new.items ++ words_spelled ws rest
        ≡ words.old.items ++ words_spelled (words_then (tree_of expr.now) ws) rest) }
{
    match expr {
        Expr::Number(number) => put_word(words, 0, *number),
        Expr::Fixed(constant) => put_word(words, 1, constant_number(*constant)),
        Expr::Named(name) => put_named(words, 2, name),
        Expr::Unary(operator, a) => {
            put_words(words, a)?;
            put_word(words, 3, unary_number(*operator))
        }
        Expr::Binary(operator, a, b) => {
            put_words(words, a)?;
            put_words(words, b)?;
            put_word(words, 4, binary_number(*operator))
        }
        Expr::If(condition, a, b) => {
            put_words(words, condition)?;
            put_words(words, a)?;
            put_words(words, b)?;
            put(words, 1)?;
            put(words, 5)
        }
        Expr::SetOf(name, body) => {
            put_words(words, body)?;
            put_named(words, 6, name)
        }
        Expr::RowOf(name, body) => {
            put_words(words, body)?;
            put_named(words, 7, name)
        }
    }
}

fn put_formula(words: &mut Vec<u32>, formula: &Formula) -> Result<(), NoMemory>
    ensures { OnOk result ((rest : List ℕ) → words.new.items ++ rest
        ≡ words.old.items ++ tree_then formula.now rest) }
{
    put_words(words, formula.expr())?;
    put(words, 0)
}

fn put_formulas(words: &mut Vec<u32>, formulas: &[Formula]) -> Result<(), NoMemory>
    ensures { OnOk result ((rest : List ℕ) → words.new.items ++ rest
        ≡ words.old.items ++ list_then tree_then formulas.now rest) }
{
    match formulas {
        [] => put(words, 0),
        [first, formulas @ ..] => {
            put(words, 1)?;
            put_formula(words, first)?;
            put_formulas(words, formulas)
        }
    }
}

fn put_fields(words: &mut Vec<u32>, fields: &[Field]) -> Result<(), NoMemory>
    ensures { OnOk result ((rest : List ℕ) → words.new.items ++ rest
        ≡ words.old.items ++ list_then field_then fields.now rest) }
{
    match fields {
        [] => put(words, 0),
        [first, fields @ ..] => {
            put(words, 1)?;
            put_name(words, &first.name)?;
            put(words, ty_number(first.ty))?;
            put_fields(words, fields)
        }
    }
}

fn put_assignments(words: &mut Vec<u32>, assignments: &[Assignment]) -> Result<(), NoMemory>
    ensures { OnOk result ((rest : List ℕ) → words.new.items ++ rest
        ≡ words.old.items ++ list_then assignment_then assignments.now rest) }
{
    match assignments {
        [] => put(words, 0),
        [first, assignments @ ..] => {
            put(words, 1)?;
            put_name(words, &first.target)?;
            put_formula(words, &first.formula)?;
            put_assignments(words, assignments)
        }
    }
}

fn put_kind(words: &mut Vec<u32>, kind: &VariableKind) -> Result<(), NoMemory>
    ensures { OnOk result ((rest : List ℕ) → words.new.items ++ rest
        ≡ words.old.items ++ kind_then kind.now rest) }
{
    match kind {
        VariableKind::Input => put(words, 0),
        VariableKind::State { ty, start } => {
            put(words, 1)?;
            put(words, ty_number(*ty))?;
            put_formula(words, start)
        }
    }
}

fn put_variables(words: &mut Vec<u32>, variables: &[Variable]) -> Result<(), NoMemory>
    ensures { OnOk result ((rest : List ℕ) → words.new.items ++ rest
        ≡ words.old.items ++ list_then variable_then variables.now rest) }
{
    match variables {
        [] => put(words, 0),
        [first, variables @ ..] => {
            put(words, 1)?;
            put_name(words, &first.name)?;
            put_kind(words, &first.kind)?;
            put_variables(words, variables)
        }
    }
}

fn put_names(words: &mut Vec<u32>, names: &[Identifier]) -> Result<(), NoMemory>
    ensures { OnOk result ((rest : List ℕ) → words.new.items ++ rest
        ≡ words.old.items ++ list_then name_then names.now rest) }
{
    match names {
        [] => put(words, 0),
        [first, names @ ..] => {
            put(words, 1)?;
            put_name(words, first)?;
            put_names(words, names)
        }
    }
}

fn put_block(words: &mut Vec<u32>, block: &Block) -> Result<(), NoMemory>
    ensures { OnOk result ((rest : List ℕ) → words.new.items ++ rest
        ≡ words.old.items ++ block_then block.now rest) }
{
    put(words, block.number())?;
    put_fields(words, block.fields())?;
    put_formula(words, block.condition())?;
    put_formulas(words, block.sent())?;
    put_assignments(words, block.on_message())?;
    put_assignments(words, block.end())
}

fn put_blocks(words: &mut Vec<u32>, blocks: &[Block]) -> Result<(), NoMemory>
    ensures { OnOk result ((rest : List ℕ) → words.new.items ++ rest
        ≡ words.old.items ++ list_then block_then blocks.now rest) }
{
    match blocks {
        [] => put(words, 0),
        [first, blocks @ ..] => {
            put(words, 1)?;
            put_block(words, first)?;
            put_blocks(words, blocks)
        }
    }
}

fn put_program(words: &mut Vec<u32>, program: &Program) -> Result<(), NoMemory>
    ensures { OnOk result ((rest : List ℕ) → words.new.items ++ rest
        ≡ words.old.items ++ program_then program.now rest) }
{
    put(words, program.values())?;
    put(words, program.period())?;
    put_variables(words, program.variables())?;
    put_names(words, program.decides())?;
    put_blocks(words, program.blocks())
}

fn ty_number(ty: Ty) -> u32
    ensures { result ≡ ty_number ty }
{
    match ty {
        Ty::Num => 0,
        Ty::Bool => 1,
        Ty::Set => 2,
        Ty::Row => 3,
    }
}

fn constant_number(constant: Constant) -> u32
    ensures { result ≡ constant_number constant }
{
    match constant {
        Constant::True => 0,
        Constant::False => 1,
        Constant::Empty => 2,
        Constant::All => 3,
        Constant::Zero => 4,
        Constant::Me => 5,
        Constant::Nodes => 6,
        Constant::Faults => 7,
        Constant::Round => 8,
        Constant::Phase => 9,
        Constant::Dest => 10,
        Constant::From => 11,
    }
}

fn unary_number(operator: UnaryOperator) -> u32
    ensures { result ≡ unary_number operator }
{
    match operator {
        UnaryOperator::Not => 0,
        UnaryOperator::Single => 1,
        UnaryOperator::Size => 2,
        UnaryOperator::Least => 3,
    }
}

fn binary_number(operator: BinaryOperator) -> u32
    ensures { result ≡ binary_number operator }
{
    match operator {
        BinaryOperator::Add => 0,
        BinaryOperator::Sub => 1,
        BinaryOperator::Div => 2,
        BinaryOperator::Mod => 3,
        BinaryOperator::Equal => 4,
        BinaryOperator::Differs => 5,
        BinaryOperator::Less => 6,
        BinaryOperator::AtMost => 7,
        BinaryOperator::More => 8,
        BinaryOperator::AtLeast => 9,
        BinaryOperator::And => 10,
        BinaryOperator::Or => 11,
        BinaryOperator::Union => 12,
        BinaryOperator::Inter => 13,
        BinaryOperator::Minus => 14,
        BinaryOperator::Has => 15,
        BinaryOperator::Entry => 16,
    }
}

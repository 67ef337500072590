//! The plain evaluator.
ghost use Rattle.std.specs.Prelude.{◌≡◌, ◌≤◌, IfOk, map, slice_index};
ghost use Rattle.std.specs.List.{range_with_len};
ghost use Rattle.round_lang.specs.Sets.{set_of};
ghost use Rattle.round_lang.specs.Tree.{tree_of};
ghost use Rattle.round_lang.specs.Values.{num, flag, of_set, row as row_in, set};
ghost use Rattle.round_meaning.specs.Envs.{env_of};
ghost use Rattle.round_meaning.specs.Meaning.{value, constant, bind};

use crate::env::{Env, Scope};
use round_lang::{BinaryOperator, Constant, Expr, Identifier, Row, Value, ValueSet, binary, unary};
use run_events::NoMemory;
use std::alloc::Global;

fn fixed(alloc: Global, word: Constant, env: &Env<'_>) -> Result<Value, NoMemory>
    requires { env.now.values ≤ 64 }
    ensures { IfOk result (λ v. v ≡ constant word (env_of env.now)) }
{
    match word {
        Constant::True => Ok(Value::Flag(true)),
        Constant::False => Ok(Value::Flag(false)),
        Constant::Empty => Ok(Value::Set(ValueSet::empty())),
        Constant::All => Ok(Value::Set(ValueSet::all(env.values))),
        Constant::Zero => Ok(Value::Row(Row::new(vec![in alloc; 0; env.values as usize]?))),
        Constant::Me => Ok(Value::Num(env.me)),
        Constant::Nodes => Ok(Value::Num(env.nodes)),
        Constant::Faults => Ok(Value::Num(env.faults)),
        Constant::Round => Ok(Value::Num(env.round)),
        Constant::Phase => Ok(Value::Num(env.phase)),
        Constant::Dest => Ok(Value::Num(env.dest)),
        Constant::From => Ok(Value::Num(env.from)),
    }
}

/// The value of an expression; K is at most 64. Sets that are joined, and rows that are asked for
/// an entry, are read where they lie.
#[cycle(eval)]
pub fn eval(alloc: Global, expr: &Expr, env: &Env<'_>) -> Result<Value, NoMemory>
    requires { env.now.values ≤ 64 }
    ensures { IfOk result (λ v. v ≡ value (tree_of expr.now) (env_of env.now)) }
{
    match expr {
        Expr::Number(n) => Ok(Value::Num(*n)),
        Expr::Fixed(word) => fixed(alloc, *word, env),
        Expr::Named(name) => env.look_up(name),
        Expr::Unary(operator, a) => {
            let a = eval(alloc, a, env)?;
            Ok(unary(env.values, *operator, &a))
        }
        Expr::Binary(BinaryOperator::Entry, row, place) => {
            let place = eval(alloc, place, env)?.num();
            Ok(Value::Num(eval_entry(alloc, row, place, env)?))
        }
        Expr::Binary(BinaryOperator::Union, a, b) => {
            let a = eval_members(alloc, a, env)?;
            Ok(Value::Set(a.union(eval_members(alloc, b, env)?)))
        }
        Expr::Binary(BinaryOperator::Inter, a, b) => {
            let a = eval_members(alloc, a, env)?;
            Ok(Value::Set(a.inter(eval_members(alloc, b, env)?)))
        }
        Expr::Binary(BinaryOperator::Minus, a, b) => {
            let a = eval_members(alloc, a, env)?;
            Ok(Value::Set(a.minus(eval_members(alloc, b, env)?)))
        }
        Expr::Binary(operator, a, b) => {
            let a = eval(alloc, a, env)?;
            let b = eval(alloc, b, env)?;
            Ok(binary(env.values, *operator, &a, &b))
        }
        Expr::If(c, a, b) => {
            if eval(alloc, c, env)?.flag() {
                eval(alloc, a, env)
            } else {
                eval(alloc, b, env)
            }
        }
        Expr::SetOf(name, body) => eval_set(alloc, name, body, env),
        Expr::RowOf(name, body) => eval_row(alloc, name, body, env),
    }
}

/// The set that an expression is, empty if it's none; that of a name is read where it lies.
#[cycle(eval)]
fn eval_members(alloc: Global, expr: &Expr, env: &Env<'_>) -> Result<ValueSet, NoMemory>
    requires { env.now.values ≤ 64 }
    ensures { IfOk result (λ s. s.bits ≡ set (value (tree_of expr.now) (env_of env.now))) }
{
    match expr {
        Expr::Named(name) => Ok(env.members(name)),
        _ => Ok(eval(alloc, expr, env)?.set()),
    }
}

/// An entry of a row; that of a name isn't copied for it.
#[cycle(eval)]
fn eval_entry(alloc: Global, row: &Expr, place: u32, env: &Env<'_>) -> Result<u32, NoMemory>
    requires { env.now.values ≤ 64 }
    ensures { IfOk result (λ n. n
        ≡ slice_index (row_in (value (tree_of row.now) (env_of env.now))) place) }
{
    match row {
        Expr::Named(name) => Ok(env.entry(name, place)),
        _ => Ok(eval(alloc, row, env)?.entry(place)),
    }
}

/// The value of a comprehension's body at one number.
#[cycle(eval)]
fn eval_at(
    alloc: Global,
    name: &Identifier,
    body: &Expr,
    env: &Env<'_>,
    v: u32,
) -> Result<Value, NoMemory>
    requires { env.now.values ≤ 64 }
    ensures { IfOk result (λ r. r ≡ value (tree_of body.now) (bind name.now (env_of env.now) v)) }
{
    let scope = Scope::Inner(name, v, env.bound);
    let inner = Env {
        bound: &scope,
        ..*env
    };
    eval(alloc, body, &inner)
}

#[cycle(eval)]
fn eval_set(alloc: Global, name: &Identifier, body: &Expr, env: &Env<'_>) -> Result<Value, NoMemory>
    requires { env.now.values ≤ 64 }
    ensures { IfOk result (λ r. r ≡ of_set (set_of env.now.values
        (λ v. flag (value (tree_of body.now) (bind name.now (env_of env.now) v))))) }
{
    let mut bits = 0u64;
    for v in 0..env.values {
        if eval_at(alloc, name, body, env, v)?.flag() {
            bits |= 1 << v;
        }
    }
    Ok(Value::Set(ValueSet { bits }))
}

#[cycle(eval)]
fn eval_row(alloc: Global, name: &Identifier, body: &Expr, env: &Env<'_>) -> Result<Value, NoMemory>
    requires { env.now.values ≤ 64 }
    ensures { IfOk result (λ r. r ≡ Value.Row (map
        (λ v. num (value (tree_of body.now) (bind name.now (env_of env.now) v)))
        (range_with_len 0 env.now.values))) }
{
    let mut entries = Vec::new(alloc);
    for v in 0..env.values {
        let entry = eval_at(alloc, name, body, env, v)?.num();
        entries.push(entry)?;
    }
    Ok(Value::Row(Row::new(entries)))
}

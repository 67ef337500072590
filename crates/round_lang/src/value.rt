//! Values of the language.
ghost use Rattle.std.specs.Prelude.{◌≡◌, ◌≤◌, ◌↔◌, IfOk, IsTrue, slice_index};
ghost use Rattle.round_lang.specs.Values.{num, flag, set, row, same, unary, binary};
ghost use Rattle.round_lang.specs.Words.{kind_of};

use crate::expr::{BinaryOperator, UnaryOperator};
use crate::kind::Kind;
use crate::row::Row;
use crate::sets::ValueSet;
use run_events::NoMemory;

/// A value.
#[derive(PartialEq, Eq, Drop, Debug)]
pub enum Value {
    Num(u32),
    Flag(bool),
    Set(ValueSet),
    Row(Row),
}

impl Value {
    pub fn copy(&self) -> Result<Value, NoMemory>
        ensures { IfOk result (λ v. v ≡ self.now) }
    {
        match self {
            Value::Num(n) => Ok(Value::Num(*n)),
            Value::Flag(b) => Ok(Value::Flag(*b)),
            Value::Set(s) => Ok(Value::Set(*s)),
            Value::Row(r) => Ok(Value::Row(r.copy()?)),
        }
    }

    /// Whether both are equal, rows by all entries; values of two types are not.
    pub fn is(&self, other: &Value) -> bool
        ensures { result ≡ same self.now other.now }
    {
        match (self, other) {
            (Value::Num(a), Value::Num(b)) => *a == *b,
            (Value::Flag(a), Value::Flag(b)) => *a == *b,
            (Value::Set(a), Value::Set(b)) => a.bits == b.bits,
            (Value::Row(a), Value::Row(b)) => a.as_slice() == b.as_slice(),
            _ => false,
        }
    }

    /// Whether both are one value.
    pub fn same(&self, other: &Value) -> bool
        ensures { IsTrue result ↔ (self.now ≡ other.now) }
    {
        self.is(other)
    }
}

impl Value {
    /// How its words are read.
    pub fn kind(&self) -> Kind
        ensures { result ≡ kind_of self.now }
    {
        match self {
            Value::Num(_) => Kind::Num,
            Value::Flag(_) => Kind::Flag,
            Value::Set(_) => Kind::Set,
            Value::Row(r) => Kind::Row(r.size()),
        }
    }

    /// The number that it is, 0 if it is none.
    pub fn num(&self) -> u32
        ensures { result ≡ num self.now }
    {
        match self {
            Value::Num(n) => *n,
            _ => 0,
        }
    }

    pub fn flag(&self) -> bool
        ensures { result ≡ flag self.now }
    {
        match self {
            Value::Flag(b) => *b,
            _ => false,
        }
    }

    pub fn set(&self) -> ValueSet
        ensures { result.bits ≡ set self.now }
    {
        match self {
            Value::Set(s) => *s,
            _ => ValueSet::empty(),
        }
    }

    pub fn entry(&self, place: u32) -> u32
        ensures { result ≡ slice_index (row self.now) place }
    {
        match self {
            Value::Row(r) => r.at(place),
            _ => 0,
        }
    }
}

/// An operator on one value.
pub fn unary(values: u32, op: UnaryOperator, a: &Value) -> Value
    requires { values ≤ 64 }
    ensures { result ≡ unary values op a.now }
{
    match op {
        UnaryOperator::Not => Value::Flag(!a.flag()),
        UnaryOperator::Single => Value::Set(ValueSet::single(values, a.num())),
        UnaryOperator::Size => Value::Num(a.set().size()),
        UnaryOperator::Least => Value::Num(a.set().least(values)),
    }
}

/// An operator on two values.
pub fn binary(values: u32, op: BinaryOperator, a: &Value, b: &Value) -> Value
    requires { values ≤ 64 }
    ensures { result ≡ binary values op a.now b.now }
{
    match op {
        BinaryOperator::Add => Value::Num(a.num().saturating_add(b.num())),
        BinaryOperator::Sub => Value::Num(a.num().saturating_sub(b.num())),
        BinaryOperator::Div => Value::Num(a.num().checked_div(b.num()).unwrap_or(0)),
        BinaryOperator::Mod => Value::Num(a.num().checked_rem(b.num()).unwrap_or(0)),
        BinaryOperator::Equal => Value::Flag(a.is(b)),
        BinaryOperator::Differs => Value::Flag(!a.is(b)),
        BinaryOperator::Less => Value::Flag(a.num() < b.num()),
        BinaryOperator::AtMost => Value::Flag(a.num() <= b.num()),
        BinaryOperator::More => Value::Flag(b.num() < a.num()),
        BinaryOperator::AtLeast => Value::Flag(b.num() <= a.num()),
        BinaryOperator::And => Value::Flag(a.flag() && b.flag()),
        BinaryOperator::Or => Value::Flag(a.flag() || b.flag()),
        BinaryOperator::Union => Value::Set(a.set().union(b.set())),
        BinaryOperator::Inter => Value::Set(a.set().inter(b.set())),
        BinaryOperator::Minus => Value::Set(a.set().minus(b.set())),
        BinaryOperator::Has => Value::Flag(a.set().has(values, b.num())),
        BinaryOperator::Entry => Value::Num(a.entry(b.num())),
    }
}

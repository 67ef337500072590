//! What an expression is computed with.
ghost use Rattle.std.specs.Prelude.{◌≡◌, IfOk, position, slice_index};
ghost use Rattle.std.specs.Str.{bytes_eq};
ghost use Rattle.round_lang.specs.declared.block.Field.{Field};
ghost use Rattle.round_lang.specs.declared.program.Variable.{Variable};
ghost use Rattle.round_lang.specs.Values.{row, set};
ghost use Rattle.round_meaning.specs.Envs.{env_of, found, scope_of};
ghost use Rattle.round_meaning.specs.Meaning.{find_bound, look_up};

use round_lang::{Field, Identifier, Message, Value, ValueSet, Variable, Vars};
use run_events::NoMemory;

/// The comprehension variables in scope, the innermost first.
#[derive(Clone, Copy)]
pub enum Scope<'a> {
    Outermost,
    Inner(&'a Identifier, u32, &'a Scope<'a>),
}

/// What an expression is computed with; `vars` are the values of the variables, `message` those of
/// the fields.
#[derive(Clone, Copy)]
pub struct Env<'a> {
    pub values: u32,
    pub me: u32,
    pub nodes: u32,
    pub faults: u32,
    pub round: u32,
    pub phase: u32,
    pub dest: u32,
    pub from: u32,
    pub variables: &'a [Variable],
    pub vars: &'a Vars,
    pub fields: &'a [Field],
    pub message: &'a Message,
    pub bound: &'a Scope<'a>,
}

/// What a name stands for: a number, or the value at a place of a state or message.
#[derive(Clone, Copy)]
pub(crate) enum Place<'a> {
    Number(u32),
    At(&'a Vars, usize),
}

impl Scope<'_> {
    /// The number of a comprehension variable.
    fn find(&self, name: &Identifier) -> Option<u32>
        ensures { result ≡ find_bound (scope_of self.now) name.now }
    {
        match self {
            Scope::Outermost => None,
            Scope::Inner(inner, number, outer) => {
                if inner.is(name) {
                    Some(*number)
                } else {
                    outer.find(name)
                }
            }
        }
    }
}

impl<'a> Env<'a> {
    /// What a name stands for: a comprehension variable, else a field, else a variable.
    fn place(&self, name: &Identifier) -> Place<'a>
        ensures { found result ≡ look_up (env_of self.now) name.now }
    {
        if let Some(number) = self.bound.find(name) {
            return Place::Number(number);
        }
        if let Some(place) = place_of_field(self.fields, name) {
            if place < self.message.len() {
                return Place::At(self.message, place);
            }
        }
        match place_of_variable(self.variables, name) {
            Some(place) => Place::At(self.vars, place),
            None => Place::Number(0),
        }
    }

    /// The value that a name stands for.
    pub(crate) fn look_up(&self, name: &Identifier) -> Result<Value, NoMemory>
        ensures { IfOk result (λ v. v ≡ look_up (env_of self.now) name.now) }
    {
        match self.place(name) {
            Place::Number(number) => Ok(Value::Num(number)),
            Place::At(values, place) => values.value(place),
        }
    }

    /// The set that a name stands for, empty if it's none.
    pub(crate) fn members(&self, name: &Identifier) -> ValueSet
        ensures { result.bits ≡ set (look_up (env_of self.now) name.now) }
    {
        match self.place(name) {
            Place::Number(_) => ValueSet::empty(),
            Place::At(values, place) => values.set(place),
        }
    }

    /// An entry of the row that a name stands for; the row isn't copied.
    pub(crate) fn entry(&self, name: &Identifier, entry: u32) -> u32
        ensures { result ≡ slice_index (row (look_up (env_of self.now) name.now)) entry }
    {
        match self.place(name) {
            Place::Number(_) => 0,
            Place::At(values, place) => values.entry(place, entry),
        }
    }
}

fn place_of_field(fields: &[Field], name: &Identifier) -> Option<usize>
    ensures { result ≡ position (λ (f : Field). bytes_eq f.name name.now) fields.now }
{
    fields.iter().position(|field| field.name.is(name))
}

/// Where the first variable of a name stands.
pub(crate) fn place_of_variable(variables: &[Variable], name: &Identifier) -> Option<usize>
    ensures { result ≡ position (λ (d : Variable). bytes_eq d.name name.now) variables.now }
{
    variables.iter().position(|variable| variable.name.is(name))
}

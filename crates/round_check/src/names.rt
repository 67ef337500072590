//! What a name of a program stands for.
ghost use Rattle.std.specs.Prelude.{◌≡◌};
ghost use Rattle.round_check.specs.Names.{contains_name, names_of, is_input, declares};
ghost use Rattle.round_check.specs.Names.{declares_state, has_field, some_field};

use round_lang::{Block, Field, Identifier, Variable, VariableKind};

/// Comprehension variables in scope, the innermost first.
#[derive(Clone, Copy)]
pub(crate) enum Names<'a> {
    Outermost,
    Inner(&'a Identifier, &'a Names<'a>),
}

impl Names<'_> {
    pub(crate) fn contain(&self, name: &Identifier) -> bool
        ensures { result ≡ contains_name (names_of self.now) name.now }
    {
        match self {
            Names::Outermost => false,
            Names::Inner(inner, outer) => inner.is(name) || outer.contain(name),
        }
    }
}

/// Whether a variable is the node's input.
pub(crate) fn is_input(variable: &Variable) -> bool
    ensures { result ≡ is_input variable.now.kind }
{
    match &variable.kind {
        VariableKind::Input => true,
        VariableKind::State { .. } => false,
    }
}

/// Whether a state variable or the input has the name.
pub(crate) fn declares(variables: &[Variable], name: &Identifier) -> bool
    ensures { result ≡ declares variables.now name.now }
{
    variables.iter().any(|v| v.name.is(name))
}

/// Whether a state variable other than the input has the name.
pub(crate) fn declares_state(variables: &[Variable], name: &Identifier) -> bool
    ensures { result ≡ declares_state variables.now name.now }
{
    variables.iter().any(|v| !is_input(v) && v.name.is(name))
}

/// Whether one of the fields has the name.
pub(crate) fn has_field(fields: &[Field], name: &Identifier) -> bool
    ensures { result ≡ has_field fields.now name.now }
{
    fields.iter().any(|f| f.name.is(name))
}

/// Whether a field of some block has the name.
pub(crate) fn some_field(blocks: &[Block], name: &Identifier) -> bool
    ensures { result ≡ some_field blocks.now name.now }
{
    blocks.iter().any(|b| has_field(b.fields(), name))
}

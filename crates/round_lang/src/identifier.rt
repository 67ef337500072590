//! Names of the language, seen by contracts as their bytes.
ghost use Rattle.std.specs.Prelude.{◌≡◌, ◌↔◌, IfOk, IsTrue, SomeIff, string_bytes};
ghost use Rattle.std.specs.Str.{bytes_eq};
ghost use Rattle.round_lang.specs.Tokens.{IsName};

use crate::lexing::is_name;
use run_events::NoMemory;
use std::marker::Model;

/// A name of a variable, a field or a comprehension's number: a letter or `_` and then letters,
/// digits and `_`, of at most 32 bytes and no keyword.
#[derive(Drop, Debug)]
pub struct Identifier {
    text: String,
}

impl Model for Identifier {
    ghost use Rattle.std.specs.Prelude.{List, ℕ, string_bytes};
    ghost use Rattle.round_lang.specs.Tokens.{IsName};

    ghost Value = { List ℕ };

    ghost view = { λ n. string_bytes n.text };

    ghost invariant = { λ n. IsName (string_bytes n.text) };
}

impl Identifier {
    /// The name that the text is.
    pub fn new(text: String) -> Option<Identifier>
        ensures { SomeIff result (IsName (string_bytes text)) (string_bytes text) }
    {
        if is_name(text.as_bytes()) {
            Some(Identifier { text })
        } else {
            None
        }
    }

    /// The name that the text is known to be.
    pub(crate) fn known(text: String) -> Identifier
        requires { IsName (string_bytes text) }
        ensures { result ≡ string_bytes text }
    {
        Identifier { text }
    }

    pub fn as_str(&self) -> &str
        ensures text { result.now ≡ self.now }
        ensures name { IsName result.now }
    {
        self.text.as_str()
    }

    /// Whether both are one name, as a number of the definitions.
    pub fn is(&self, other: &Identifier) -> bool
        ensures { result ≡ bytes_eq self.now other.now }
    {
        self.text.as_str() == other.text.as_str()
    }

    /// Whether both are one name.
    pub fn same(&self, other: &Identifier) -> bool
        ensures { IsTrue result ↔ (self.now ≡ other.now) }
    {
        self.is(other)
    }

    pub fn copy(&self) -> Result<Identifier, NoMemory>
        ensures { IfOk result (λ n. n ≡ self.now) }
    {
        Ok(Identifier {
            text: self.text.clone()?,
        })
    }
}

/// Equal if both are one name, wherever they lie.
impl PartialEq for Identifier {
    ghost use Rattle.round_lang.specs.Equality.{is_same, is_same_per};
    ghost use Rattle.round_lang.specs.contracts.identifier.Identifier as identifier;

    ghost eq = { is_same identifier.the_row.coded };

    ghost laws = { is_same_per identifier.the_row.coded };

    fn eq(&self, other: &Identifier) -> bool {
        self.same(other)
    }
}

impl Eq for Identifier {
    ghost use Rattle.round_lang.specs.Equality.{is_same_equiv};
    ghost use Rattle.round_lang.specs.contracts.identifier.Identifier as identifier;

    ghost laws = { is_same_equiv identifier.the_row.coded };
}

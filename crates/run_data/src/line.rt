//! The text of a line that is being made.
ghost use Rattle.std.specs.Prelude.{◌≡◌, ◌++◌, ◌∷◌, [], OnOk, length};
ghost use Rattle.std.specs.Fmt.{decimal};
ghost use Rattle.json.specs.Print.{quoted};
ghost use Rattle.round_lang.specs.Sets.{members};
ghost use Rattle.serde_json.specs.Data.{boolean};
ghost use Rattle.serde_json.specs.Written.{comma_if, compact_text};
ghost use Rattle.run_data.specs.Objects.{numbers_data};

use itoa::Buffer;
use round_lang::{Identifier, ValueSet};
use std::alloc::{AllocError, Global};
use std::marker::Model;

/// The bytes of a line; contracts see the list of them. If there is no room for what is pushed, the
/// line has a beginning of it at most.
#[derive(Drop)]
pub(crate) struct Line {
    bytes: Vec<u8>,
}

impl Model for Line {
    ghost use Rattle.std.specs.Prelude.{List, ℕ};

    ghost Value = { List ℕ };

    ghost view = { λ l. l.bytes.items };
}

impl Line {
    pub(crate) fn new(alloc: Global) -> Line
        ensures { result ≡ [] }
    {
        Line {
            bytes: Vec::new(alloc),
        }
    }

    pub(crate) fn clear(&mut self)
        ensures { self.new ≡ [] }
    {
        self.bytes.clear();
    }

    pub(crate) fn as_slice(&self) -> &[u8]
        ensures { result.now ≡ self.now }
    {
        self.bytes.as_slice()
    }

    /// How many bytes there are.
    pub(crate) fn len(&self) -> usize
        ensures { result ≡ length self.now }
    {
        self.bytes.len()
    }

    pub(crate) fn push(&mut self, byte: u8) -> Result<(), AllocError>
        ensures { OnOk result (self.new ≡ self.old ++ byte ∷ []) }
    {
        Ok(self.bytes.push(byte)?)
    }

    pub(crate) fn push_all(&mut self, text: &[u8]) -> Result<(), AllocError>
        ensures { OnOk result (self.new ≡ self.old ++ text.now) }
    {
        self.bytes.extend_from_slice(text)
    }

    /// A number's digits.
    pub(crate) fn push_number(&mut self, number: u64) -> Result<(), AllocError>
        ensures { OnOk result (self.new ≡ self.old ++ decimal number) }
    {
        let mut digits = Buffer::new();
        self.push_all(digits.format(number).as_bytes())
    }

    /// A comma, if something stands before.
    pub(crate) fn push_comma_if(&mut self, is_later: bool) -> Result<(), AllocError>
        ensures { OnOk result (self.new ≡ self.old ++ comma_if is_later) }
    {
        if is_later {
            return self.push(b',');
        }
        Ok(())
    }

    /// A name as the name of a field: in quotes, with its colon.
    pub(crate) fn push_name(&mut self, name: &Identifier) -> Result<(), AllocError>
        ensures { OnOk result (self.new ≡ self.old ++ (quoted name.now ++ 58 ∷ [])) }
    {
        self.push(b'"')?;
        self.push_all(name.as_str().as_bytes())?;
        self.push_all(b"\":")
    }

    /// A number as the name of a field.
    pub(crate) fn push_number_name(&mut self, number: u64) -> Result<(), AllocError>
        ensures { OnOk result (self.new ≡ self.old ++ (quoted (decimal number) ++ 58 ∷ [])) }
    {
        self.push(b'"')?;
        self.push_number(number)?;
        self.push_all(b"\":")
    }

    /// The members of a set in rising order, as an array.
    pub(crate) fn push_set(&mut self, set: ValueSet) -> Result<(), AllocError>
        ensures { OnOk result
            (self.new ≡ self.old ++ compact_text (numbers_data (members set.bits))) }
    {
        self.push(b'[')?;
        let mut is_later = false;
        for value in 0..64 {
            if set.has(64, value) {
                self.push_item(is_later, value)?;
                is_later = true;
            }
        }
        self.push(b']')
    }

    /// A number in a list, behind a comma if it's a later one.
    pub(crate) fn push_item(&mut self, is_later: bool, number: u32) -> Result<(), AllocError>
        ensures { OnOk result (self.new ≡ self.old ++ (comma_if is_later ++ decimal number)) }
    {
        self.push_comma_if(is_later)?;
        self.push_number(u64::from(number))
    }

    /// A truth value.
    pub(crate) fn push_flag(&mut self, flag: bool) -> Result<(), AllocError>
        ensures { OnOk result (self.new ≡ self.old ++ compact_text (boolean flag)) }
    {
        self.push_all(if flag { b"true" } else { b"false" })
    }

    /// A label and a number behind it.
    pub(crate) fn push_labelled(&mut self, label: &[u8], number: u64) -> Result<(), AllocError>
        ensures { OnOk result (self.new ≡ self.old ++ (label.now ++ decimal number)) }
    {
        self.push_all(label)?;
        self.push_number(number)
    }

    /// A label and the members of a set behind it.
    pub(crate) fn push_labelled_set(
        &mut self,
        label: &[u8],
        set: ValueSet,
    ) -> Result<(), AllocError>
        ensures { OnOk result (self.new ≡ self.old
            ++ (label.now ++ compact_text (numbers_data (members set.bits)))) }
    {
        self.push_all(label)?;
        self.push_set(set)
    }
}

//! What a program does in one round of its period.
ghost use Rattle.std.specs.Prelude.{◌≡◌, ◌≤◌, ◌↔◌, IsTrue, length, vec_len};
ghost use Rattle.round_lang.specs.Limits.{max_fields};

use crate::equal::same_parts;
use crate::expr::Ty;
use crate::formula::Formula;
use crate::identifier::Identifier;
use std::marker::Model;

/// A field of a message.
#[derive(PartialEq, Eq, Drop, Debug)]
pub struct Field {
    pub name: Identifier,
    pub ty: Ty,
}

/// `target := formula;`
#[derive(PartialEq, Eq, Drop, Debug)]
pub struct Assignment {
    pub target: Identifier,
    pub formula: Formula,
}

/// `at N:`, with the message's fields, when and what a node sends, and what it does with a message
/// and at the end of the round. It has at most 8 fields.
#[derive(Drop, Debug)]
pub struct Block {
    number: u32,
    fields: Vec<Field>,
    condition: Formula,
    sent: Vec<Formula>,
    on_message: Vec<Assignment>,
    end: Vec<Assignment>,
}

impl Model for Block {
    ghost use Rattle.std.specs.Prelude.{◌≤◌, vec_len};
    ghost use Rattle.round_lang.specs.Syntax.{BlockTree};
    ghost use Rattle.round_lang.specs.Limits.{max_fields};
    ghost use Rattle.round_lang.specs.contracts.formula.Formula as formula;
    ghost use Rattle.std.specs.Coded.{codes};

    ghost Value = { BlockTree };

    ghost coded = { Prim.hlevel (codes, formula.the_row.coded) };

    ghost view = { λ b. record {
      number = b.number;
      fields = b.fields.items;
      condition = b.condition;
      sent = b.sent.items;
      on_message = b.on_message.items;
      end = b.end.items;
    } };

    ghost invariant = { λ b. vec_len b.fields ≤ max_fields };
}

impl Block {
    ghost use Rattle.round_lang.specs.Syntax.{BlockTree};

    pub fn new(
        number: u32,
        fields: Vec<Field>,
        condition: Formula,
        sent: Vec<Formula>,
        on_message: Vec<Assignment>,
        end: Vec<Assignment>,
    ) -> Block
        requires { vec_len fields ≤ max_fields }
        ensures { result ≡ record {
          number = number;
          fields = fields.items;
          condition = condition;
          sent = sent.items;
          on_message = on_message.items;
          end = end.items;
        } }
    {
        Block {
            number,
            fields,
            condition,
            sent,
            on_message,
            end,
        }
    }

    /// The number after `at`.
    pub fn number(&self) -> u32
        ensures { result ≡ self.now.number }
    {
        self.number
    }

    /// The message's fields, in order.
    pub fn fields(&self) -> &[Field]
        ensures fields { result.now ≡ self.now.fields }
        ensures few { length result.now ≤ max_fields }
    {
        &self.fields
    }

    /// The condition after `send when`.
    pub fn condition(&self) -> &Formula
        ensures { result.now ≡ self.now.condition }
    {
        &self.condition
    }

    /// What is sent, a formula for each field.
    pub fn sent(&self) -> &[Formula]
        ensures { result.now ≡ self.now.sent }
    {
        &self.sent
    }

    /// What is done with each message.
    pub fn on_message(&self) -> &[Assignment]
        ensures { result.now ≡ self.now.on_message }
    {
        &self.on_message
    }

    /// What is done after the messages.
    pub fn end(&self) -> &[Assignment]
        ensures { result.now ≡ self.now.end }
    {
        &self.end
    }

    /// Whether both are one block.
    pub fn same(&self, other: &Block) -> bool
        ensures { IsTrue result ↔ (self.now ≡ other.now) }
    {
        self.number == other.number
            && same_parts(&self.fields, &other.fields)
            && self.condition.same(&other.condition)
            && same_parts(&self.sent, &other.sent)
            && same_parts(&self.on_message, &other.on_message)
            && same_parts(&self.end, &other.end)
    }
}

/// Equal if both are one block, wherever they lie.
impl PartialEq for Block {
    ghost use Rattle.round_lang.specs.Equality.{is_same, is_same_per};
    ghost use Rattle.round_lang.specs.contracts.block.Block as block;

    ghost eq = { is_same block.the_row.coded };

    ghost laws = { is_same_per block.the_row.coded };

    fn eq(&self, other: &Block) -> bool {
        self.same(other)
    }
}

impl Eq for Block {
    ghost use Rattle.round_lang.specs.Equality.{is_same_equiv};
    ghost use Rattle.round_lang.specs.contracts.block.Block as block;

    ghost laws = { is_same_equiv block.the_row.coded };
}

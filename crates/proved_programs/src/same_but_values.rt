//! Whether two programs are the same but for their number of values.
ghost use Rattle.std.specs.Prelude.{◌≡◌, ◌↔◌, IsTrue};
ghost use Rattle.proved_programs.specs.Proved.{with_values};

use round_lang::{Block, Identifier, Program, Variable};

/// A part of a program, which can be compared with another one.
trait Part {
    fn is_same(&self, other: &Self) -> bool
        ensures { IsTrue result ↔ (self.now ≡ other.now) };
}

impl Part for Identifier {
    fn is_same(&self, other: &Identifier) -> bool {
        self.same(other)
    }
}

impl Part for Variable {
    fn is_same(&self, other: &Variable) -> bool {
        self.same(other)
    }
}

impl Part for Block {
    fn is_same(&self, other: &Block) -> bool {
        self.same(other)
    }
}

/// Whether both lists have the same parts in the same order.
fn are_same<T: Part>(one: &[T], other: &[T]) -> bool
    ensures { IsTrue result ↔ (one.now ≡ other.now) }
{
    match (one, other) {
        ([], []) => true,
        ([a, one @ ..], [b, other @ ..]) => a.is_same(b) && are_same(one, other),
        _ => false,
    }
}

/// Whether the programs are the same but for their number of values.
pub(crate) fn same_but_values(one: &Program, other: &Program) -> bool
    ensures { IsTrue result ↔ (one.now ≡ with_values other.now one.now.values) }
{
    one.period() == other.period()
        && are_same(one.variables(), other.variables())
        && are_same(one.decides(), other.decides())
        && are_same(one.blocks(), other.blocks())
}

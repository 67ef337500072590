//! The members of sets as text.
ghost use Rattle.std.specs.Prelude.{◌≡◌, ◌+◌, ◌≤◌, ◌++◌, length};
ghost use Rattle.round_lang.specs.Sets.{members};
ghost use Rattle.omission_explainer.specs.Report.{numbers_text};
ghost use Rattle.short_text.specs.Short.{room};

use round_lang::ValueSet;
use short_text::{ShortText, push_digits};
use std::marker::Model;

/// A set and the text of its members, kept since the next set that is written is mostly the same.
/// Contracts see the set.
#[derive(Drop)]
pub(crate) struct SpeltSet {
    set: ValueSet,
    text: ShortText,
}

impl Model for SpeltSet {
    ghost use Rattle.std.specs.Prelude.{ℕ};
    ghost use Rattle.omission_explainer.specs.Short.{ListsMembers};

    ghost Value = { ℕ };

    ghost view = { λ s. s.set.bits };

    ghost invariant = { λ s. ListsMembers s.text s.set.bits };
}

impl SpeltSet {
    pub(crate) fn new() -> SpeltSet
        ensures { result ≡ 0 }
    {
        SpeltSet {
            set: ValueSet::empty(),
            text: ShortText::new(),
        }
    }

    /// Appends the members of a set in rising order with commas. They are spelt anew only if the
    /// set is another than the last one.
    pub(crate) fn push_members(&mut self, set: ValueSet, text: &mut ShortText)
        requires { length text.old + 192 ≤ room }
        ensures text { text.new ≡ text.old ++ numbers_text (members set.bits) }
        ensures short { length text.new ≤ length text.old + 192 }
    {
        self.spell(set);
        text.push_all(self.text.as_slice());
    }

    /// Makes this the text of a set.
    fn spell(&mut self, set: ValueSet)
        ensures { self.new ≡ set.bits }
    {
        if set.bits != self.set.bits {
            self.text.clear();
            push_members(set, &mut self.text);
            self.set = set;
        }
    }
}

/// Appends the members in rising order with commas.
fn push_members(set: ValueSet, text: &mut ShortText)
    requires { length text.old + 192 ≤ room }
    ensures text { text.new ≡ text.old ++ numbers_text (members set.bits) }
    ensures short { length text.new ≤ length text.old + 192 }
{
    let mut rest = set;
    for place in 0..set.size() {
        if place > 0 {
            text.push(b',');
        }
        let member = rest.least(64);
        push_digits(member, text);
        rest = rest.minus(ValueSet::single(64, member));
    }
}

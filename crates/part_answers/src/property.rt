//! The properties that a search answers.
ghost use Rattle.std.specs.Prelude.{◌≡◌, ◌≢◌, IfNone, IfSome};
ghost use Rattle.part_answers.specs.Properties.{name_text, rank};
ghost use Rattle.part_answers.specs.declared.property.Property.{Property as PropertyValue};

/// A property of all runs, in the order in which answers tell them.
#[derive(Clone, Copy, Debug, PartialEq, Eq)]
pub enum Property {
    Agreement,
    Validity,
    Final,
    Termination,
    /// EXPR.
    Always,
}

impl Property {
    /// The word for it.
    pub fn as_str(self) -> &'static str
        ensures { result.now ≡ name_text self }
    {
        match self {
            Property::Agreement => "agreement",
            Property::Validity => "validity",
            Property::Final => "final",
            Property::Termination => "termination",
            Property::Always => "always",
        }
    }

    /// The property of a word.
    pub fn named(name: &str) -> Option<Property>
        ensures some { IfSome result (λ property. name.now ≡ name_text property) }
        ensures none { IfNone result ((p : PropertyValue) → name.now ≢ name_text p) }
    {
        if name == "agreement" {
            return Some(Property::Agreement);
        }
        if name == "validity" {
            return Some(Property::Validity);
        }
        if name == "final" {
            return Some(Property::Final);
        }
        if name == "termination" {
            return Some(Property::Termination);
        }
        if name == "always" {
            return Some(Property::Always);
        }
        None
    }

    /// How many properties come before it.
    pub(crate) fn rank(self) -> u32
        ensures { result ≡ rank self }
    {
        match self {
            Property::Agreement => 0,
            Property::Validity => 1,
            Property::Final => 2,
            Property::Termination => 3,
            Property::Always => 4,
        }
    }
}

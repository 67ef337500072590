//! A summary of decisions.
ghost use Rattle.std.specs.Prelude.{◌≡◌, Some};
ghost use Rattle.omission_explainer.specs.Decided.{with_decision};

use std::fmt;

/// What all decisions of a report come to: there is none, all are one value, or two of them differ.
#[derive(Clone, Copy, PartialEq, Eq, Debug)]
pub enum Decided {
    None,
    One(u32),
    Split,
}

impl fmt::Display for Decided {
    ghost use Rattle.omission_explainer.specs.Decided.{decided_text};

    ghost output = { λ d. Some (decided_text d) };

    fn fmt<W: fmt::Write>(&self, f: &mut fmt::Formatter<W>) -> fmt::Result {
        match self {
            Decided::None => write!(f, "-"),
            Decided::One(value) => write!(f, "{value}"),
            Decided::Split => write!(f, "split"),
        }
    }
}

impl Decided {
    /// The same with one more row's decision.
    pub(crate) fn with(self, decision: Option<u32>) -> Decided
        ensures { result ≡ with_decision self decision }
    {
        match (decision, self) {
            (None, all) => all,
            (Some(value), Decided::None) => Decided::One(value),
            (Some(value), Decided::One(first)) if value == first => self,
            (Some(_), _) => Decided::Split,
        }
    }
}

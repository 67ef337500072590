//! Where the words of values lie, told by the kinds of the values.
ghost use Rattle.std.specs.Prelude.{◌≡◌, ◌≤◌, IfOk, IfSome, IsNone, length};
ghost use Rattle.round_lang.specs.Words.{IsSpot};

use crate::kind::Kind;
use run_events::NoMemory;
use std::alloc::Global;
use std::marker::Model;

/// The kinds of values, in order, and where the words of each value begin. Contracts see the kinds.
#[derive(Drop, Debug)]
pub(crate) struct Layout {
    kinds: Vec<Kind>,
    starts: Vec<usize>,
}

impl Model for Layout {
    ghost use Rattle.std.specs.Prelude.{List};
    ghost use Rattle.round_lang.specs.declared.kind.Kind.{Kind as OneKind};
    ghost use Rattle.round_lang.specs.Words.{IsLaidOut};

    ghost Value = { List OneKind };

    ghost view = { λ l. l.kinds.items };

    ghost invariant = { λ l. IsLaidOut l.kinds.items l.starts.items };
}

impl Layout {
    /// These kinds laid out. A start that is no `usize` is kept as the greatest one: no words reach
    /// so far.
    pub(crate) fn new(alloc: Global, kinds: &[Kind]) -> Result<Layout, NoMemory>
        ensures { IfOk result (λ l. l ≡ kinds.now) }
    {
        let mut starts = Vec::with_capacity(alloc, kinds.len())?;
        let mut start: usize = 0;
        for kind in kinds {
            starts.push(start)?;
            start = start.saturating_add(kind.size());
        }
        let kinds = Vec::from_slice(alloc, kinds)?;
        Ok(Layout { kinds, starts })
    }

    /// The kinds, in order.
    pub(crate) fn kinds(&self) -> &[Kind]
        ensures { result.now ≡ self.now }
    {
        &self.kinds
    }

    /// The kind of the value at a place, and where its words begin.
    pub(crate) fn spot(&self, place: usize) -> Option<(Kind, usize)>
        ensures some { IfSome result (λ s. IsSpot self.now place s.0 s.1) }
        ensures none { IsNone result → length self.now ≤ place }
    {
        if place < self.kinds.len() {
            Some((self.kinds[place], self.starts[place]))
        } else {
            None
        }
    }
}

//! The kinds of a list of values, seen by contracts as a list.
ghost use Rattle.std.specs.Prelude.{◌≡◌, ◌≤◌, ◌↔◌, [], IfOk, IfSome, IsNone, IsTrue, length};
ghost use Rattle.round_lang.specs.Words.{IsSpot};

use crate::kind::Kind;
use crate::layout::Layout;
use run_events::NoMemory;
use std::alloc::Global;
use std::marker::Model;
use std::sync::Arc;

/// The kinds of values, in order. Copies share them, and the empty shape takes no memory.
#[derive(Drop, Debug)]
pub struct Shape {
    layout: Option<Arc<Layout>>,
}

impl Model for Shape {
    ghost use Rattle.std.specs.Prelude.{List};
    ghost use Rattle.round_lang.specs.declared.kind.Kind.{Kind as OneKind};
    ghost use Rattle.round_lang.specs.Shapes.{kinds_in};

    ghost Value = { List OneKind };

    ghost view = { λ s. kinds_in s.layout };
}

impl Shape {
    /// The shape of no values.
    pub fn empty() -> Shape
        ensures { result ≡ [] }
    {
        Shape { layout: None }
    }

    pub fn new(alloc: Global, kinds: &[Kind]) -> Result<Shape, NoMemory>
        ensures { IfOk result (λ s. s ≡ kinds.now) }
    {
        if kinds.is_empty() {
            return Ok(Shape::empty());
        }
        let layout = Layout::new(alloc, kinds)?;
        Ok(Shape {
            layout: Some(Arc::new(alloc, layout)?),
        })
    }

    /// The kinds, in order.
    pub fn kinds(&self) -> &[Kind]
        ensures { result.now ≡ self.now }
    {
        match &self.layout {
            Some(layout) => layout.kinds(),
            None => &[],
        }
    }

    /// The kind of the value at a place, and where its words begin.
    pub(crate) fn spot(&self, place: usize) -> Option<(Kind, usize)>
        ensures some { IfSome result (λ s. IsSpot self.now place s.0 s.1) }
        ensures none { IsNone result → length self.now ≤ place }
    {
        match &self.layout {
            Some(layout) => layout.spot(place),
            None => None,
        }
    }

    /// The same shape; its kinds are shared.
    pub fn copy(&self) -> Result<Shape, NoMemory>
        ensures { IfOk result (λ s. s ≡ self.now) }
    {
        match &self.layout {
            Some(layout) => Ok(Shape {
                layout: Some(Arc::try_clone(layout)?),
            }),
            None => Ok(Shape::empty()),
        }
    }

    /// Whether these are the kinds, in order.
    pub fn is(&self, kinds: &[Kind]) -> bool
        ensures { IsTrue result ↔ (self.now ≡ kinds.now) }
    {
        self.kinds() == kinds
    }

    /// How many lists of values and shapes share these kinds, this one among them; none share
    /// those of no values.
    pub fn owners(&self) -> usize {
        match &self.layout {
            Some(layout) => Arc::strong_count(layout),
            None => 0,
        }
    }
}

//! Places of a table whose frames are all gone.
ghost use Rattle.std.specs.Prelude.{◌≡◌, [], All, None};

use std::alloc::Global;
use std::mem;
use step_machine::FramePlace;

/// Places without frames, kept for the next round of a node that begins: if its rounds follow
/// each other, none takes memory anew.
#[derive(Drop)]
pub(crate) struct SparePlaces {
    places: Vec<FramePlace>,
    ghost free: { All (λ place. place ≡ None) places.items },
}

impl SparePlaces {
    /// No places; takes no memory.
    pub(crate) fn new(alloc: Global) -> SparePlaces {
        SparePlaces {
            places: Vec::new(alloc),
        }
    }

    /// Keeps places without frames. Those that were kept before are given back.
    pub(crate) fn keep(&mut self, places: Vec<FramePlace>)
        requires { All (λ place. place ≡ None) places.items }
    {
        *self = SparePlaces { places };
    }

    /// Gives a table without places those that are kept, if there are any.
    pub(crate) fn give(&mut self, table: &mut Vec<FramePlace>)
        requires { table.old.items ≡ [] }
        ensures { All (λ place. place ≡ None) table.new.items }
    {
        mem::swap(&mut self.places, table);
    }
}

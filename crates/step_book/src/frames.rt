//! Frames that are taken one by one.
ghost use Rattle.std.specs.Prelude.{◌≡◌, ◌∷◌, [], MatchOption};
ghost use Rattle.step_book.specs.Pieces.{AreFull, joined, left};

use std::alloc::Global;
use std::marker::Model;
use std::mem;
use std::vec::IntoIter;
use step_machine::Sealed;

/// The frames that a receive took, in the order of their releases: the rest of a piece, the full
/// pieces behind it, and the last.
#[derive(Drop)]
pub struct Frames {
    piece: IntoIter<Sealed>,
    full: IntoIter<Vec<Sealed>>,
    last: IntoIter<Sealed>,
}

impl Model for Frames {
    ghost use Rattle.std.specs.Prelude.{List};
    ghost use Rattle.step_machine.specs.Sealed.{Frame};
    ghost use Rattle.step_book.specs.Pieces.{AreFull, left};

    ghost Value = { List Frame };

    ghost view = { λ f. left f.piece.rest.items f.full.rest.items f.last.rest.items };

    ghost invariant = { λ f. AreFull 16 f.full.rest.items };
}

impl Frames {
    /// The frames of full pieces, and of the last.
    #[inline(always)]
    pub(crate) fn new(alloc: Global, full: Vec<Vec<Sealed>>, last: Vec<Sealed>) -> Frames
        requires { AreFull 16 full.items }
        ensures { result ≡ joined full.items last.items }
    {
        Frames {
            piece: Vec::new(alloc).into_iter(),
            full: full.into_iter(),
            last: last.into_iter(),
        }
    }

    /// Takes the next frame.
    #[inline(always)]
    pub fn next(&mut self) -> Option<Sealed>
        ensures { MatchOption result ((self.old ≡ []) × (self.new ≡ []))
            (λ frame. self.old ≡ frame ∷ self.new) }
    {
        if let Some(frame) = self.piece.next() {
            return Some(frame);
        }
        turn(&mut self.piece, &mut self.full, &mut self.last);
        self.piece.next()
    }
}

/// Goes on to the next piece, behind one that is at its end.
fn turn(piece: &mut IntoIter<Sealed>, full: &mut IntoIter<Vec<Sealed>>, last: &mut IntoIter<Sealed>)
    requires end { piece.old.rest.items ≡ [] }
    requires full { AreFull 16 full.old.rest.items }
    ensures same { left piece.new.rest.items full.new.rest.items last.new.rest.items
        ≡ left piece.old.rest.items full.old.rest.items last.old.rest.items }
    ensures full { AreFull 16 full.new.rest.items }
    ensures end { piece.new.rest.items ≡ []
        → left piece.new.rest.items full.new.rest.items last.new.rest.items ≡ [] }
{
    match full.next() {
        Some(next) => *piece = next.into_iter(),
        None => mem::swap(piece, last),
    }
}

//! Places for messages on their way.
ghost use Rattle.std.specs.Prelude.{◌≡◌, ◌↔◌, IsTrue, MatchOption, None, Some};

use crate::said::Said;
use crate::sealed::Sealed;
use crate::sealed_view::SealedView;
use std::marker::Model;
use std::mem;
use std::sync::Arc;

/// A place for a message on its way. It takes 16 bytes, where an `Option<Sealed>` takes 24.
#[derive(Drop)]
pub struct FramePlace {
    kept: Kept,
}

/// What is kept at a place: nothing, or the frame that lies from there on.
#[derive(Drop)]
enum Kept {
    Nothing,
    Frame(u32, Arc<Said>),
}

impl Model for FramePlace {
    ghost use Rattle.std.specs.Prelude.{Option};
    ghost use Rattle.step_machine.specs.Sealed.{Frame};
    ghost use Rattle.step_machine.specs.Keeping.{kept_as, IsKeeping};

    ghost Value = { Option Frame };

    ghost view = { λ p. kept_as p.kept };

    ghost invariant = { λ p. IsKeeping p.kept };
}

impl FramePlace {
    /// A place with no message.
    #[inline(always)]
    pub fn free() -> FramePlace
        ensures { result ≡ None }
    {
        FramePlace {
            kept: Kept::Nothing,
        }
    }

    /// A place with a message.
    #[inline(always)]
    pub fn of(frame: Sealed) -> FramePlace
        ensures { result ≡ Some frame }
    {
        let Sealed { said, first } = frame;
        FramePlace {
            kept: Kept::Frame(first, said),
        }
    }

    /// Whether there is no message.
    pub fn is_free(&self) -> bool
        ensures { IsTrue result ↔ (self.now ≡ None) }
    {
        match &self.kept {
            Kept::Nothing => true,
            Kept::Frame(_, _) => false,
        }
    }

    /// The message, if there is one.
    pub fn frame(&self) -> Option<SealedView<'_>>
        ensures { result ≡ self.now }
    {
        match &self.kept {
            Kept::Nothing => None,
            Kept::Frame(first, said) => Some(SealedView::new(said, *first)),
        }
    }

    /// Takes the message away.
    #[inline(always)]
    pub fn take(&mut self) -> Option<Sealed>
        ensures taken { result ≡ self.old }
        ensures free { self.new ≡ None }
    {
        match mem::replace(&mut self.kept, Kept::Nothing) {
            Kept::Nothing => None,
            Kept::Frame(first, said) => Some(Sealed::new(said, first)),
        }
    }
}

//! Messages on their way, as they are seen in their places.
ghost use Rattle.std.specs.Prelude.{◌≡◌, ◌≤◌, IfOk};
ghost use Rattle.step_machine.specs.Framing.{wire};
ghost use Rattle.step_machine.specs.Saying.{frame_from, IsFrameFrom};
ghost use Rattle.run_events.specs.Limits.{max_copy};
ghost use Rattle.step_machine.specs.Sealed.{copied_as};

use crate::said::Said;
use crate::sealed::{Sealed, alone};
use frame_format::{copy_of, from_of, round_of, spelled_is_read, to_of};
use frame_views::{FrameView, write_copy};
use round_lang::Vars;
use run_events::{Name, NoMemory};
use std::marker::Model;
use std::sync::Arc;

/// A message on its way, which others own.
#[derive(Drop)]
pub struct SealedView<'a> {
    said: &'a Said,
    first: u32,
}

impl<'a> Model for SealedView<'a> {
    ghost use Rattle.step_machine.specs.Sealed.{Frame};
    ghost use Rattle.step_machine.specs.Saying.{frame_from, IsFrameFrom};

    ghost Value = { Frame };

    ghost view = { λ s. frame_from s.said.now s.first };

    ghost invariant = { λ s. IsFrameFrom s.said.now s.first };
}

impl<'a> SealedView<'a> {
    /// The frame that lies from a place on.
    #[inline(always)]
    pub(crate) fn new(said: &'a Said, first: u32) -> SealedView<'a>
        requires { IsFrameFrom said.now first }
        ensures { result ≡ frame_from said.now first }
    {
        SealedView { said, first }
    }

    #[inline(always)]
    pub fn name(&self) -> Name
        ensures { result ≡ self.now.name }
    {
        let bytes = self.said.part(self.first as usize);
        Name {
            from: from_of(bytes),
            to: to_of(bytes),
            round: round_of(bytes),
            copy: copy_of(bytes),
        }
    }

    /// The state that its sender was in.
    #[inline(always)]
    pub fn state(&self) -> &'a Vars
        ensures { result.now ≡ self.now.state }
    {
        let said = self.said;
        &said.origin.state
    }

    /// The frame, where it lies: it has the message's name and its fields.
    pub fn view(&self) -> FrameView<'a>
        ensures { result ≡ wire self.now }
    {
        let said = self.said;
        FrameView::over(&said.origin.layout, said.part(self.first as usize))
    }

    /// The same message as another copy, 0 to 3, in memory of its own; the state is shared.
    pub fn copied(&self, copy: u32) -> Result<Sealed, NoMemory>
        requires { copy ≤ max_copy }
        ensures { IfOk result (λ frame. frame ≡ copied_as copy self.now) }
    {
        let origin = Arc::try_clone(&self.said.origin)?;
        spelled_is_read(&origin.layout);
        let mut frames = Vec::from_slice(origin.alloc, self.said.part(self.first as usize))?;
        write_copy(copy, &mut frames);
        alone(origin, frames)
    }
}

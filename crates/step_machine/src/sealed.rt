//! Messages on their way.
ghost use Rattle.std.specs.Arc.{arc_value};
ghost use Rattle.std.specs.Prelude.{◌≡◌, ◌<◌, ◌≤◌, IfOk, map};
ghost use Rattle.round_lang.specs.Words.{kind_of};
ghost use Rattle.frame_format.specs.Formats.{kinds_at};
ghost use Rattle.frame_format.specs.Spelling.{AreOf};
ghost use Rattle.run_events.specs.Limits.{max_copy, max_rounds};
ghost use Rattle.step_machine.specs.Framing.{frame_in, wire, IsSealed, IsSpelling};
ghost use Rattle.step_machine.specs.Saying.{frame_from, layout_in, IsFrameFrom};

use crate::origin::Origin;
use crate::said::Said;
use crate::sealed_view::SealedView;
use frame_format::{FrameVersion, spelled_is_read};
use frame_views::{FieldsView, FrameView, write_frame};
use round_lang::{Kind, Message, Vars};
use run_events::{Name, NoMemory};
use std::marker::Model;
use std::sync::Arc;

/// A message as the bytes of its frame, which name it, with the state that its sender was in. Both
/// are shared: one state sends many messages, and the frames that say the same to all lie in one
/// piece of memory, each from its place on.
#[derive(Drop)]
pub struct Sealed {
    pub(crate) said: Arc<Said>,
    pub(crate) first: u32,
}

impl Model for Sealed {
    ghost use Rattle.std.specs.Arc.{arc_value};
    ghost use Rattle.step_machine.specs.Sealed.{Frame};
    ghost use Rattle.step_machine.specs.Saying.{frame_from, IsFrameFrom};

    ghost Value = { Frame };

    ghost view = { λ s. frame_from (arc_value s.said) s.first };

    ghost invariant = { λ s. IsFrameFrom (arc_value s.said) s.first };
}

impl Sealed {
    ghost use Rattle.std.specs.Arc.{arc_value};
    ghost use Rattle.step_machine.specs.Sealed.{copied_as};

    /// The frame that lies from a place on.
    #[inline(always)]
    pub(crate) fn new(said: Arc<Said>, first: u32) -> Sealed
        requires { IsFrameFrom (arc_value said) first }
        ensures { result ≡ frame_from (arc_value said) first }
    {
        Sealed { said, first }
    }

    /// A message under its name, as a frame of its own.
    pub(crate) fn written(
        origin: Arc<Origin>,
        name: Name,
        message: &Message,
    ) -> Result<Sealed, NoMemory>
        requires from { name.from < (layout_in (arc_value origin)).nodes }
        requires to { name.to < (layout_in (arc_value origin)).nodes }
        requires first { 1 ≤ name.round }
        requires last { name.round ≤ max_rounds }
        requires copy { name.copy ≤ max_copy }
        requires kinds { AreOf (layout_in (arc_value origin)).values
            (kinds_at (layout_in (arc_value origin)) name.round) message.now }
        ensures { IfOk result (λ frame. frame ≡ record {
          format = layout_in (arc_value origin);
          name = name;
          state = (arc_value origin).state;
          message = message.now;
        }) }
    {
        let Name {
            from,
            to,
            round,
            copy,
        } = name;
        spelled_is_read(&origin.layout);
        let size = origin.layout.len(round);
        let mut frames = vec![in origin.alloc; 0u8; size]?;
        write_frame(&origin.layout, from, to, round, copy, message, &mut frames);
        alone(origin, frames)
    }

    /// The same message as another copy, 0 to 3; the state is shared.
    pub fn copied(&self, copy: u32) -> Result<Sealed, NoMemory>
        requires { copy ≤ max_copy }
        ensures { IfOk result (λ frame. frame ≡ copied_as copy self.now) }
    {
        self.seen().copied(copy)
    }

    /// The message, as it is seen where it lies.
    #[inline(always)]
    pub fn seen(&self) -> SealedView<'_>
        ensures { result ≡ self.now }
    {
        SealedView::new(&self.said, self.first)
    }

    #[inline(always)]
    pub fn name(&self) -> Name
        ensures { result ≡ self.now.name }
    {
        self.seen().name()
    }

    /// The state that its sender was in.
    #[inline(always)]
    pub fn state(&self) -> &Vars
        ensures { result.now ≡ self.now.state }
    {
        self.seen().state()
    }

    /// The frame, where it lies: it has the message's name and its fields.
    pub fn view(&self) -> FrameView<'_>
        ensures { result ≡ wire self.now }
    {
        self.seen().view()
    }

    /// The fields of its message, where they lie; their kinds are known.
    #[inline(always)]
    pub(crate) fn fields_of<'a>(&'a self, kinds: &'a [Kind]) -> FieldsView<'a, 'a>
        requires { map kind_of self.now.message ≡ kinds.now }
        ensures { result ≡ self.now.message }
    {
        self.said.origin.layout.lawful();
        let bytes = self.said.part(self.first as usize);
        FieldsView::over(kinds, &bytes[FrameVersion::V2.header_size()..])
    }

    /// The frame's bytes.
    #[inline(always)]
    pub fn bytes(&self) -> &[u8]
        ensures { IsSpelling self.now result.now }
    {
        self.said.part(self.first as usize)
    }
}

/// A frame that shares its memory with no other.
pub(crate) fn alone(origin: Arc<Origin>, frames: Vec<u8>) -> Result<Sealed, NoMemory>
    requires { IsSealed (layout_in (arc_value origin)) frames.items }
    ensures { IfOk result (λ frame. frame
        ≡ frame_in (layout_in (arc_value origin)) (arc_value origin).state frames.items) }
{
    let alloc = origin.alloc;
    let said = Said {
        origin,
        size: frames.len(),
        frames,
    };
    let said = Arc::new(alloc, said)?;
    Ok(Sealed::new(said, 0))
}

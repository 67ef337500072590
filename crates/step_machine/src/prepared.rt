//! What a node has ready for a send slot.
ghost use Rattle.std.specs.Arc.{arc_value};
ghost use Rattle.std.specs.Option.{ForSome};
ghost use Rattle.std.specs.Prelude.{◌≡◌, ◌↔◌, ◌<◌, ◌≤◌, IfOk, IsTrue, None, Some};
ghost use Rattle.run_events.specs.Limits.{max_rounds};
ghost use Rattle.frame_format.specs.Formats.{kinds_at};
ghost use Rattle.frame_format.specs.Spelling.{AreOf};
ghost use Rattle.step_machine.specs.Saying.{layout_in};

use crate::origin::Origin;
use crate::sealed::Sealed;
use round_lang::{Message, Vars};
use run_events::{Name, NoMemory};
use std::marker::Model;
use std::sync::Arc;

/// What a node has ready for a send slot: the message to the slot's node, or silence, and its
/// state.
#[derive(Drop)]
pub struct Prepared {
    name: Name,
    sending: Sending,
}

/// A message, or silence in a state.
#[derive(Drop)]
enum Sending {
    Message(Sealed),
    Silence(Arc<Origin>),
}

impl Model for Prepared {
    ghost use Rattle.step_machine.specs.Sealed.{Ready};
    ghost use Rattle.step_machine.specs.Preparing.{ready_as, IsReady};

    ghost Value = { Ready };

    ghost view = { λ p. ready_as p.name p.sending };

    ghost invariant = { λ p. IsReady p.name p.sending };
}

impl Prepared {
    ghost use Rattle.step_machine.specs.Sealed.{frame_of};

    /// A message or silence under its name, which is that of a copy 0.
    pub(crate) fn new(
        name: Name,
        origin: Arc<Origin>,
        message: Option<Message>,
    ) -> Result<Prepared, NoMemory>
        requires from { name.from < (layout_in (arc_value origin)).nodes }
        requires to { name.to < (layout_in (arc_value origin)).nodes }
        requires first { 1 ≤ name.round }
        requires last { name.round ≤ max_rounds }
        requires original { name.copy ≡ 0 }
        requires kinds { ForSome message (AreOf (layout_in (arc_value origin)).values
            (kinds_at (layout_in (arc_value origin)) name.round)) }
        ensures { IfOk result (λ p. p ≡ record {
          format = layout_in (arc_value origin);
          name = name;
          state = (arc_value origin).state;
          message = message;
        }) }
    {
        let Some(message) = message else {
            return Ok(Prepared::silent(name, origin));
        };
        let frame = Sealed::written(origin, name, &message)?;
        Ok(Prepared::message(name, frame))
    }

    #[inline(always)]
    pub(crate) fn message(name: Name, frame: Sealed) -> Prepared
        requires original { name.copy ≡ 0 }
        requires named { frame.name ≡ name }
        ensures { result ≡ record {
          format = frame.format;
          name = name;
          state = frame.state;
          message = Some frame.message;
        } }
    {
        Prepared {
            name,
            sending: Sending::Message(frame),
        }
    }

    pub(crate) fn silent(name: Name, origin: Arc<Origin>) -> Prepared
        requires original { name.copy ≡ 0 }
        ensures { result ≡ record {
          format = layout_in (arc_value origin);
          name = name;
          state = (arc_value origin).state;
          message = None;
        } }
    {
        Prepared {
            name,
            sending: Sending::Silence(origin),
        }
    }

    /// The name that the message has, or would have: its copy 0.
    #[inline(always)]
    pub fn name(&self) -> Name
        ensures value { result ≡ self.now.name }
        ensures original { result.copy ≡ 0 }
    {
        self.name
    }

    /// The state that it was prepared in.
    #[inline(always)]
    pub fn state(&self) -> &Vars
        ensures { result.now ≡ self.now.state }
    {
        match &self.sending {
            Sending::Message(frame) => frame.state(),
            Sending::Silence(origin) => &origin.state,
        }
    }

    /// Whether there is no message.
    #[inline(always)]
    pub fn is_silent(&self) -> bool
        ensures { IsTrue result ↔ (self.now.message ≡ None) }
    {
        match &self.sending {
            Sending::Message(_) => false,
            Sending::Silence(_) => true,
        }
    }

    /// The message under its name, if there is one.
    #[inline(always)]
    pub fn into_sealed(self) -> Option<Sealed>
        ensures { result ≡ frame_of self }
    {
        match self.sending {
            Sending::Message(frame) => Some(frame),
            Sending::Silence(_) => None,
        }
    }
}

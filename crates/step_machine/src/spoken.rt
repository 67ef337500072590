//! What a node says to all.
ghost use Rattle.std.specs.Arc.{arc_value};
ghost use Rattle.std.specs.Option.{ForSome};
ghost use Rattle.std.specs.Prelude.{◌≡◌, ◌<◌, ◌≤◌, IfOk, List, Option};
ghost use Rattle.run_events.specs.Limits.{max_rounds};
ghost use Rattle.round_lang.specs.declared.value.Value.{Value};
ghost use Rattle.frame_format.specs.Formats.{kinds_at};
ghost use Rattle.frame_format.specs.Spelling.{AreOf};
ghost use Rattle.step_machine.specs.Saying.{layout_in, origin_of, AreSpoken};

use crate::origin::Origin;
use crate::prepared::Prepared;
use crate::said::Said;
use crate::sealed::Sealed;
use frame_format::spelled_is_read;
use round_lang::Message;
use run_events::{Name, NoMemory};
use std::sync::Arc;

/// What a node says to all in a round: the frames of its message to each node, or silence.
#[derive(Drop)]
pub(crate) enum Spoken {
    Frames(Arc<Said>),
    Silence(Arc<Origin>),
}

impl Spoken {
    pub(crate) fn new(
        origin: Arc<Origin>,
        from: u32,
        round: u32,
        message: Option<Message>,
    ) -> Result<Spoken, NoMemory>
        requires from { from < (layout_in (arc_value origin)).nodes }
        requires first { 1 ≤ round }
        requires last { round ≤ max_rounds }
        requires kinds { ForSome message (AreOf (layout_in (arc_value origin)).values
            (kinds_at (layout_in (arc_value origin)) round)) }
        ensures origin { IfOk result (λ spoken. origin_of spoken ≡ arc_value origin) }
        ensures spoken { IfOk result (AreSpoken from round message) }
    {
        let Some(message) = message else {
            return Ok(Spoken::Silence(origin));
        };
        let alloc = origin.alloc;
        let said = Said::to_all(origin, from, round, &message)?;
        let said = Arc::new(alloc, said)?;
        Ok(Spoken::Frames(said))
    }

    /// What is said to one of the nodes.
    #[inline(always)]
    pub(crate) fn prepared(&self, name: Name) -> Result<Prepared, NoMemory>
        requires spoken { (message : Option (List Value))
            × AreSpoken name.from name.round message self.now }
        requires to { name.to < (layout_in (origin_of self.now)).nodes }
        requires original { name.copy ≡ 0 }
        ensures { (message : Option (List Value))
            → AreSpoken name.from name.round message self.now
            → IfOk result (λ p. p ≡ record {
              format = layout_in (origin_of self.now);
              name = name;
              state = (origin_of self.now).state;
              message = message;
            }) }
    {
        match self {
            Spoken::Silence(origin) => Ok(Prepared::silent(name, Arc::try_clone(origin)?)),
            Spoken::Frames(said) => {
                spelled_is_read(&said.origin.layout);
                said.origin.layout.lawful();
                let first = (name.to as usize * said.size) as u32;
                let frame = Sealed::new(Arc::try_clone(said)?, first);
                Ok(Prepared::message(name, frame))
            }
        }
    }
}

//! What nodes say.
ghost use Rattle.std.specs.Prelude.{◌≡◌, ◌<◌, ◌≤◌, IfOk, Some};
ghost use Rattle.std.specs.Arc.{arc_value};
ghost use Rattle.run_events.specs.Limits.{max_rounds};
ghost use Rattle.frame_format.specs.Formats.{kinds_at};
ghost use Rattle.frame_format.specs.Spelling.{AreOf};
ghost use Rattle.step_machine.specs.Saying.{bytes_from, layout_in, IsFrameFrom, IsToAll};

use crate::origin::Origin;
use frame_views::write_to_all;
use round_lang::Message;
use run_events::NoMemory;
use std::sync::Arc;

/// What a node says in a round, in one piece of memory: the frames of a message, each of `size`
/// bytes, one behind the other, and where they come from.
#[derive(Drop)]
pub(crate) struct Said {
    pub(crate) origin: Arc<Origin>,
    pub(crate) size: usize,
    pub(crate) frames: Vec<u8>,
}

impl Said {
    /// The frames of a message to all nodes, in rising order of receiver.
    pub(crate) fn to_all(
        origin: Arc<Origin>,
        from: u32,
        round: u32,
        message: &Message,
    ) -> Result<Said, NoMemory>
        requires from { from < (layout_in (arc_value origin)).nodes }
        requires first { 1 ≤ round }
        requires last { round ≤ max_rounds }
        requires kinds { AreOf (layout_in (arc_value origin)).values
            (kinds_at (layout_in (arc_value origin)) round) message.now }
        ensures origin { IfOk result (λ said. arc_value said.origin ≡ arc_value origin) }
        ensures frames { IfOk result (IsToAll from round (Some message.now)) }
    {
        let size = origin.layout.len(round);
        let all = origin.layout.nodes() as usize * size;
        let mut frames = vec![in origin.alloc; 0u8; all]?;
        write_to_all(&origin.layout, from, round, message, &mut frames);
        Ok(Said {
            origin,
            size,
            frames,
        })
    }

    /// The bytes of the frame from a place on.
    #[inline(always)]
    pub(crate) fn part(&self, first: usize) -> &[u8]
        requires { IsFrameFrom self.now first }
        ensures { result.now ≡ bytes_from self.now first }
    {
        &self.frames[first..first + self.size]
    }
}

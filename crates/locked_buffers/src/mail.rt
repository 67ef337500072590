//! The calls of a node's thread, over a post or over anything else that answers them.
ghost use Rattle.std.specs.Prelude.{◌≡◌, ◌+◌, ◌<◌, ◌∷◌, ◌++◌, [], All, IfErr, IfOk, MatchResult};
ghost use Rattle.std.specs.Prelude.{OnErr, OnOk};
ghost use Rattle.step_book.specs.Log.{end_state};
ghost use Rattle.step_book.specs.Names.{IsName};
ghost use Rattle.step_book.specs.Buffers.{IsMail, names_in};
ghost use Rattle.step_machine.specs.Sealed.{IsPrepared};
ghost use Rattle.locked_buffers.specs.Runs.{Run, algorithm_by};
ghost use Rattle.locked_buffers.specs.Seats.{CloseBlame, MayClose, MayReceive, MaySend};
ghost use Rattle.locked_buffers.specs.Seats.{ReceiveBlame, SendBlame};

use crate::fault::PostFault;
use crate::gate::Gate;
use crate::post::Post;
use crate::seat::Seat;
use slot_plans::Plan;
use std::sync::Wait;
use step_book::{CloseFault, Refused};
use step_journal::Took;
use step_machine::{Finished, Prepared};

/// What a node's thread calls in its run, which has the plan `P`.
pub trait Mail<P: Plan> {
    /// The run that the calls are of.
    ghost run: { Self → Run P };

    /// A send step: the message is in flight, or there was silence.
    fn send(&self, seat: &mut Seat, prepared: Prepared) -> Result<(), Refused>
        requires name { IsName (run self.now).setup prepared.name }
        requires work { IsPrepared (algorithm_by (run self.now)) prepared }
        requires own { prepared.name.from ≡ seat.old.node }
        ensures ok { OnOk result (seat.new ≡ record seat.old { steps = seat.old.steps + 1 }) }
        ensures err { OnErr result (seat.new ≡ seat.old) }
        ensures back { IfErr result (λ refused. refused.prepared ≡ prepared) }
        ensures cause { MatchResult result
            (λ _done. MaySend (P.start (run self.now).plan) (run self.now).setup.rounds seat.old
            prepared.name)
            (λ refused. SendBlame (P.start (run self.now).plan) (run self.now).setup.rounds
            seat.old prepared.name refused.fault) };

    /// A receive step: every frame that was released to the node and not yet taken.
    fn receive(&self, seat: &mut Seat) -> Result<Took, PostFault>
        requires { seat.old.node < (run self.now).setup.nodes }
        ensures ok { IfOk result (λ took. seat.new ≡ record seat.old {
          steps = seat.old.steps + 1;
          handed = seat.old.handed ++ names_in took.frames.items ∷ [];
        }) }
        ensures err { OnErr result (seat.new ≡ seat.old) }
        ensures mail { IfOk result (λ took. All (IsMail (algorithm_by (run self.now))
            (run self.now).setup.nodes seat.old.node) took.frames.items) }
        ensures cause { MatchResult result
            (λ _took. MayReceive (P.start (run self.now).plan) (run self.now).setup.nodes
            (run self.now).setup.rounds seat.old)
            (ReceiveBlame (P.start (run self.now).plan) (run self.now).setup.nodes
            (run self.now).setup.rounds seat.old) };

    /// Closes the node's due round, which it finished.
    fn close(&self, seat: &mut Seat, finished: &Finished<'_>) -> Result<(), CloseFault>
        requires program { finished.now.node.now.program ≡ (run self.now).program }
        requires setup { finished.now.node.now.setup ≡ (run self.now).setup }
        requires own { finished.now.node.now.me ≡ seat.old.node }
        ensures ok { OnOk result (seat.new ≡ record seat.old {
          states = seat.old.states ++ end_state
              finished.now.node.now ∷ [];
        }) }
        ensures err { OnErr result (seat.new ≡ seat.old) }
        ensures cause { MatchResult result
            (λ _done. MayClose (P.start (run self.now).plan) (run self.now).setup.rounds seat.old
            finished.now.node.now.round)
            (CloseBlame (P.start (run self.now).plan) (run self.now).setup.rounds seat.old
            finished.now.node.now.round) };
}

/// A post, with what its calls wait by and the gate that they pass.
#[derive(Clone, Copy)]
pub struct PostMail<'a, R: Wait, G: Gate, P: Plan> {
    pub rt: &'a R,
    pub post: &'a Post<P>,
    pub gate: &'a G,
}

impl<'a, R: Wait, G: Gate, P: Plan> Mail<P> for PostMail<'a, R, G, P> {
    ghost run = { λ mail. mail.post.now };

    fn send(&self, seat: &mut Seat, prepared: Prepared) -> Result<(), Refused> {
        self.post.send(self.rt, seat, prepared, self.gate)
    }

    fn receive(&self, seat: &mut Seat) -> Result<Took, PostFault> {
        self.post.receive(self.rt, seat)
    }

    fn close(&self, seat: &mut Seat, finished: &Finished<'_>) -> Result<(), CloseFault> {
        self.post.close(self.rt, seat, finished)
    }
}

//! What a node may not do next, by its seat alone.
ghost use Rattle.std.specs.Prelude.{◌≡◌, ◌+◌, ◌^◌, ◌<◌, ◌≤◌, ◌↔◌, IsNone, IsTrue, MatchOption};
ghost use Rattle.std.specs.Prelude.{false};
ghost use Rattle.step_book.specs.Names.{IsName};
ghost use Rattle.locked_buffers.specs.Seats.{IsDueBy, IsReceiveBy, MayClose, MayReceive, MaySend};
ghost use Rattle.locked_buffers.specs.Seats.{round_by, ReceiveBlame, SendBlame};

use crate::fault::PostFault;
use crate::run::Run;
use crate::seat::Seat;
use run_events::Name;
use slot_plans::Plan;
use step_book::SendFault;

/// The first step of a round.
fn start<P: Plan>(run: &Run<P>, round: usize) -> u64
    requires first { 0 < round }
    requires last { round ≤ run.now.setup.rounds + 1 }
    ensures value { result ≡ P.start run.now.plan round }
    ensures small { result < 2 ^ 32 }
{
    run.sound();
    u64::from(run.plan.start(round as u32))
}

/// Whether the seat's round is due and isn't closed.
fn is_due<P: Plan>(run: &Run<P>, seat: &Seat) -> bool
    ensures due { IsTrue result ↔ IsDueBy (P.start run.now.plan) run.now.setup.rounds seat.now }
    ensures small { result ≡ false → round_by seat.now ≤ run.now.setup.rounds → seat.now.steps < 2 ^
        32 }
{
    let round = seat.round();
    if round > run.setup.rounds as usize {
        return false;
    }
    start(run, round + 1) <= seat.steps()
}

/// Why the node of a seat doesn't send this message now, by its own counts.
pub fn refuses_send<P: Plan>(run: &Run<P>, seat: &Seat, name: Name) -> Option<SendFault>
    requires { IsName run.now.setup name }
    ensures cause { MatchOption result
        (MaySend (P.start run.now.plan) run.now.setup.rounds seat.now name)
        (SendBlame (P.start run.now.plan) run.now.setup.rounds seat.now name) }
    ensures small { IsNone result → seat.now.steps < 2 ^ 33 }
{
    if is_due(run, seat) {
        return Some(SendFault::NotClosed);
    }
    if seat.steps() != start(run, name.round as usize) + u64::from(name.to) {
        return Some(SendFault::NotItsSlot);
    }
    None
}

/// Why the node of a seat doesn't receive now, by its own counts.
pub fn refuses_receive<P: Plan>(run: &Run<P>, seat: &Seat) -> Option<PostFault>
    ensures cause { MatchOption result
        (MayReceive (P.start run.now.plan) run.now.setup.nodes run.now.setup.rounds seat.now)
        (ReceiveBlame (P.start run.now.plan) run.now.setup.nodes run.now.setup.rounds seat.now) }
    ensures small { IsNone result → seat.now.steps < 2 ^ 33 }
{
    if is_due(run, seat) {
        return Some(PostFault::NotClosed);
    }
    let round = seat.round();
    if round > run.setup.rounds as usize {
        return Some(PostFault::NotItsSlot);
    }
    if seat.steps() < start(run, round) + u64::from(run.setup.nodes) {
        return Some(PostFault::NotItsSlot);
    }
    None
}

/// Whether the node of a seat may close this round now, by its own counts.
pub fn may_close<P: Plan>(run: &Run<P>, seat: &Seat, round: u32) -> bool
    ensures { IsTrue result ↔ MayClose (P.start run.now.plan) run.now.setup.rounds seat.now round }
{
    is_due(run, seat) && seat.round() == round as usize
}

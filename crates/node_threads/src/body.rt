//! What a node's thread does, over whatever answers its calls.
ghost use Rattle.std.specs.Option.{ForSome};
ghost use Rattle.std.specs.Prelude.{◌≡◌, ◌↔◌, ◌+◌, ◌<◌, ◌≤◌, IfOk, OnErr, OnOk, Some};
ghost use Rattle.run_events.specs.Limits.{max_rounds};
ghost use Rattle.locked_buffers.specs.Seats.{round_by};
ghost use Rattle.node_threads.specs.Bodies.{HasReceived, IsCutShort, IsEnded, IsHeldUp};
ghost use Rattle.node_threads.specs.Bodies.{IsInPlace, IsNotPassed, IsPlanned, IsTogether, end_of};
ghost use Rattle.node_threads.specs.declared.body.Halt.TheVariants as halt;
ghost use Rattle.locked_buffers.specs.declared.fault.PostFault.TheVariants as post;
ghost use Rattle.step_book.specs.declared.fault.CloseFault.TheVariants as close;
ghost use Rattle.step_book.specs.declared.fault.SendFault.TheVariants as send;

use crate::ended::Ended;
use crate::stops::is_stop;
use locked_buffers::{Gate, Mail, Point, PostFault, Seat};
use run_events::{Name, NoMemory};
use slot_plans::Plan;
use step_book::{CloseFault, Refused, SendFault, take_all};
use step_machine::Node;

/// Why a thread can't go on: out of memory, or a call was refused for another cause.
#[derive(Clone, Copy, PartialEq, Eq, Debug)]
pub enum Halt {
    NoMemory,
    Refused,
}

impl From<NoMemory> for Halt {
    ghost from_gives = { λ _ e. e ≡ halt.NoMemory };

    fn from(_error: NoMemory) -> Halt {
        Halt::NoMemory
    }
}

impl From<Refused> for Halt {
    ghost from_gives = { λ refused e. (e ≡ halt.NoMemory) ↔ (refused.fault ≡ send.NoMemory) };

    fn from(refused: Refused) -> Halt {
        match refused.fault {
            SendFault::NoMemory => Halt::NoMemory,
            _ => Halt::Refused,
        }
    }
}

impl From<PostFault> for Halt {
    ghost from_gives = { λ fault e. (e ≡ halt.NoMemory) ↔ (fault ≡ post.NoMemory) };

    fn from(fault: PostFault) -> Halt {
        match fault {
            PostFault::NoMemory => Halt::NoMemory,
            _ => Halt::Refused,
        }
    }
}

impl From<CloseFault> for Halt {
    ghost from_gives = { λ fault e. (e ≡ halt.NoMemory) ↔ (fault ≡ close.NoMemory) };

    fn from(fault: CloseFault) -> Halt {
        match fault {
            CloseFault::NoMemory => Halt::NoMemory,
            _ => Halt::Refused,
        }
    }
}

/// What a node's thread waits for.
pub trait Beat {
    /// Waits for the next step, after so many.
    fn next(&self, steps: u64);

    /// All messages of the round are sent.
    fn sent(&self, round: u32);

    /// Waits for the round's last receive.
    fn gather(&self, round: u32);

    /// There is no step more.
    fn leave(&self);
}

/// A send step.
fn send_step<P: Plan, M: Mail<P>, G: Gate>(
    mail: &M,
    gate: &G,
    seat: &mut Seat,
    node: &mut Node,
    dest: u32,
) -> Result<(), Halt>
    requires together { IsTogether (M.run mail.now) seat.old node.old }
    requires dest { dest < node.old.setup.nodes }
    requires first { 0 < node.old.round }
    requires last { node.old.round ≤ node.old.setup.rounds }
    ensures steps { OnOk result (seat.new.steps ≡ seat.old.steps + 1) }
    ensures states { OnOk result (seat.new.states ≡ seat.old.states) }
    ensures together { OnOk result (IsTogether (M.run mail.now) seat.new node.new) }
    ensures err { OnErr result (seat.new ≡ seat.old) }
{
    let name = Name {
        from: seat.node(),
        to: dest,
        round: node.round(),
        copy: 0,
    };
    gate.pass(Point::Prepare(name));
    let prepared = node.prepare(dest)?;
    mail.send(seat, prepared)?;
    gate.pass(Point::Sent(name));
    Ok(())
}

/// A receive step: the node takes what was handed out.
fn receive_step<P: Plan, M: Mail<P>>(mail: &M, seat: &mut Seat, node: &mut Node) -> Result<(), Halt>
    requires together { IsTogether (M.run mail.now) seat.old node.old }
    ensures steps { OnOk result (seat.new.steps ≡ seat.old.steps + 1) }
    ensures states { OnOk result (seat.new.states ≡ seat.old.states) }
    ensures together { OnOk result (IsTogether (M.run mail.now) seat.new node.new) }
    ensures taken { OnOk result (HasReceived seat.old seat.new node.old node.new) }
    ensures err { OnErr result (seat.new ≡ seat.old) }
{
    let took = mail.receive(seat)?;
    take_all(node, took.frames);
    Ok(())
}

/// The end of the due round.
fn close_round<P: Plan, M: Mail<P>, G: Gate>(
    mail: &M,
    gate: &G,
    seat: &mut Seat,
    node: &mut Node,
) -> Result<(), Halt>
    requires together { IsTogether (M.run mail.now) seat.old node.old }
    requires last { node.old.round ≤ node.old.setup.rounds }
    ensures together { OnOk result (IsTogether (M.run mail.now) seat.new node.new) }
    ensures steps { OnOk result (seat.new.steps ≡ seat.old.steps) }
    ensures round { OnOk result (round_by seat.new ≡ round_by seat.old + 1) }
    ensures err { OnErr result (seat.new ≡ seat.old) }
{
    let me = seat.node();
    let round = node.round();
    gate.pass(Point::Finish { node: me, round });
    let finished = node.finish();
    mail.close(seat, &finished)?;
    node.settle();
    gate.pass(Point::Closed { node: me, round });
    Ok(())
}

/// Tells of a receive that comes next: of the round's first and of its last one.
fn tell_of_receive<P: Plan, B: Beat>(beat: &B, plan: P, round: u32, steps: u64, offset: u64)
    requires { round ≤ max_rounds }
{
    if offset == u64::from(plan.nodes()) {
        beat.sent(round);
    }
    if steps.saturating_add(1) == u64::from(plan.start(round + 1)) {
        beat.gather(round);
    }
}

/// The next step of the round: to another node, or a receive.
fn next_step<P: Plan, M: Mail<P>, G: Gate, B: Beat>(
    mail: &M,
    gate: &G,
    beat: &B,
    plan: P,
    seat: &mut Seat,
    node: &mut Node,
) -> Result<(), Halt>
    requires planned { IsPlanned P.nodes (M.run mail.now) plan node.old.setup.rounds }
    requires together { IsTogether (M.run mail.now) seat.old node.old }
    requires first { 0 < node.old.round }
    requires last { node.old.round ≤ node.old.setup.rounds }
    requires begun { P.start plan node.old.round ≤ seat.old.steps }
    ensures steps { OnOk result (seat.new.steps ≡ seat.old.steps + 1) }
    ensures states { OnOk result (seat.new.states ≡ seat.old.states) }
    ensures together { OnOk result (IsTogether (M.run mail.now) seat.new node.new) }
    ensures err { OnErr result (seat.new ≡ seat.old) }
{
    let offset = seat.steps() - u64::from(plan.start(node.round()));
    if offset < u64::from(plan.nodes()) {
        send_step(mail, gate, seat, node, offset as u32)
    } else {
        tell_of_receive(beat, plan, node.round(), seat.steps(), offset);
        receive_step(mail, seat, node)
    }
}

/// One step, and the end of the round if it makes that due.
fn step<P: Plan, M: Mail<P>, G: Gate, B: Beat>(
    mail: &M,
    gate: &G,
    beat: &B,
    plan: P,
    seat: &mut Seat,
    node: &mut Node,
) -> Result<(), Halt>
    requires planned { IsPlanned P.nodes (M.run mail.now) plan node.old.setup.rounds }
    requires together { IsTogether (M.run mail.now) seat.old node.old }
    requires place { IsInPlace (P.start plan) node.old.setup.rounds seat.old }
    requires last { node.old.round ≤ node.old.setup.rounds }
    ensures together { OnOk result (IsTogether (M.run mail.now) seat.new node.new) }
    ensures place { OnOk result (IsInPlace (P.start plan) node.old.setup.rounds seat.new) }
    ensures steps { OnOk result (seat.new.steps ≡ seat.old.steps + 1) }
    ensures err { OnErr result
        (IsHeldUp (P.start plan) node.old.setup.rounds seat.old seat.new) }
{
    let round = node.round();
    next_step(mail, gate, beat, plan, seat, node)?;
    if seat.steps() == u64::from(plan.start(round + 1)) {
        close_round(mail, gate, seat, node)?;
    }
    Ok(())
}

/// The steps of a node from where its seat stands up to its end: after the last round or at its
/// stop.
fn take_steps<P: Plan, M: Mail<P>, G: Gate, B: Beat>(
    mail: &M,
    gate: &G,
    beat: &B,
    plan: P,
    rounds: u32,
    stop: Option<u32>,
    seat: &mut Seat,
    node: &mut Node,
) -> Result<Ended, Halt>
    requires planned { IsPlanned P.nodes (M.run mail.now) plan rounds }
    requires together { IsTogether (M.run mail.now) seat.old node.old }
    requires place { IsInPlace (P.start plan) rounds seat.old }
    ensures ended { IfOk result (IsEnded (P.start plan) rounds stop seat.new) }
    ensures passed { IfOk result (λ ended. ended ≡ Ended.Done
        → IsNotPassed stop seat.old.steps (P.start plan (rounds + 1))) }
    ensures cut { OnErr result (IsCutShort (P.start plan) rounds stop seat.new) }
{
    while node.round() <= rounds {
        if is_stop(stop, seat.steps()) {
            return Ok(Ended::Stopped);
        }
        beat.next(seat.steps());
        step(mail, gate, beat, plan, seat, node)?;
    }
    Ok(Ended::Done)
}

/// How a thread ended that couldn't go on; `None` if a call was refused for another cause than
/// memory.
fn end_of(halt: Halt) -> Option<Ended>
    ensures { result ≡ end_of halt }
{
    match halt {
        Halt::NoMemory => Some(Ended::NoMemory),
        Halt::Refused => None,
    }
}

/// A node's thread, from where its seat stands up to its end: after the last round, at its stop, or
/// if it has no memory. `None`: a call was refused for another cause than memory.
pub fn run_steps<P: Plan, M: Mail<P>, G: Gate, B: Beat>(
    mail: &M,
    gate: &G,
    beat: &B,
    plan: P,
    rounds: u32,
    stop: Option<u32>,
    mut seat: Seat,
    mut node: Node,
) -> (Seat, Option<Ended>)
    requires planned { IsPlanned P.nodes (M.run mail.now) plan rounds }
    requires together { IsTogether (M.run mail.now) seat node }
    requires place { IsInPlace (P.start plan) rounds seat }
    ensures ended { ForSome result.1 (IsEnded (P.start plan) rounds stop result.0) }
    ensures passed { (result.1 ≡ Some Ended.Done)
        → IsNotPassed stop seat.steps (P.start plan (rounds + 1)) }
{
    match take_steps(mail, gate, beat, plan, rounds, stop, &mut seat, &mut node) {
        Ok(ended) => (seat, Some(ended)),
        Err(halt) => (seat, end_of(halt)),
    }
}

//! What goes into a node's thread, and what comes back.
ghost use Rattle.round_lang.specs.contracts.formula.Formula as tree;
ghost use Rattle.std.specs.Coded.{codes};
ghost use Rattle.std.specs.Option.{ForSome};
ghost use Rattle.std.specs.Prelude.{◌≡◌, ◌+◌, IfSome, Some};
ghost use Rattle.round_meaning.specs.Setups.{IsLawful};
ghost use Rattle.node_threads.specs.Bodies.{IsEnded, IsInPlace, IsNotPassed, IsPlanned};
ghost use Rattle.node_threads.specs.Bodies.{IsTogether};
ghost use Rattle.node_threads.specs.declared.ended.Ended.TheVariants.{Done};

use crate::body::{Beat, Halt, run_steps};
use crate::clock::{Clock, ClockBeat};
use crate::ended::Ended;
use locked_buffers::{Gate, Post, PostMail, Seat};
use round_check::Checked;
use round_meaning::Setup;
use slot_plans::Plan;
use std::alloc::Global;
use std::sync::Wait;
use step_machine::Node;

/// A node of a post's run with its seat, before its first step.
#[derive(Drop)]
pub(crate) struct Job<'a, P: Plan> {
    post: &'a Post<P>,
    plan: P,
    rounds: u32,
    stop: Option<u32>,
    seat: Seat,
    node: Node,
    ghost planned: { IsPlanned P.nodes post.now plan rounds },
    ghost paired: { IsTogether post.now seat node } by { Prim.hlevel (codes, tree.the_row.coded) },
    ghost place: { IsInPlace (P.start plan) rounds seat },
    ghost first: { seat.steps ≡ 0 },
}

/// The seat of a thread that ended, and how it did. `None`: a call was refused for another cause
/// than memory.
#[derive(Drop)]
pub(crate) struct ThreadEnd<P: Plan> {
    plan: P,
    rounds: u32,
    stop: Option<u32>,
    seat: Seat,
    ended: Option<Ended>,
    ghost true_end: { ForSome ended (IsEnded (P.start plan) rounds stop seat) },
    ghost passed: { (ended ≡ Some Done) → IsNotPassed stop 0 (P.start plan (rounds + 1)) },
}

impl<'a, P: Plan> Job<'a, P> {
    /// The job of a seat that was told nothing.
    pub(crate) fn new(
        alloc: Global,
        post: &'a Post<P>,
        program: &Checked,
        setup: &Setup,
        plan: P,
        stop: Option<u32>,
        seat: Seat,
    ) -> Result<Job<'a, P>, Halt>
        requires run { post.now ≡ record {
          plan = plan;
          program = program.now;
          setup = setup.now;
        } }
        requires lawful { IsLawful program.now.values setup.now }
        requires nodes { P.nodes plan ≡ setup.now.nodes }
    {
        if seat.steps() != 0 || seat.round() != 1 || seat.node() >= setup.nodes {
            return Err(Halt::Refused);
        }
        let node = Node::new(alloc, program, setup, seat.node())?;
        Ok(Job {
            post,
            plan,
            rounds: setup.rounds,
            stop,
            seat,
            node,
        })
    }

    /// The number of the node.
    pub(crate) fn node(&self) -> u32 {
        self.seat.node()
    }

    /// The node's thread.
    pub(crate) fn run<R: Wait, G: Gate>(self, rt: &R, gate: &G, clock: &Clock) -> ThreadEnd<P> {
        let Job {
            post,
            plan,
            rounds,
            stop,
            seat,
            node,
        } = self;
        let mail = PostMail { rt, post, gate };
        let beat = ClockBeat {
            rt,
            clock,
            node: seat.node(),
        };
        let (seat, ended) = run_steps(&mail, gate, &beat, plan, rounds, stop, seat, node);
        beat.leave();
        ThreadEnd {
            plan,
            rounds,
            stop,
            seat,
            ended,
        }
    }
}

impl<P: Plan> ThreadEnd<P> {
    /// The seat and its end, if they are of this plan, these rounds and this stop, and no
    /// call was refused.
    pub(crate) fn into_parts(self, plan: P, rounds: u32, stop: Option<u32>) -> Option<(Seat, Ended)>
        ensures ended { IfSome result (λ r. IsEnded (P.start plan) rounds stop r.0 r.1) }
        ensures passed { IfSome result (λ r. (r.1 ≡ Done)
            → IsNotPassed stop 0 (P.start plan (rounds + 1))) }
    {
        let ThreadEnd {
            plan: own_plan,
            rounds: own_rounds,
            stop: own_stop,
            seat,
            ended,
        } = self;
        let ended = ended?;
        if own_plan != plan || own_rounds != rounds || own_stop != stop {
            return None;
        }
        Some((seat, ended))
    }
}

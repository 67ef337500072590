//! The network's thread.
ghost use Rattle.std.specs.Prelude.{◌≡◌, ◌+◌, ◌-◌, ◌^◌, ◌≤◌, ◌++◌, ◌∷◌, [], Bool, IfOk};
ghost use Rattle.std.specs.Prelude.{OnErr, OnOk, Option, None, min};
ghost use Rattle.locked_buffers.specs.Commits.{told_with};
ghost use Rattle.run_events.specs.Limits.{max_rounds};
ghost use Rattle.node_threads.specs.Choices.{ComesToInOne, IsCopyInRun, halt_of};
ghost use Rattle.node_threads.specs.Flights.{sent_as};
ghost use Rattle.node_threads.specs.Turns.{HasLearnt, HasRun, IsAskedFor, IsDone, IsTurn};
ghost use Rattle.node_threads.specs.Turns.{RunsByTurns, tick_in, time_of};

use crate::body::Halt;
use crate::clock::Clock;
use crate::flight::Flight;
use crate::promise::NetworkRun;
use locked_buffers::{Post, Relay, RelayFault};
use policies::{Choice, Policy};
use round_meaning::Setup;
use run_events::{Event, InFlight, Name};
use schedule_text::Pace;
use slot_plans::Plan;
use std::alloc::Global;
use std::snapshot::Snapshot;
use std::sync::Wait;
use step_book::is_name;

/// What the network's thread works with.
#[derive(Drop)]
pub(crate) struct Network<'a, P: Plan> {
    post: &'a Post<P>,
    setup: &'a Setup,
    plan: P,
    relay: Relay,
    /// What it knows to be in flight.
    flight: Flight,
    /// How many messages it knows.
    known: usize,
    /// The names of messages that it didn't know.
    sent: Vec<Name>,
    ghost same: { post.now.setup ≡ setup.now },
    ghost few: { setup.now.rounds ≤ max_rounds },
}

impl From<RelayFault> for Halt {
    ghost from_gives = { λ fault halt. halt ≡ halt_of fault };

    fn from(fault: RelayFault) -> Halt {
        match fault {
            RelayFault::NoMemory => Halt::NoMemory,
            RelayFault::Stranger => Halt::Refused,
        }
    }
}

impl<'a, P: Plan> Network<'a, P> {
    /// A network that knows of no message.
    pub(crate) fn new(
        alloc: Global,
        post: &'a Post<P>,
        setup: &'a Setup,
        plan: P,
        relay: Relay,
    ) -> Network<'a, P>
        requires same { post.now.setup ≡ setup.now }
        requires few { setup.now.rounds ≤ max_rounds }
        ensures flight { result.flight ≡ [] }
        ensures known { result.known ≡ 0 }
        ensures plan { result.plan ≡ plan }
        ensures relay { result.relay ≡ relay }
    {
        Network {
            post,
            setup,
            plan,
            relay,
            flight: Flight::new(alloc),
            known: 0,
            sent: Vec::new(alloc),
        }
    }

    /// Learns which messages were sent since it did so last, and how many events are recorded.
    fn learn<R: Wait>(&mut self, rt: &R) -> Result<usize, Halt>
        ensures learnt { IfOk result (HasLearnt P.start (P.start self.old.plan) (record {
          flight = self.old.flight;
          count = self.old.known;
          told = self.old.relay;
        }) (record {
          flight = self.new.flight;
          count = self.new.known;
          told = self.new.relay;
        })) }
        ensures plan { self.new.plan ≡ self.old.plan }
        ensures relay { self.new.relay ≡ self.old.relay }
    {
        self.sent.clear();
        let events = self.post.sent_since(rt, self.known, &mut self.sent)?;
        for place in 0..self.sent.len() {
            let name = self.sent[place];
            self.add(name)?;
        }
        Ok(events)
    }

    /// Adds a message that was sent.
    fn add(&mut self, name: Name) -> Result<(), Halt>
        ensures flight { OnOk result (self.new.flight
            ≡ self.old.flight ++ sent_as (P.start self.old.plan) self.old.known name ∷ []) }
        ensures known { OnOk result (self.new.known ≡ min (self.old.known + 1) (2 ^ 64 - 1)) }
        ensures plan { self.new.plan ≡ self.old.plan }
        ensures relay { self.new.relay ≡ self.old.relay }
        ensures sent { self.new.sent.items ≡ self.old.sent.items }
    {
        if !is_name(self.setup, name) {
            return Err(Halt::Refused);
        }
        self.flight.push(InFlight {
            name,
            sent_at: self.plan.start(name.round).saturating_add(name.to),
            serial: self.known,
        })?;
        self.known = self.known.saturating_add(1);
        Ok(())
    }

    /// What the network does by a choice; nothing if it counts as none.
    fn event_of<R: Wait>(&self, rt: &R, choice: Choice) -> Result<Option<Event>, Halt>
        ensures { IfOk result (ComesToInOne P.start self.now.flight (Option.Some choice)) }
    {
        let messages = self.flight.messages();
        match choice {
            Choice::Release(place) => match messages.get(place) {
                Some(message) => Ok(Some(Event::Release(message.name))),
                None => Ok(None),
            },
            Choice::Drop(place) => match messages.get(place) {
                Some(message) => Ok(Some(Event::Drop(message.name))),
                None => Ok(None),
            },
            Choice::Copy(place) => match messages.get(place) {
                Some(message) => self.copy_of(rt, message.name),
                None => Ok(None),
            },
        }
    }

    /// The least copy of a message that can be made.
    fn copy_of<R: Wait>(&self, rt: &R, name: Name) -> Result<Option<Event>, Halt>
        ensures { IfOk result (IsCopyInRun P.start self.now.post.now name) }
    {
        if !is_name(self.setup, name) {
            return Err(Halt::Refused);
        }
        match self.post.next_copy(rt, name)? {
            Some(copied) => Ok(Some(Event::Copy(copied))),
            None => Ok(None),
        }
    }

    /// One event, and how it was answered.
    fn act<R: Wait>(&mut self, rt: &R, event: Event) -> Result<bool, Halt>
        ensures told { IfOk result (λ answer. self.new.relay
            ≡ told_with self.old.relay event answer) }
        ensures untold { OnErr result (self.new.relay ≡ self.old.relay) }
        ensures flight { self.new.flight ≡ self.old.flight }
        ensures known { self.new.known ≡ self.old.known }
        ensures plan { self.new.plan ≡ self.old.plan }
    {
        let answer = match event {
            Event::Release(name) if is_name(self.setup, name) => {
                self.post.release(rt, &mut self.relay, name)
            }
            Event::Drop(name) if is_name(self.setup, name) => {
                self.post.drop_frame(rt, &mut self.relay, name)
            }
            Event::Copy(name) if name.copy > 0 && is_name(self.setup, name) => {
                self.post.copy_frame(rt, &mut self.relay, name)
            }
            _ => return Err(Halt::Refused),
        };
        Ok(answer?)
    }

    /// Asks the policy once: what it chose, and the event that this comes to; `None` if it comes to
    /// no event.
    fn ask<R: Wait, Q: Policy>(
        &self,
        rt: &R,
        policy: &mut Q,
        now: u32,
    ) -> Result<Option<(Choice, Event)>, Halt>
        ensures { IfOk result (IsAskedFor Q.chooses P.start now self.now.flight policy.old
            policy.new) }
    {
        let Some(choice) = policy.choose(now, self.flight.messages()) else {
            return Ok(None);
        };
        match self.event_of(rt, choice)? {
            Some(event) => Ok(Some((choice, event))),
            None => Ok(None),
        }
    }

    /// Makes an event that came of a choice, and notes what is in flight after it.
    fn carry_out<R: Wait>(&mut self, rt: &R, choice: Choice, event: Event) -> Result<(), Halt>
        ensures done { OnOk result ((answer : Bool) × IsDone choice event answer (record {
          flight = self.old.flight;
          count = self.old.known;
          told = self.old.relay;
        }) (record {
          flight = self.new.flight;
          count = self.new.known;
          told = self.new.relay;
        })) }
        ensures plan { self.new.plan ≡ self.old.plan }
    {
        let _answer = self.act(rt, event)?;
        self.flight.note(choice, event)?;
        Ok(())
    }

    /// Asks the policy until it chooses nothing, each time after it has learnt what was sent.
    /// Without a tick the policy is told how many events were recorded by then.
    fn take_turn<R: Wait, Q: Policy>(
        &mut self,
        rt: &R,
        policy: &mut Q,
        tick: Option<u32>,
    ) -> Result<(), Halt>
        ensures turn { OnOk result (IsTurn Q.chooses P.start (P.start self.old.plan) tick policy.old
            (record {
              flight = self.old.flight;
              count = self.old.known;
              told = self.old.relay;
            }) policy.new (record {
              flight = self.new.flight;
              count = self.new.known;
              told = self.new.relay;
            })) }
        ensures plan { OnOk result (self.new.plan ≡ self.old.plan) }
    {
        for _ in rt.forever() {
            let events = self.learn(rt)?;
            let Some((choice, event)) = self.ask(rt, policy, now_of(tick, events))? else {
                return Ok(());
            };
            self.carry_out(rt, choice, event)?;
        }
        unreachable!()
    }

    /// Takes its turns until every node has ended.
    fn take_turns<R: Wait, Q: Policy>(
        &mut self,
        rt: &R,
        clock: &Clock,
        policy: &mut Q,
    ) -> Result<(), Halt>
        ensures { OnOk result (RunsByTurns Q.chooses P.start (P.start self.old.plan) clock.now.pace
            policy.old (record {
              flight = self.old.flight;
              count = self.old.known;
              told = self.old.relay;
            }) policy.new (record {
              flight = self.new.flight;
              count = self.new.known;
              told = self.new.relay;
            })) }
    {
        let mut tick: u32 = 0;
        for _ in rt.forever() {
            if !clock.begin_turn(rt) {
                return Ok(());
            }
            self.take_turn(rt, policy, tick_in(clock.pace(), tick))?;
            clock.end_turn(rt);
            tick = tick.saturating_add(1);
        }
        unreachable!()
    }

    /// What its thread promises if it runs by this clock and policy.
    pub(crate) fn promise<Q: Policy>(&self, clock: &Clock, policy: &Q) -> NetworkRun<P, Q>
        ensures plan { result.plan ≡ self.now.plan }
        ensures pace { result.pace ≡ clock.now.pace }
        ensures policy { result.policy.value ≡ policy.now }
    {
        NetworkRun {
            plan: self.plan,
            pace: clock.pace(),
            policy: Snapshot::of(policy),
        }
    }

    /// The thread, which ends after the nodes, or if it can't go on.
    pub(crate) fn run<R: Wait, Q: Policy + Drop>(
        mut self,
        rt: &R,
        clock: &Clock,
        mut policy: Q,
    ) -> (Relay, Option<Halt>)
        ensures { result.1 ≡ None → HasRun Q.chooses P.start (P.start self.entry.plan)
            clock.now.pace policy (record {
              flight = self.entry.flight;
              count = self.entry.known;
              told = self.entry.relay;
            }) result.0 }
    {
        let halt = match self.take_turns(rt, clock, &mut policy) {
            Ok(()) => None,
            Err(halt) => Some(halt),
        };
        clock.close(rt);
        let Network { relay, .. } = self;
        (relay, halt)
    }
}

/// The tick of a turn, if there are ticks.
fn tick_in(pace: Pace, tick: u32) -> Option<u32>
    ensures { result ≡ tick_in pace tick }
{
    match pace {
        Pace::Free => None,
        Pace::Ticks => Some(tick),
    }
}

/// The time that a policy is told: the tick, or without one the number of events.
fn now_of(tick: Option<u32>, events: usize) -> u32
    ensures { result ≡ time_of tick events }
{
    match tick {
        Some(tick) => tick,
        None => events.min(u32::MAX as usize) as u32,
    }
}

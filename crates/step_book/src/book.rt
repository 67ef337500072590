//! What a run has recorded, by the names of its messages.
ghost use Rattle.std.specs.Prelude.{◌≡◌, ◌+◌, ◌-◌, ◌*◌, ◌^◌, ◌<◌, ◌≤◌, ◌↔◌, IfErr, IfOk};
ghost use Rattle.std.specs.Prelude.{IfSome, IsTrue, MatchOption, None, OnErr, OnOk};
ghost use Rattle.run_events.specs.Limits.{max_rounds};
ghost use Rattle.round_meaning.specs.Rounds.{algorithm_of};
ghost use Rattle.round_meaning.specs.Setups.{IsLawful};
ghost use Rattle.step_machine.specs.Sealed.{IsPrepared};
ghost use Rattle.step_book.specs.Agreed.{JournalAgrees};
ghost use Rattle.step_book.specs.Agreement.{IsBuffer, row};
ghost use Rattle.step_book.specs.Causes.{IdleCause};
ghost use Rattle.step_book.specs.Causes.{IsReceiveFit, IsSendFit, ReceiveCause, SendCause};
ghost use Rattle.step_book.specs.Effects.{Idles, Receives, Sends};
ghost use Rattle.step_book.specs.Flight.{IsFlight, IsFlightBefore};
ghost use Rattle.step_book.specs.History.{answers_of, copied, counted};
ghost use Rattle.step_book.specs.History.{handed_of, spoken};
ghost use Rattle.step_book.specs.Log.{CanCopy, HasNoCopy, IsDue, IsFaithful, IsFlying, IsLeastCopy};
ghost use Rattle.step_book.specs.Log.{HasBook, IsReceive, count_of, history, mark_in, opened};
ghost use Rattle.step_book.specs.Log.{round_of, states_of, waiting_in, world_of};
ghost use Rattle.step_book.specs.Moments.{MomentsAgree};
ghost use Rattle.step_book.specs.Names.{IsName};
ghost use Rattle.step_book.specs.Serials.{AreSent, HasSerial};
ghost use Rattle.step_book.specs.Slots.{IsMessageAt, IsNoMessageAt};
ghost use Rattle.step_book.specs.Stored.{IsShort};
ghost use Rattle.step_book.specs.declared.mark.Mark.TheVariants.{Unsent};
ghost use Rattle.run_events.specs.declared.name.Name.{Name as OneName};

mod closing;
mod network;

use crate::fault::{IdleFault, ReceiveFault, SendFault};
use crate::mailbox::Mailbox;
use crate::mark::Mark;
use crate::marks::Marks;
use crate::notes::{note_receive, note_send, note_step};
use crate::opening::{first_rows, no_mail, no_steps};
use round_check::Checked;
use round_meaning::Setup;
use run_events::{InFlight, MAX_COPY, Name, NoMemory, StoredEvent, StoredName};
use slot_plans::{Plan, Slot};
use std::alloc::Global;
use std::marker::Model;
use std::sync::Arc;
use step_machine::{Prepared, StoredState};

/// The record of a run: its events, the steps of each node, the states of its closed rounds, what
/// became of each copy of each message, what each receive handed out, how each event of the network
/// was answered, and the order in which the messages were sent.
#[derive(Drop)]
pub struct Book<P: Plan> {
    // What nearly each event changes stands first, and so, in a book under a lock, beside the
    // lock's word.
    trace: Vec<StoredEvent>,
    messages: Vec<StoredName>,
    answers: Vec<bool>,
    steps: Vec<u64>,
    states: Vec<Vec<Arc<StoredState>>>,
    marks: Marks,
    mails: Vec<Mailbox>,
    program: Checked,
    setup: Setup,
    plan: P,
}

impl<P: Plan> Model for Book<P> {
    ghost use Rattle.step_book.specs.Log.{Recorded, IsBookOf, rows_of, handed_in, waits_in};
    ghost use Rattle.round_lang.specs.contracts.formula.Formula as formula;
    ghost use Rattle.std.specs.Coded.{codes};

    ghost Value = { Recorded P };

    ghost coded = { Prim.hlevel (codes, formula.the_row.coded) };

    ghost view = { λ s. record {
      plan = s.plan;
      log = record {
        program = s.program;
        setup = s.setup;
        trace = s.trace.items;
        rows = rows_of s.states.items;
      };
    } };

    ghost invariant = { λ s. IsBookOf (P.start s.plan) (P.nodes s.plan)
        (record {
          program = s.program;
          setup = s.setup;
          trace = s.trace.items;
          rows = rows_of s.states.items;
        })
        s.steps.items s.marks (waits_in s.mails.items) (handed_in s.mails.items)
        s.answers.items s.messages.items };
}

impl<P: Plan> Book<P> {
    /// An empty record.
    pub fn open(
        alloc: Global,
        program: &Checked,
        setup: &Setup,
        plan: P,
    ) -> Result<Book<P>, NoMemory>
        requires lawful { IsLawful program.now.values setup.now }
        requires nodes { P.nodes plan ≡ setup.now.nodes }
        ensures { IfOk result (λ book. book
            ≡ record { plan = plan; log = opened program.now setup.now }) }
    {
        let states = first_rows(alloc, program, setup)?;
        let steps = no_steps(alloc, setup.nodes)?;
        let mails = no_mail(alloc, setup.nodes)?;
        Ok(Book {
            program: program.copy()?,
            setup: setup.copy()?,
            plan,
            trace: Vec::new(alloc),
            steps,
            states,
            marks: Marks::new(alloc),
            mails,
            answers: Vec::new(alloc),
            messages: Vec::new(alloc),
        })
    }

    /// Makes room for so many events more, so that recording them moves none of those before.
    pub fn reserve(&mut self, events: usize) -> Result<(), NoMemory>
        ensures { self.new ≡ self.old }
    {
        self.trace.reserve(events)?;
        Ok(())
    }

    pub fn program(&self) -> &Checked
        ensures { result.now ≡ self.now.log.program }
    {
        &self.program
    }

    /// The setup, which is lawful for the program.
    pub fn setup(&self) -> &Setup
        ensures value { result.now ≡ self.now.log.setup }
        ensures lawful { IsLawful self.now.log.program.values self.now.log.setup }
    {
        &self.setup
    }

    /// The plan, which has the setup's number of nodes.
    pub fn plan(&self) -> P
        ensures value { result ≡ self.now.plan }
        ensures sized { P.nodes self.now.plan ≡ self.now.log.setup.nodes }
    {
        self.plan
    }

    /// The events, in their order; what is recorded of them agrees with the run in rounds.
    pub fn trace(&self) -> &[StoredEvent]
        ensures value { result.now ≡ self.now.log.trace }
        ensures faithful { IsFaithful (P.start self.now.plan) self.now.log }
    {
        &self.trace
    }

    /// Nothing at run time: what is recorded agrees with the run in rounds, and the plan and the
    /// setup fit.
    pub fn agrees(&self)
        ensures faithful { IsFaithful (P.start self.now.plan) self.now.log }
        ensures sized { P.nodes self.now.plan ≡ self.now.log.setup.nodes }
        ensures lawful { IsLawful self.now.log.program.values self.now.log.setup }
    {
        let _trace = &self.trace;
    }

    /// Nothing at run time: what the reading calls answer is what stands in the trace and in the
    /// run in rounds.
    pub fn agrees_by_places(&self)
        ensures { JournalAgrees (P.start self.now.plan) self.now.log
            (mark_in (P.start self.now.plan) self.now.log)
            (waiting_in (P.start self.now.plan) self.now.log) }
    {
        let _trace = &self.trace;
    }

    /// Nothing at run time: at each place of the trace the record is what stands before it, so that
    /// what receives handed out and events were answered reads by places too.
    pub fn moments_agree(&self)
        ensures { MomentsAgree (P.start self.now.plan) self.now.log }
    {
        let _trace = &self.trace;
    }

    /// Nothing at run time: there is a book of the run, so that laws of books hold of it.
    pub fn is_book(&self)
        ensures { HasBook (P.start self.now.plan) self.now.log }
    {
        let _trace = &self.trace;
    }

    /// How many steps a node has taken.
    pub fn count_of(&self, node: u32) -> u64
        requires { node < self.now.log.setup.nodes }
        ensures { result ≡ count_of self.now.log node }
    {
        self.steps[node as usize]
    }

    /// A node's round: the first that isn't closed.
    pub fn round_of(&self, node: u32) -> u32
        requires { node < self.now.log.setup.nodes }
        ensures value { result ≡ round_of self.now.log node }
        ensures low { 0 < result }
        ensures high { result ≤ self.now.log.setup.rounds + 1 }
        ensures small { result ≤ max_rounds + 1 }
    {
        self.states[node as usize].len() as u32
    }

    /// A node's states after 0, 1, .. closed rounds.
    pub fn states(&self, node: u32) -> &[Arc<StoredState>]
        requires { node < self.now.log.setup.nodes }
        ensures { states_of result.now ≡ row self.now.log.rows node }
    {
        &self.states[node as usize]
    }

    /// What became of a copy of a message.
    #[inline(always)]
    pub fn mark(&self, name: Name) -> Mark
        requires { IsName self.now.log.setup name }
        ensures { result ≡ mark_in (P.start self.now.plan) self.now.log name }
    {
        self.marks.at(name.copy, self.place(name))
    }

    /// Whether messages may have this copy. Where they don't, no such copy was ever made.
    pub fn has_copies(&self, copy: u32) -> bool
        ensures { (¬ IsTrue result) → (name : OneName) → IsName self.now.log.setup name
            → name.copy ≡ copy → mark_in (P.start self.now.plan) self.now.log name ≡ Unsent }
    {
        self.marks.has_table(copy)
    }

    /// Whether a copy of a message is in flight.
    #[inline(always)]
    pub fn is_flying(&self, name: Name) -> bool
        requires { IsName self.now.log.setup name }
        ensures { IsTrue result ↔ IsFlying (P.start self.now.plan) self.now.log name }
    {
        self.mark(name) == Mark::Flying
    }

    /// Whether the network can make this copy: copy 0 is in flight, and this one was never made.
    pub fn can_copy(&self, name: Name) -> bool
        requires { IsName self.now.log.setup name }
        ensures { IsTrue result ↔ CanCopy (P.start self.now.plan) self.now.log name }
    {
        self.is_flying(name.original()) && self.mark(name) == Mark::Unsent
    }

    /// The least copy of a message that the network can make. `None`: the name is that of a copy
    /// itself, copy 0 isn't in flight, or all copies were made.
    pub fn next_copy(&self, name: Name) -> Option<Name>
        requires { IsName self.now.log.setup name }
        ensures some { IfSome result (λ copied. (copied ≡ record name { copy = copied.copy })
            × IsLeastCopy (P.start self.now.plan) self.now.log name copied.copy) }
        ensures known { IfSome result (IsName self.now.log.setup) }
        ensures none { result ≡ None → HasNoCopy (P.start self.now.plan) self.now.log name }
    {
        if name.copy != 0 {
            return None;
        }
        for copy in 1..MAX_COPY + 1 {
            let copied = Name { copy, ..name };
            if self.can_copy(copied) {
                return Some(copied);
            }
        }
        None
    }

    /// The names that wait for a node.
    pub fn waiting(&self, node: u32) -> &[StoredName]
        requires { node < self.now.log.setup.nodes }
        ensures value { result.now ≡ waiting_in (P.start self.now.plan) self.now.log node }
        ensures once { IsBuffer (world_of (P.start self.now.plan) self.now.log)
            (history self.now.log) node result.now }
    {
        let mail = self.mail(node);
        mail.waiting()
    }

    /// The names released to a node: those that each of its receives handed out, and those that
    /// wait.
    pub fn mail(&self, node: u32) -> &Mailbox
        requires { node < self.now.log.setup.nodes }
        ensures handed { result.now.handed ≡ handed_of
            (world_of (P.start self.now.plan) self.now.log) node (history self.now.log) }
        ensures waiting { result.now.waiting
            ≡ waiting_in (P.start self.now.plan) self.now.log node }
        ensures once { IsBuffer (world_of (P.start self.now.plan) self.now.log)
            (history self.now.log) node result.now.waiting }
    {
        &self.mails[node as usize]
    }

    /// The answers that the network's events got, in their order: whether a copy was let go, lost
    /// or made.
    pub fn answers(&self) -> &[bool]
        ensures { result.now
            ≡ answers_of (world_of (P.start self.now.plan) self.now.log) (history self.now.log) }
    {
        &self.answers
    }

    /// The messages in the order in which they were sent, by the names of their copies 0: each
    /// stands at the place that is its serial.
    pub fn messages(&self) -> &[StoredName]
        ensures { AreSent (world_of (P.start self.now.plan) self.now.log) (history self.now.log)
            result.now }
    {
        &self.messages
    }

    /// The copies in flight, by their messages' serials and then by their copy numbers. It asks for
    /// each message that was sent what became of its copies; a copy number that no message has yet
    /// has no table, and is passed over at once.
    pub fn flight(&self, alloc: Global) -> Result<Vec<InFlight>, NoMemory>
        ensures { IfOk result (λ flight.
            IsFlight (P.start self.now.plan) self.now.log flight.items) }
    {
        let mut flight = Vec::new(alloc);
        for (serial, message) in self.messages.iter().enumerate() {
            self.add_copies(serial, message.name(), &mut flight)?;
        }
        Ok(flight)
    }

    /// Adds the copies of the next message that are in flight.
    fn add_copies(
        &self,
        serial: usize,
        message: Name,
        flight: &mut Vec<InFlight>,
    ) -> Result<(), NoMemory>
        requires message { HasSerial (world_of (P.start self.now.plan) self.now.log)
            (history self.now.log) serial message }
        requires before { IsFlightBefore (P.start self.now.plan) self.now.log serial 0
            flight.old.items }
        ensures { OnOk result (IsFlightBefore (P.start self.now.plan) self.now.log (serial + 1) 0
            flight.new.items) }
    {
        let place = self.place(message);
        let sent_at = self.slot(message);
        for copy in 0..MAX_COPY + 1 {
            if self.marks.at(copy, place) == Mark::Flying {
                let name = Name { copy, ..message };
                flight.push(InFlight {
                    name,
                    sent_at,
                    serial,
                })?;
            }
        }
        Ok(())
    }

    /// The step number of a message's slot.
    fn slot(&self, name: Name) -> u32
        requires { IsName self.now.log.setup name }
        ensures { result ≡ P.start self.now.plan name.round + name.to }
    {
        self.plan.start(name.round) + name.to
    }

    /// The place of a message in its copy's table.
    fn place(&self, name: Name) -> usize
        requires { IsName self.now.log.setup name }
        ensures { result ≡ ((name.round - 1) * self.now.log.setup.nodes + name.from)
            * self.now.log.setup.nodes + name.to }
    {
        let nodes = self.setup.nodes as usize;
        ((name.round as usize - 1) * nodes + name.from as usize) * nodes + name.to as usize
    }

    /// The first step of a round.
    fn start(&self, round: u32) -> u64
        requires first { 0 < round }
        requires last { round ≤ self.now.log.setup.rounds + 1 }
        ensures value { result ≡ P.start self.now.plan round }
        ensures small { 4 + result < 2 ^ 32 }
    {
        u64::from(self.plan.start(round))
    }

    /// How many steps a node has taken, as marks keep it: at most as many as the rounds have, since
    /// later ones receive nothing.
    fn counted(&self, node: u32) -> u64
        requires { node < self.now.log.setup.nodes }
        ensures value { result ≡ counted (world_of (P.start self.now.plan) self.now.log)
            (count_of self.now.log node) }
        ensures small { 4 + result < 2 ^ 32 }
    {
        self.count_of(node).min(self.start(self.setup.rounds + 1))
    }

    /// The message for which a step of a node, from 0, is the slot; `None` if that step is a
    /// receive, or past the last round.
    pub fn message_at(&self, node: u32, step: u64) -> Option<Name>
        requires { node < self.now.log.setup.nodes }
        ensures { MatchOption result
            (IsNoMessageAt (world_of (P.start self.now.plan) self.now.log) step)
            (IsMessageAt (world_of (P.start self.now.plan) self.now.log) node step) }
    {
        if step >= self.start(self.setup.rounds + 1) {
            return None;
        }
        match self.plan.place(step as u32) {
            Slot::Send { round, to } => Some(Name {
                from: node,
                to,
                round,
                copy: 0,
            }),
            Slot::Receive { round: _, last: _ } => None,
        }
    }

    /// Whether a round of the node is due and isn't closed.
    pub fn is_due(&self, node: u32) -> bool
        requires { node < self.now.log.setup.nodes }
        ensures { IsTrue result ↔ IsDue (P.start self.now.plan) self.now.log node }
    {
        let round = self.round_of(node);
        if round > self.setup.rounds {
            return false;
        }
        self.start(round + 1) <= self.count_of(node)
    }

    /// Whether the next step of a node that isn't due is a receive.
    fn is_receive(&self, node: u32) -> bool
        requires node { node < self.now.log.setup.nodes }
        requires not_due { ¬ IsDue (P.start self.now.plan) self.now.log node }
        ensures { IsTrue result ↔ IsReceive (P.start self.now.plan) self.now.log node }
    {
        let round = self.round_of(node);
        if round > self.setup.rounds {
            return false;
        }
        self.start(round) + u64::from(self.setup.nodes) <= self.count_of(node)
    }

    /// Why a send would be refused, if it would be for another cause than memory.
    pub fn refuses_send(&self, prepared: &Prepared) -> Option<SendFault>
        requires { IsName self.now.log.setup prepared.now.name }
        ensures { MatchOption result
            (IsSendFit (P.start self.now.plan) self.now.log prepared.now)
            (SendCause (P.start self.now.plan) self.now.log prepared.now) }
    {
        let name = prepared.name();
        if self.is_due(name.from) {
            return Some(SendFault::NotClosed);
        }
        if self.count_of(name.from) != self.start(name.round) + u64::from(name.to) {
            return Some(SendFault::NotItsSlot);
        }
        let row = &self.states[name.from as usize];
        if !row[name.round as usize - 1].same(prepared.state()) {
            return Some(SendFault::Stranger);
        }
        None
    }

    /// Records a send that isn't refused, with a message or silence.
    #[inline(always)]
    pub fn record_send(&mut self, prepared: &Prepared) -> Result<(), NoMemory>
        requires name { IsName self.old.log.setup prepared.now.name }
        requires work { IsPrepared
            (algorithm_of self.old.log.program self.old.log.setup) prepared.now }
        requires fit { IsSendFit (P.start self.old.plan) self.old.log prepared.now }
        ensures ok { OnOk result (Sends P.start prepared.now self.old self.new) }
        ensures err { OnErr result (self.new ≡ self.old) }
    {
        let name = prepared.name();
        let place = self.place(name);
        let mark = spoken(prepared);
        note_send(
            &mut self.trace,
            &mut self.steps,
            &mut self.marks,
            &mut self.messages,
            name,
            place,
            mark,
        )?;
        Ok(())
    }

    /// A receive step: what waits for the node is handed out.
    pub fn receive(&mut self, node: u32) -> Result<(), ReceiveFault>
        requires { node < self.old.log.setup.nodes }
        ensures ok { OnOk result (Receives P.start node self.old self.new) }
        ensures err { OnErr result (self.new ≡ self.old) }
        ensures cause { IfErr result (ReceiveCause (P.start self.old.plan) self.old.log node) }
    {
        if let Some(fault) = self.refuses_receive(node) {
            return Err(fault);
        }
        self.record_receive(node)?;
        Ok(())
    }

    /// Why a receive would be refused, if it would be for another cause than memory.
    pub fn refuses_receive(&self, node: u32) -> Option<ReceiveFault>
        requires { node < self.now.log.setup.nodes }
        ensures { MatchOption result
            (IsReceiveFit (P.start self.now.plan) self.now.log node)
            (ReceiveCause (P.start self.now.plan) self.now.log node) }
    {
        if self.is_due(node) {
            return Some(ReceiveFault::NotClosed);
        }
        if !self.is_receive(node) {
            return Some(ReceiveFault::NotItsSlot);
        }
        None
    }

    /// Records a receive that isn't refused: what waits for the node is handed out.
    #[inline(always)]
    pub fn record_receive(&mut self, node: u32) -> Result<(), NoMemory>
        requires node { node < self.old.log.setup.nodes }
        requires fit { IsReceiveFit (P.start self.old.plan) self.old.log node }
        ensures ok { OnOk result (Receives P.start node self.old self.new) }
        ensures err { OnErr result (self.new ≡ self.old) }
    {
        note_receive(
            &mut self.trace,
            &mut self.steps,
            &mut self.mails[node as usize],
            node,
        )?;
        Ok(())
    }

    /// A step after the last round.
    pub fn idle_step(&mut self, node: u32) -> Result<(), IdleFault>
        requires { node < self.old.log.setup.nodes }
        ensures ok { OnOk result (Idles P.start node self.old self.new) }
        ensures err { OnErr result (self.new ≡ self.old) }
        ensures cause { IfErr result (IdleCause self.old.log node) }
    {
        if self.round_of(node) <= self.setup.rounds {
            return Err(IdleFault::NotPast);
        }
        self.record_idle_step(node)?;
        Ok(())
    }

    /// Records an idle step, one after the last round, which the caller has shown to fit.
    pub fn record_idle_step(&mut self, node: u32) -> Result<(), NoMemory>
        requires node { node < self.old.log.setup.nodes }
        requires past { self.old.log.setup.rounds < round_of self.old.log node }
        ensures ok { OnOk result (Idles P.start node self.old self.new) }
        ensures err { OnErr result (self.new ≡ self.old) }
    {
        note_step(&mut self.trace, &mut self.steps, node)?;
        Ok(())
    }
}

/// The mark of what is sent.
fn spoken(prepared: &Prepared) -> Mark
    ensures value { result ≡ spoken prepared.now.message }
    ensures short { IsShort result }
{
    if prepared.is_silent() {
        Mark::Silent
    } else {
        Mark::Flying
    }
}

//! Runs that go on event by event, on one thread.
ghost use Rattle.std.specs.Prelude.{◌≡◌, ℕ, ◌+◌, ◌<◌, ◌≤◌, ◌⊎◌, ◌∷◌, [], All, IfErr, IfOk, OnOk};
ghost use Rattle.std.specs.Prelude.{length};
ghost use Rattle.run_events.specs.Limits.{max_rounds};
ghost use Rattle.round_meaning.specs.Setups.{IsLawful, IsSetup};
ghost use Rattle.step_book.specs.Agreement.{row};
ghost use Rattle.step_book.specs.Log.{count_of, happened, opened, round_of};
ghost use Rattle.step_book.specs.Names.{IsName};
ghost use Rattle.run_events.specs.declared.event.Event.TheVariants as event;
ghost use Rattle.adversary.specs.Driving.{AreMore, AreNodesOf, ClosedAreDue, GoesOn, IsDriven};
ghost use Rattle.adversary.specs.Driving.{IsInRound, IsKnown, IsNodeOf, IsOneMore, IsSettled};
ghost use Rattle.adversary.specs.Driving.{IsUnknownPast};

use crate::fault::RunFault;
use crate::running::{is_known, unknown_at};
use round_check::Checked;
use round_meaning::Setup;
use run_events::{Event, Name, NoMemory, StoredEvent};
use slot_plans::Plan;
use std::alloc::Global;
use std::marker::Model;
use step_book::take_all;
use step_journal::Journal;
use step_machine::Node;

/// A run whose nodes stand where its journal says, and whose due rounds are closed.
#[derive(Drop)]
pub struct Driver<P: Plan> {
    journal: Journal<P>,
    nodes: Vec<Node>,
}

impl<P: Plan> Model for Driver<P> {
    ghost use Rattle.round_lang.specs.contracts.formula.Formula as formula;
    ghost use Rattle.std.specs.Coded.{codes};
    ghost use Rattle.step_book.specs.Log.{Recorded};
    ghost use Rattle.adversary.specs.Driving.{IsDriven};

    ghost Value = { Recorded P };

    ghost coded = { Prim.hlevel (codes, formula.the_row.coded) };

    ghost view = { λ s. s.journal };

    ghost invariant = { λ s. IsDriven (P.start s.journal.plan) s.journal.log s.nodes.items };
}

impl<P: Plan> Driver<P> {
    /// A run that begins.
    pub fn open(
        alloc: Global,
        program: &Checked,
        setup: &Setup,
        plan: P,
    ) -> Result<Driver<P>, NoMemory>
        requires lawful { IsLawful program.now.values setup.now }
        requires nodes { P.nodes plan ≡ setup.now.nodes }
        ensures { IfOk result (λ driver. driver
            ≡ record { plan = plan; log = opened program.now setup.now }) }
    {
        let journal = Journal::open(alloc, program, setup, plan)?;
        journal.book().agrees();
        let nodes = first_nodes(alloc, program, setup)?;
        Ok(Driver { journal, nodes })
    }

    /// Makes room for so many events more.
    pub fn reserve(&mut self, events: usize) -> Result<(), NoMemory>
        ensures { self.new ≡ self.old }
    {
        self.journal.reserve(events)
    }

    /// What is recorded so far.
    pub fn journal(&self) -> &Journal<P>
        ensures { result.now ≡ self.now }
    {
        &self.journal
    }

    /// The run with one event more. A due round is closed at once, and steps past the last round
    /// are idle. Without memory the run is gone.
    #[inline(always)]
    pub fn act(self, event: Event) -> Result<Driver<P>, NoMemory>
        requires { IsKnown self.log.setup event }
        ensures plan { IfOk result (λ driver. driver.plan ≡ self.plan) }
        ensures log { IfOk result (λ driver. IsOneMore self.log driver.log event) }
    {
        let Driver {
            mut journal,
            mut nodes,
        } = self;
        act(&mut journal, &mut nodes, event)?;
        Ok(Driver { journal, nodes })
    }

    /// The run with these events more, one after the other, each as by [`Driver::act`].
    pub fn act_all(self, events: &[Event]) -> Result<Driver<P>, NoMemory>
        requires { All (IsKnown self.log.setup) events.now }
        ensures plan { IfOk result (λ driver. driver.plan ≡ self.plan) }
        ensures log { IfOk result (λ driver. AreMore self.log driver.log events.now) }
    {
        let Driver {
            mut journal,
            mut nodes,
        } = self;
        for event in events {
            act(&mut journal, &mut nodes, *event)?;
        }
        Ok(Driver { journal, nodes })
    }

    /// The same with events that may name what the run hasn't, up to the first that does. Where one
    /// does, and if there is no memory, the run is gone.
    pub(crate) fn act_known(self, events: &[StoredEvent]) -> Result<Driver<P>, RunFault>
        ensures known { IfOk result (λ _driver. All (IsKnown self.log.setup) events.now) }
        ensures plan { IfOk result (λ driver. driver.plan ≡ self.plan) }
        ensures log { IfOk result (λ driver. AreMore self.log driver.log events.now) }
        ensures cause { IfErr result (λ fault. (fault ≡ RunFault.NoMemory)
            ⊎ IsUnknownPast self.log.setup (length self.log.trace) events.now fault) }
    {
        let Driver {
            mut journal,
            mut nodes,
        } = self;
        for stored in events {
            let event = stored.event();
            if !is_known(journal.book().setup(), event) {
                return Err(unknown_at(event, journal.book().trace().len()));
            }
            act(&mut journal, &mut nodes, event)?;
        }
        Ok(Driver { journal, nodes })
    }

    /// The journal of the events.
    pub fn into_journal(self) -> Journal<P>
        ensures same { result ≡ self }
        ensures closed { ClosedAreDue (P.start result.plan) result.log }
    {
        self.journal.book().agrees();
        let Driver { journal, nodes: _ } = self;
        journal
    }
}

/// The nodes before their first round.
fn first_nodes(alloc: Global, program: &Checked, setup: &Setup) -> Result<Vec<Node>, NoMemory>
    requires { IsSetup setup.now }
    ensures { IfOk result (λ nodes. (start : ℕ → ℕ)
        → AreNodesOf start (opened program.now setup.now) nodes.items) }
{
    let mut nodes = Vec::new(alloc);
    for me in 0..setup.nodes {
        nodes.push(Node::new(alloc, program, setup, me)?)?;
    }
    Ok(nodes)
}

/// One event more.
#[inline(always)]
fn act<P: Plan>(
    journal: &mut Journal<P>,
    nodes: &mut Vec<Node>,
    event: Event,
) -> Result<(), NoMemory>
    requires driven { IsDriven (P.start journal.old.plan) journal.old.log nodes.old.items }
    requires known { IsKnown journal.old.log.setup event }
    ensures plan { OnOk result (journal.new.plan ≡ journal.old.plan) }
    ensures log { OnOk result (IsOneMore journal.old.log journal.new.log event) }
    ensures driven { OnOk result
        (IsDriven (P.start journal.new.plan) journal.new.log nodes.new.items) }
{
    journal.book().agrees();
    match event {
        Event::Step(node) => step(journal, &mut nodes[node as usize], node),
        Event::Release(name) => release(journal, name),
        Event::Drop(name) => lose(journal, name),
        Event::Copy(name) => copy(journal, name),
    }
}

/// The network lets a message go.
#[inline(always)]
fn release<P: Plan>(journal: &mut Journal<P>, name: Name) -> Result<(), NoMemory>
    requires { IsName journal.old.log.setup name }
    ensures { OnOk result
        (journal.new ≡ record journal.old { log = happened journal.old.log (event.Release name) }) }
{
    let _moved = journal.release(name)?;
    Ok(())
}

/// The network drops a message.
fn lose<P: Plan>(journal: &mut Journal<P>, name: Name) -> Result<(), NoMemory>
    requires { IsName journal.old.log.setup name }
    ensures { OnOk result
        (journal.new ≡ record journal.old { log = happened journal.old.log (event.Drop name) }) }
{
    let _lost = journal.drop_frame(name)?;
    Ok(())
}

/// The network copies a message.
fn copy<P: Plan>(journal: &mut Journal<P>, name: Name) -> Result<(), NoMemory>
    requires name { IsName journal.old.log.setup name }
    requires other { 0 < name.copy }
    ensures { OnOk result
        (journal.new ≡ record journal.old { log = happened journal.old.log (event.Copy name) }) }
{
    let _made = journal.copy_frame(name)?;
    Ok(())
}

/// The node's next step, and the end of its round if that is due.
#[inline(always)]
fn step<P: Plan>(journal: &mut Journal<P>, node: &mut Node, me: u32) -> Result<(), NoMemory>
    requires rounds { journal.old.log.setup.rounds ≤ max_rounds }
    requires me { me < journal.old.log.setup.nodes }
    requires node { IsNodeOf (P.start journal.old.plan) journal.old.log me node.old }
    requires settled { IsSettled (P.start journal.old.plan) journal.old.log me }
    ensures plan { OnOk result (journal.new.plan ≡ journal.old.plan) }
    ensures log { OnOk result (GoesOn journal.old.log journal.new.log me (event.Step me ∷ [])) }
    ensures node { OnOk result (IsNodeOf (P.start journal.new.plan) journal.new.log me node.new) }
    ensures settled { OnOk result (IsSettled (P.start journal.new.plan) journal.new.log me) }
{
    let book = journal.book();
    book.agrees();
    let round = book.round_of(me);
    if round > book.setup().rounds {
        return idle(journal, me);
    }
    let plan = book.plan();
    let count = book.count_of(me);
    let offset = count.saturating_sub(u64::from(plan.start(round)));
    if offset < u64::from(book.setup().nodes) {
        return send(journal, node, me, offset as u32);
    }
    receive(journal, node, me)?;
    if count.saturating_add(1) == u64::from(plan.start(round + 1)) {
        close(journal, node)?;
    }
    Ok(())
}

/// A step past the last round.
fn idle<P: Plan>(journal: &mut Journal<P>, me: u32) -> Result<(), NoMemory>
    requires me { me < journal.old.log.setup.nodes }
    requires past { journal.old.log.setup.rounds < round_of journal.old.log me }
    ensures plan { OnOk result (journal.new.plan ≡ journal.old.plan) }
    ensures log { OnOk result (GoesOn journal.old.log journal.new.log me (event.Step me ∷ [])) }
    ensures row { OnOk result (row journal.new.log.rows me ≡ row journal.old.log.rows me) }
{
    journal.record_idle_step(me)
}

/// A send step: what the node has for another.
#[inline(always)]
fn send<P: Plan>(
    journal: &mut Journal<P>,
    node: &mut Node,
    me: u32,
    dest: u32,
) -> Result<(), NoMemory>
    requires nodes { P.nodes journal.old.plan ≡ journal.old.log.setup.nodes }
    requires me { me < journal.old.log.setup.nodes }
    requires dest { dest < journal.old.log.setup.nodes }
    requires round { IsInRound (P.start journal.old.plan) journal.old.log me }
    requires slot { count_of journal.old.log me
        ≡ P.start journal.old.plan (round_of journal.old.log me) + dest }
    requires node { IsNodeOf (P.start journal.old.plan) journal.old.log me node.old }
    ensures plan { OnOk result (journal.new.plan ≡ journal.old.plan) }
    ensures log { OnOk result (GoesOn journal.old.log journal.new.log me (event.Step me ∷ [])) }
    ensures row { OnOk result (row journal.new.log.rows me ≡ row journal.old.log.rows me) }
    ensures node { OnOk result (IsNodeOf (P.start journal.new.plan) journal.new.log me node.new) }
{
    let prepared = node.prepare(dest)?;
    match journal.record_send(prepared) {
        Ok(()) => {}
        Err(_) => return Err(NoMemory),
    }
    Ok(())
}

/// A receive step: the node takes what was handed out.
#[inline(always)]
fn receive<P: Plan>(journal: &mut Journal<P>, node: &mut Node, me: u32) -> Result<(), NoMemory>
    requires nodes { P.nodes journal.old.plan ≡ journal.old.log.setup.nodes }
    requires me { me < journal.old.log.setup.nodes }
    requires round { IsInRound (P.start journal.old.plan) journal.old.log me }
    requires sent { P.start journal.old.plan (round_of journal.old.log me)
        + journal.old.log.setup.nodes ≤ count_of journal.old.log me }
    requires node { IsNodeOf (P.start journal.old.plan) journal.old.log me node.old }
    ensures plan { OnOk result (journal.new.plan ≡ journal.old.plan) }
    ensures log { OnOk result (GoesOn journal.old.log journal.new.log me (event.Step me ∷ [])) }
    ensures row { OnOk result (row journal.new.log.rows me ≡ row journal.old.log.rows me) }
    ensures node { OnOk result (IsNodeOf (P.start journal.new.plan) journal.new.log me node.new) }
{
    let took = journal.record_receive(me)?;
    take_all(node, took.frames);
    Ok(())
}

/// The end of the node's due round.
fn close<P: Plan>(journal: &mut Journal<P>, node: &mut Node) -> Result<(), NoMemory>
    requires me { node.old.me < journal.old.log.setup.nodes }
    requires first { 0 < round_of journal.old.log node.old.me }
    requires last { node.old.round ≤ journal.old.log.setup.rounds }
    requires due { count_of journal.old.log node.old.me
        ≡ P.start journal.old.plan (round_of journal.old.log node.old.me + 1) }
    requires node { IsNodeOf (P.start journal.old.plan) journal.old.log node.old.me node.old }
    ensures plan { OnOk result (journal.new.plan ≡ journal.old.plan) }
    ensures log { OnOk result (GoesOn journal.old.log journal.new.log node.old.me []) }
    ensures round { OnOk result
        (round_of journal.new.log node.old.me ≡ round_of journal.old.log node.old.me + 1) }
    ensures node { OnOk result
        (IsNodeOf (P.start journal.new.plan) journal.new.log node.old.me node.new) }
{
    let finished = node.finish();
    journal.record_close(&finished)?;
    node.settle();
    Ok(())
}

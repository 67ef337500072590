//! A run in rounds that omits messages, and in which nodes stop.
ghost use Rattle.std.specs.Prelude.{◌≡◌, ◌+◌, ◌-◌, ◌<◌, ◌≤◌, IfOk, length, not, slice_index};
ghost use Rattle.omission_explainer.specs.Printed.{heard_set, omitted_set, silent_set};
ghost use Rattle.omission_schedules.specs.Reports.{has_message, is_ended};
ghost use Rattle.omission_schedules.specs.Schedules.{has_slot};
ghost use Rattle.omission_schedules.specs.Stages.{omits_under, outcome_of};
ghost use Rattle.round_meaning.specs.Rounds.{algorithm_of, inbox, rounds};
ghost use Rattle.run_events.specs.Limits.{max_nodes, max_rounds};
ghost use Rattle.round_meaning.specs.States.{initial_states, state_in, states_after};

use round_check::Checked;
use round_lang::{Message, Vars};
use round_meaning::{Heard, NodeSet, OmissionTable, Received, Setup, end_of, initial_of, send_of};
use run_events::NoMemory;
use slot_plans::Plan;
use std::alloc::Global;

/// What a run in rounds is of, which messages it omits, and after how many steps each node stops.
#[derive(Clone, Copy)]
pub(crate) struct Rounds<'a, P: Plan> {
    pub(crate) program: &'a Checked,
    pub(crate) setup: &'a Setup,
    pub(crate) plan: P,
    pub(crate) omissions: &'a OmissionTable,
    pub(crate) stops: &'a [u32],
}

impl<'a, P: Plan> Rounds<'a, P> {
    /// Whether the sender takes its slot of a round before it stops.
    fn has_slot(&self, round: u32, receiver: u32, sender: u32) -> bool
        requires first { 1 ≤ round }
        requires last { round ≤ max_rounds }
        requires sender { sender < length self.now.stops.now }
        ensures { result ≡ has_slot (P.start self.now.plan) (slice_index self.now.stops.now) round
            receiver sender }
    {
        let slot = u64::from(self.plan.start(round)) + u64::from(receiver);
        slot < u64::from(self.stops[sender as usize])
    }

    /// Whether the message is one of the table's, or isn't sent.
    fn is_omitted(&self, round: u32, receiver: u32, sender: u32) -> bool
        requires first { 1 ≤ round }
        requires last { round ≤ max_rounds }
        requires sender { sender < length self.now.stops.now }
        ensures { result ≡ omits_under (P.start self.now.plan) self.now.stops.now
            self.now.omissions.now receiver round sender }
    {
        self.omissions.is_omitted(receiver, round, sender)
            || !self.has_slot(round, receiver, sender)
    }

    /// Whether a node ends a round before it stops.
    pub(crate) fn is_ended(&self, round: u32, node: u32) -> bool
        requires first { 1 ≤ round }
        requires last { round ≤ max_rounds }
        requires node { node < length self.now.stops.now }
        ensures { result ≡ is_ended (P.start self.now.plan) (slice_index self.now.stops.now)
            (round, node) }
    {
        self.plan.start(round + 1) <= self.stops[node as usize]
    }
}

/// What came of a message for its receiver.
#[derive(Drop)]
enum Outcome {
    Heard(Message),
    Silent,
    Omitted,
}

/// What comes to a node in a round: the messages, and what came of each sender's.
#[derive(Drop)]
pub(crate) struct Turn {
    pub(crate) inbox: Vec<Received>,
    pub(crate) heard: NodeSet,
    pub(crate) silent: NodeSet,
    pub(crate) omitted: NodeSet,
}

/// The initial states of all nodes.
#[tactic(auto, unfolding(round_meaning::specs::Rounds::algorithm))]
pub(crate) fn initial_states(
    alloc: Global,
    program: &Checked,
    setup: &Setup,
) -> Result<Vec<Vars>, NoMemory>
    ensures { IfOk result
        (λ states. states.items ≡ initial_states (algorithm_of program.now setup.now)) }
{
    let mut states = Vec::new(alloc);
    for node in 0..setup.nodes {
        states.push(initial_of(alloc, program, setup, node)?)?;
    }
    Ok(states)
}

/// The state of a node among those of all.
fn state_of(states: &[Vars], node: u32) -> &Vars
    requires { node < length states.now }
    ensures { result.now ≡ state_in states.now node }
{
    &states[node as usize]
}

/// What comes of a message, or of none, from a sender in a state.
fn outcome_of<P: Plan>(
    alloc: Global,
    run: &Rounds<'_, P>,
    round: u32,
    state: &Vars,
    sender: u32,
    receiver: u32,
) -> Result<Outcome, NoMemory>
    requires first { 1 ≤ round }
    requires last { round ≤ max_rounds }
    requires sender { sender < length run.now.stops.now }
    ensures { IfOk result (λ outcome. outcome ≡ outcome_of
        (omits_under (P.start run.now.plan) run.now.stops.now run.now.omissions.now receiver round
        sender)
        (has_slot (P.start run.now.plan) (slice_index run.now.stops.now) round receiver sender)
        ((algorithm_of run.now.program.now run.now.setup.now).send round state.now sender
        receiver)) }
{
    let omitted = run.is_omitted(round, receiver, sender);
    let stood = run.has_slot(round, receiver, sender);
    match send_of(
        alloc,
        run.program,
        run.setup,
        round,
        state,
        sender,
        receiver,
    )? {
        Some(message) if !omitted => Ok(Outcome::Heard(message)),
        None if stood => Ok(Outcome::Silent),
        _ => Ok(Outcome::Omitted),
    }
}

/// What comes to a node in a round, from the states of all nodes before it.
pub(crate) fn turn_of<P: Plan>(
    alloc: Global,
    run: &Rounds<'_, P>,
    round: u32,
    before: &[Vars],
    node: u32,
) -> Result<Turn, NoMemory>
    requires first { 1 ≤ round }
    requires last { round ≤ max_rounds }
    requires nodes { run.now.setup.now.nodes ≤ max_nodes }
    requires stops { run.now.setup.now.nodes ≤ length run.now.stops.now }
    requires before { before.now ≡ states_after
        (algorithm_of run.now.program.now run.now.setup.now)
        (omits_under (P.start run.now.plan) run.now.stops.now run.now.omissions.now) (round - 1) }
    ensures inbox { let a = algorithm_of run.now.program.now run.now.setup.now in
        let omits = omits_under (P.start run.now.plan) run.now.stops.now run.now.omissions.now in
        IfOk result (λ turn. turn.inbox.items
        ≡ inbox a (omits node round) (rounds a omits (round - 1)) round node) }
    ensures heard { let a = algorithm_of run.now.program.now run.now.setup.now in
        let omits = omits_under (P.start run.now.plan) run.now.stops.now run.now.omissions.now in
        IfOk result (λ turn. turn.heard.bits ≡ heard_set run.now.setup.now.nodes
        (λ j. not (omits node round j)) (has_message a omits round node)) }
    ensures silent { let a = algorithm_of run.now.program.now run.now.setup.now in
        let omits = omits_under (P.start run.now.plan) run.now.stops.now run.now.omissions.now in
        IfOk result (λ turn. turn.silent.bits ≡ silent_set run.now.setup.now.nodes
        (has_message a omits round node)
        (has_slot (P.start run.now.plan) (slice_index run.now.stops.now) round node)) }
    ensures omitted { let a = algorithm_of run.now.program.now run.now.setup.now in
        let omits = omits_under (P.start run.now.plan) run.now.stops.now run.now.omissions.now in
        IfOk result (λ turn. turn.omitted.bits ≡ omitted_set run.now.setup.now.nodes
        (λ j. not (omits node round j)) (has_message a omits round node)
        (has_slot (P.start run.now.plan) (slice_index run.now.stops.now) round node)) }
{
    let mut inbox = Vec::new(alloc);
    let mut heard = NodeSet::empty();
    let mut silent = NodeSet::empty();
    let mut omitted = NodeSet::empty();
    for from in 0..run.setup.nodes {
        let outcome = outcome_of(alloc, run, round, state_of(before, from), from, node)?;
        match outcome {
            Outcome::Heard(message) => {
                inbox.push(Received { from, message })?;
                heard = heard.with(from);
            }
            Outcome::Silent => silent = silent.with(from),
            Outcome::Omitted => omitted = omitted.with(from),
        }
    }
    Ok(Turn {
        inbox,
        heard,
        silent,
        omitted,
    })
}

/// The state with which a node ends a round, from what comes to it and the states before it.
pub(crate) fn end_state<P: Plan>(
    alloc: Global,
    run: &Rounds<'_, P>,
    round: u32,
    before: &[Vars],
    node: u32,
    turn: &Turn,
) -> Result<Vars, NoMemory>
    requires first { 1 ≤ round }
    requires node { node < run.now.setup.now.nodes }
    requires before { before.now ≡ states_after
        (algorithm_of run.now.program.now run.now.setup.now)
        (omits_under (P.start run.now.plan) run.now.stops.now run.now.omissions.now) (round - 1) }
    requires inbox { let a = algorithm_of run.now.program.now run.now.setup.now in
        let omits = omits_under (P.start run.now.plan) run.now.stops.now run.now.omissions.now in
        turn.now.inbox.items
        ≡ inbox a (omits node round) (rounds a omits (round - 1)) round node }
    ensures { IfOk result (λ state. state ≡ rounds
        (algorithm_of run.now.program.now run.now.setup.now)
        (omits_under (P.start run.now.plan) run.now.stops.now run.now.omissions.now) round node) }
{
    let inbox = lent(alloc, &turn.inbox)?;
    let state = state_of(before, node);
    end_of(alloc, run.program, run.setup, round, node, &inbox, state)
}

/// The same inbox, lent.
fn lent<'a>(alloc: Global, inbox: &'a [Received]) -> Result<Vec<Heard<'a>>, NoMemory>
    ensures { IfOk result (λ heard. heard.items ≡ inbox.now) }
{
    let mut heard = Vec::with_capacity(alloc, inbox.len())?;
    for received in inbox {
        heard.push(Heard::new(received.from, &received.message))?;
    }
    Ok(heard)
}

//! The run of all nodes in rounds.
ghost use Rattle.std.specs.Prelude.{◌≡◌, ℕ, Bool, ◌+◌, ◌^◌, ◌<◌, IfOk, length};
ghost use Rattle.round_meaning.specs.Agreement.{AgreesIn, DecisionsAgree, DecisionsAreInputs};
ghost use Rattle.round_meaning.specs.Agreement.{IsValidIn};
ghost use Rattle.round_meaning.specs.Omissions.{is_omitted};
ghost use Rattle.round_meaning.specs.Rounds.{algorithm_of, heard, inbox};
ghost use Rattle.round_meaning.specs.States.{HasRun, initial_states, next_state, state_in};
ghost use Rattle.round_meaning.specs.States.{states_after};

use crate::omissions::OmissionTable;
use crate::received::{Heard, Received};
use crate::setup::Setup;
use crate::states::{Snapshot, StateTable};
use crate::turn::{end_of, initial_of, send_of};
use round_check::Checked;
use round_lang::Vars;
use run_events::NoMemory;
use std::alloc::Global;

/// The states of all nodes after each of some rounds, where all nodes go on at once: the basic
/// round model. What holds of all decisions of the program under these omissions holds of the
/// decisions in the table. For Algorithm 1, `decisions_agree` gives both premises.
pub fn run_rounds(
    alloc: Global,
    program: &Checked,
    setup: &Setup,
    omissions: &OmissionTable,
    rounds: u32,
) -> Result<StateTable, NoMemory>
    ensures program { IfOk result (λ t. t.program ≡ program.now) }
    ensures nodes { IfOk result (λ t. t.nodes ≡ setup.now.nodes) }
    ensures rounds { IfOk result (λ t. t.rounds ≡ rounds) }
    ensures states { IfOk result
        (λ t. HasRun t (algorithm_of program.now setup.now) (is_omitted omissions.now)) }
    ensures agreement { IfOk result
        (λ t. AgreesIn program.now setup.now (is_omitted omissions.now) → DecisionsAgree t) }
    ensures validity { IfOk result (λ t. IsValidIn program.now setup.now (is_omitted omissions.now)
        → DecisionsAreInputs setup.now t) }
{
    let mut snapshots = Vec::new(alloc);
    snapshots.push(initial_states(alloc, program, setup)?)?;
    for done in 0..rounds {
        let next = {
            let before = &snapshots[done as usize];
            next_states(alloc, program, setup, omissions, done, before)?
        };
        snapshots.push(next)?;
    }
    Ok(StateTable::new(program.copy()?, setup.nodes, rounds, snapshots))
}

/// The initial states of all nodes.
#[tactic(auto, unfolding(crate::specs::Rounds::algorithm))]
fn initial_states(alloc: Global, program: &Checked, setup: &Setup) -> Result<Snapshot, NoMemory>
    ensures { IfOk result (λ states. states ≡ initial_states (algorithm_of program.now setup.now)) }
{
    let mut states = Snapshot::new(alloc);
    for me in 0..setup.nodes {
        let state = initial_of(alloc, program, setup, me)?;
        states.push(state)?;
    }
    Ok(states)
}

/// The states of all nodes after one round more than `done`.
fn next_states(
    alloc: Global,
    program: &Checked,
    setup: &Setup,
    omissions: &OmissionTable,
    done: u32,
    before: &Snapshot,
) -> Result<Snapshot, NoMemory>
    requires room { done + 1 < 2 ^ 32 }
    requires before { before.now
        ≡ states_after (algorithm_of program.now setup.now) (is_omitted omissions.now) done }
    ensures { IfOk result (λ states. states
        ≡ states_after (algorithm_of program.now setup.now) (is_omitted omissions.now) (done + 1)) }
{
    let mut states = Snapshot::new(alloc);
    for me in 0..setup.nodes {
        let state = next_state(alloc, program, setup, omissions, done + 1, before, me)?;
        states.push(state)?;
    }
    Ok(states)
}

/// The state of a node after a round, from the states of all nodes before it.
fn next_state(
    alloc: Global,
    program: &Checked,
    setup: &Setup,
    omissions: &OmissionTable,
    round: u32,
    before: &Snapshot,
    me: u32,
) -> Result<Vars, NoMemory>
    requires nodes { length before.now ≡ setup.now.nodes }
    requires me { me < setup.now.nodes }
    ensures { IfOk result (λ state. state
        ≡ next_state (algorithm_of program.now setup.now) (is_omitted omissions.now) round
        (state_in before.now) me) }
{
    let received = inbox_of(alloc, program, setup, omissions, round, before, me)?;
    let inbox = lent(alloc, &received)?;
    end_of(alloc, program, setup, round, me, &inbox, before.state(me))
}

/// The same inbox, lent.
fn lent<'a>(alloc: Global, inbox: &'a [Received]) -> Result<Vec<Heard<'a>>, NoMemory>
    ensures { IfOk result (λ heard. heard.items ≡ inbox.now) }
{
    let mut heard = Vec::with_capacity(alloc, inbox.len())?;
    for received in inbox {
        heard.push(Heard::new(received.from, &received.message))?;
    }
    Ok(heard)
}

/// What a node gets in a round, in rising order of sender.
#[tactic(auto, unfolding(crate::specs::Rounds::inbox, crate::specs::Rounds::algorithm))]
fn inbox_of(
    alloc: Global,
    program: &Checked,
    setup: &Setup,
    omissions: &OmissionTable,
    round: u32,
    before: &Snapshot,
    me: u32,
) -> Result<Vec<Received>, NoMemory>
    requires { length before.now ≡ setup.now.nodes }
    ensures { IfOk result (λ ms. ms.items
        ≡ inbox (algorithm_of program.now setup.now) (is_omitted omissions.now me round)
        (state_in before.now) round me) }
{
    let mut inbox = Vec::new(alloc);
    for from in 0..setup.nodes {
        if let Some(message) = heard(alloc, program, setup, omissions, round, before, me, from)? {
            inbox.push(message)?;
        }
    }
    Ok(inbox)
}

/// What a node gets from another in a round.
fn heard(
    alloc: Global,
    program: &Checked,
    setup: &Setup,
    omissions: &OmissionTable,
    round: u32,
    before: &Snapshot,
    me: u32,
    from: u32,
) -> Result<Option<Received>, NoMemory>
    requires { from < length before.now }
    ensures { IfOk result (λ m. m
        ≡ heard (algorithm_of program.now setup.now) (is_omitted omissions.now me round)
        (state_in before.now) round me from) }
{
    if omissions.is_omitted(me, round, from) {
        return Ok(None);
    }
    match send_of(alloc, program, setup, round, before.state(from), from, me)? {
        Some(message) => Ok(Some(Received { from, message })),
        None => Ok(None),
    }
}

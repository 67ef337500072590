//! Why what the options say gives no run.
use crate::header::Header;
use crate::located::unwritten;
use crate::named_faults::message_fault;
use crate::sentence::Sentence;
use command_runs::Refusal;
use command_words::{NodeStop, OwnDelay, RoundRange, Words};
use lockstep_runs::MAX_ENTRIES;
use round_meaning::Setup;
use std::io::Write;

/// An option and what is said of its value.
type OptionFault = (&'static str, Sentence<'static>);

/// Tells the option whose value the run can't have, and whether there is one.
pub(crate) fn tell_option<O: Write>(
    command: &Words<'_>,
    header: &Header<'_>,
    out: &mut O,
) -> Result<bool, Refusal> {
    match option_fault(command, &header.setup) {
        Some((option, sentence)) => {
            writeln!(out, "{option}: {sentence}").map_err(unwritten)?;
            Ok(true)
        }
        None => Ok(false),
    }
}

/// The option whose value the run can't have, and what is said of it.
fn option_fault(command: &Words<'_>, setup: &Setup) -> Option<OptionFault> {
    match command {
        Words::Draw { drawing, .. } => {
            list_fault("--nodes", drawing.nodes.as_slice(), setup.nodes).or(rounds_fault(
                drawing.rounds,
                setup.rounds,
            ))
        }
        Words::Judge { correct, .. } => { list_fault("--correct", correct.as_slice(), setup.nodes) }
        Words::Lockstep {
            correct,
            delays,
            orders,
            changes,
            ..
        } => list_fault("--correct", correct.as_slice(), setup.nodes)
            .or(table_fault("--delays", delays.len()))
            .or(table_fault("--orders", orders.len()))
            .or(stop_fault(changes.stops.as_slice(), correct.as_slice(), setup.nodes))
            .or(delay_fault(changes.delays.as_slice(), setup)),
        Words::Explore { exploring, .. } => hears_fault(exploring.hears, setup.nodes),
        _ => None,
    }
}

/// What is said of the first node of a list that the run hasn't.
fn list_fault(option: &'static str, list: &[u32], nodes: u32) -> Option<OptionFault> {
    let node = list.iter().find(|node| **node >= nodes)?;
    Some((option, Sentence::NoNode { node: *node, nodes }))
}

/// What is said of a range that begins behind the last round.
fn rounds_fault(range: Option<RoundRange>, rounds: u32) -> Option<OptionFault> {
    let round = range?.first;
    if round > rounds {
        Some(("--rounds", Sentence::NoRound { round, rounds }))
    } else {
        None
    }
}

fn table_fault(option: &'static str, entries: usize) -> Option<OptionFault> {
    if entries > MAX_ENTRIES {
        Some((option, Sentence::LongTable { entries }))
    } else {
        None
    }
}

/// What is said of the first stop of no node or of a correct one.
fn stop_fault(stops: &[NodeStop], correct: &[u32], nodes: u32) -> Option<OptionFault> {
    for stop in stops {
        let node = stop.node;
        if node >= nodes {
            return Some(("--stop", Sentence::NoNode { node, nodes }));
        }
        if correct.contains(&node) {
            return Some(("--stop", Sentence::CorrectStops { node }));
        }
    }
    None
}

/// What is said of the first delay of no message.
fn delay_fault(delays: &[OwnDelay], setup: &Setup) -> Option<OptionFault> {
    for delay in delays {
        if let Some(sentence) = message_fault(setup, delay.sender, delay.receiver, delay.round) {
            return Some(("--delay", sentence));
        }
    }
    None
}

fn hears_fault(hears: u32, nodes: u32) -> Option<OptionFault> {
    if hears > nodes {
        Some(("--hears", Sentence::HearsTooMany { hears, nodes }))
    } else {
        None
    }
}

//! What a run hasn't of what an event or an omission line names.
use crate::sentence::Sentence;
use crate::word_fault::WordFault;
use omission_texts::{OmissionLine, RoundRange};
use round_meaning::Setup;
use run_events::{Event, MAX_COPY, Name};

/// What is said of the first number of an event that the run hasn't.
pub(crate) fn event_fault(setup: &Setup, event: Event) -> Option<WordFault> {
    match event {
        Event::Step(node) => WordFault::if_any(1, node_fault(setup, node)),
        Event::Release(name) => name_fault(setup, name),
        Event::Drop(name) => name_fault(setup, name),
        Event::Copy(name) if name.copy == 0 => {
            Some(WordFault::of_word(4, Sentence::NoCopy { copy: 0 }))
        }
        Event::Copy(name) => name_fault(setup, name),
    }
}

fn name_fault(setup: &Setup, name: Name) -> Option<WordFault> {
    WordFault::if_any(1, node_fault(setup, name.from))
        .or(WordFault::if_any(2, node_fault(setup, name.to)))
        .or(WordFault::if_any(3, round_fault(setup, name.round)))
        .or(WordFault::if_any(4, copy_fault(name.copy)))
}

/// What is said of the first number of a message that the run hasn't.
pub(crate) fn message_fault(
    setup: &Setup,
    sender: u32,
    receiver: u32,
    round: u32,
) -> Option<Sentence<'static>> {
    node_fault(setup, sender)
        .or(node_fault(setup, receiver))
        .or(round_fault(setup, round))
}

fn node_fault(setup: &Setup, node: u32) -> Option<Sentence<'static>> {
    let nodes = setup.nodes;
    if node < nodes {
        None
    } else {
        Some(Sentence::NoNode { node, nodes })
    }
}

fn round_fault(setup: &Setup, round: u32) -> Option<Sentence<'static>> {
    let rounds = setup.rounds;
    if 0 < round && round <= rounds {
        None
    } else {
        Some(Sentence::NoRound { round, rounds })
    }
}

fn copy_fault(copy: u32) -> Option<Sentence<'static>> {
    if copy > MAX_COPY {
        Some(Sentence::NoCopy { copy })
    } else {
        None
    }
}

/// What is said of the first number of an omission line that the run hasn't.
pub(crate) fn omission_fault(setup: &Setup, line: &OmissionLine) -> Option<WordFault> {
    match line {
        OmissionLine::Omit {
            receiver,
            rounds,
            sender,
        } => WordFault::if_any(1, node_fault(setup, *receiver))
            .or(WordFault::if_any(2, rounds_fault(setup, *rounds)))
            .or(WordFault::if_any(3, node_fault(setup, *sender))),
        OmissionLine::Cut { nodes, rounds } => {
            WordFault::if_any(1, nodes_fault(setup, nodes.as_slice())).or(WordFault::if_any(
                2,
                rounds_fault(setup, *rounds),
            ))
        }
        OmissionLine::Crash {
            node,
            round,
            reached,
        } => WordFault::if_any(1, node_fault(setup, *node))
            .or(WordFault::if_any(2, round_fault(setup, *round)))
            .or(WordFault::if_any(3, nodes_fault(setup, reached.as_slice()))),
    }
}

fn rounds_fault(setup: &Setup, rounds: RoundRange) -> Option<Sentence<'static>> {
    let RoundRange { first, last } = rounds;
    if last < first {
        return Some(Sentence::BackwardRounds { first, last });
    }
    round_fault(setup, first).or(round_fault(setup, last))
}

fn nodes_fault(setup: &Setup, nodes: &[u32]) -> Option<Sentence<'static>> {
    let stranger = nodes.iter().find(|node| **node >= setup.nodes)?;
    node_fault(setup, *stranger)
}

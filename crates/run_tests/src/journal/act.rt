//! The acts on a journal.
use crate::reading::two;
use run_events::Name;
use test_kit::{Fault, cut, number};

/// What is done. A node that isn't the journal's own, a double, does the same with frames of its
/// own.
#[derive(Clone, Copy)]
pub enum Deed {
    Send(u32),
    /// The node's message is read again from its bytes, and isn't sent.
    Seal(u32),
    Receive,
    Close,
    Idle,
    /// The node ends its round by itself.
    Skip,
    Network(Network, Name),
}

/// What the network does with a copy of a message.
#[derive(Clone, Copy, PartialEq, Eq)]
pub enum Network {
    Release,
    Drop,
    Copy,
}

/// What is asked.
#[derive(Clone, Copy)]
pub enum Question {
    Book,
    Event(u32),
    Node(u32),
    Waiting(u32),
    Handed(u32, u32),
    Mark(Name),
    /// What is in flight, or whether a copy is.
    Flight,
    InFlight(Name),
}

/// A deed and the node that does it, or what a journal is asked.
#[derive(Clone, Copy)]
pub enum Act {
    Do { by: u32, deed: Deed },
    Ask(Question),
    /// Makes room for so many events.
    Reserve(u32),
}

/// The name that three numbers are, of copy 0, or four.
fn name(text: &str) -> Result<Name, Fault> {
    let (from, rest) = cut(text);
    let (to, rest) = cut(rest);
    let (round, copy) = cut(rest);
    Ok(Name {
        from: number(from)?,
        to: number(to)?,
        round: number(round)?,
        copy: if copy.is_empty() { 0 } else { number(copy)? },
    })
}

fn deed_by(text: &str, deed: Deed) -> Result<Act, Fault> {
    let by = number(text)?;
    Ok(Act::Do { by, deed })
}

fn send(text: &str) -> Result<Act, Fault> {
    let (by, to) = two(text)?;
    let deed = Deed::Send(to);
    Ok(Act::Do { by, deed })
}

/// The act that two numbers are: the node whose message is sealed, and the one that it's for.
fn seal(text: &str) -> Result<Act, Fault> {
    let (by, to) = two(text)?;
    let deed = Deed::Seal(to);
    Ok(Act::Do { by, deed })
}

fn act_of_network(event: Network, text: &str) -> Result<Act, Fault> {
    let deed = Deed::Network(event, name(text)?);
    Ok(Act::Do { by: 0, deed })
}

fn handed(text: &str) -> Result<Act, Fault> {
    let (node, receive) = two(text)?;
    Ok(Act::Ask(Question::Handed(node, receive)))
}

fn asked(verb: &str, rest: &str) -> Result<Act, Fault> {
    let question = match verb {
        "book" => Question::Book,
        "event" => Question::Event(number(rest)?),
        "node" => Question::Node(number(rest)?),
        "waiting" => Question::Waiting(number(rest)?),
        "mark" => Question::Mark(name(rest)?),
        "flight" if rest.is_empty() => Question::Flight,
        "flight" => Question::InFlight(name(rest)?),
        _ => return Err(Fault::Unreadable),
    };
    Ok(Act::Ask(question))
}

/// The act that a line is.
pub fn act_of(line: &str) -> Result<Act, Fault> {
    let (verb, rest) = cut(line);
    match verb {
        "send" => send(rest),
        "seal" => seal(rest),
        "receive" => deed_by(rest, Deed::Receive),
        "close" => deed_by(rest, Deed::Close),
        "idle" => deed_by(rest, Deed::Idle),
        "skip" => deed_by(rest, Deed::Skip),
        "release" => act_of_network(Network::Release, rest),
        "drop" => act_of_network(Network::Drop, rest),
        "copy" => act_of_network(Network::Copy, rest),
        "handed" => handed(rest),
        "reserve" => Ok(Act::Reserve(number(rest)?)),
        _ => asked(verb, rest),
    }
}

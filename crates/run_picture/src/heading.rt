//! What stands over a picture.
ghost use Rattle.std.specs.Prelude.{◌≤◌};
ghost use Rattle.run_events.specs.Limits.{max_nodes};

use crate::escaped::Escaped;
use crate::view::{RoundRange, View};
use round_meaning::NodeSet;
use run_events::MAX_NODES;
use std::fmt;

/// The most characters of a title for which a picture is made wider.
const MAX_TITLE: usize = 400;

/// The title of a picture, and behind it which rounds and nodes are shown if these aren't all.
#[derive(Clone, Copy)]
pub struct Heading<'a> {
    pub title: &'a str,
    pub view: &'a View,
}

impl Heading<'_> {
    /// The width, if the characters are as wide as most.
    pub fn width(&self) -> u32 {
        let title = self.title.chars().count().min(MAX_TITLE);
        let rounds = if self.view.rounds.is_some() { 22 } else { 0 };
        let nodes = match self.view.nodes {
            Some(nodes) => 8 + 3 * count(nodes),
            None => 0,
        };
        10 * (title as u32 + rounds + nodes) + 32
    }
}

impl fmt::Display for Heading<'_> {
    fn fmt<W: fmt::Write>(&self, f: &mut fmt::Formatter<W>) -> fmt::Result {
        let title = Escaped(self.title);
        write!(f, "{title}")?;
        if let Some(rounds) = self.view.rounds {
            write_rounds(rounds, f)?;
        }
        if let Some(nodes) = self.view.nodes {
            write_nodes(nodes, f)?;
        }
        Ok(())
    }
}

/// How many nodes there are, 16 at the most.
fn count(nodes: NodeSet) -> u32
    ensures { result ≤ max_nodes }
{
    let mut count = 0_u32;
    for node in 0..MAX_NODES {
        if nodes.contains(node) {
            count = count.saturating_add(1);
        }
    }
    count.min(MAX_NODES)
}

fn write_rounds<W: fmt::Write>(rounds: RoundRange, f: &mut fmt::Formatter<W>) -> fmt::Result {
    let RoundRange { first, last } = rounds;
    if first == last {
        return write!(f, ", round {first}");
    }
    write!(f, ", rounds {first} to {last}")
}

fn write_nodes<W: fmt::Write>(nodes: NodeSet, f: &mut fmt::Formatter<W>) -> fmt::Result {
    let mut before = ", nodes ";
    for node in 0..MAX_NODES {
        if nodes.contains(node) {
            write!(f, "{before}{node}")?;
            before = ",";
        }
    }
    Ok(())
}

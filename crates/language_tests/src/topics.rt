//! Acts that stand by themselves.
use crate::acts::Answers;
use crate::showing::{show_number, show_numbers, show_yes};
use crate::{nests, pairs, trees};
use round_meaning::{Inputs, NodeSet};
use std::alloc::Global;
use test_kit::{Fault, cut_pair, number, numbers};

/// What the acts are about.
#[derive(Clone, Copy)]
pub enum Topic {
    Tree,
    Name,
    Nest,
    Pair,
    Setups,
    Inputs,
    Nodes,
}

impl Topic {
    pub fn named(name: &str) -> Result<Topic, Fault> {
        match name {
            "tree" => Ok(Topic::Tree),
            "name" => Ok(Topic::Name),
            "nest" => Ok(Topic::Nest),
            "pair" => Ok(Topic::Pair),
            "setups" => Ok(Topic::Setups),
            "inputs" => Ok(Topic::Inputs),
            "nodes" => Ok(Topic::Nodes),
            _ => Err(Fault::Unreadable),
        }
    }
}

impl Answers for Topic {
    fn answer(&mut self, alloc: Global, act: &str, out: &mut String) -> Result<(), Fault> {
        match self {
            Topic::Tree => trees::tree(alloc, act, out),
            Topic::Name => nests::name(alloc, act, out),
            Topic::Nest => nests::nest(alloc, act, out),
            Topic::Pair => pairs::pair(alloc, act, out),
            Topic::Setups => pairs::setups(alloc, act, out),
            Topic::Inputs => input_of(alloc, act, out),
            Topic::Nodes => node_in(alloc, act, out),
        }
    }
}

/// The input of a node, and all: of `0 1 | 1`, the inputs and a node, it's `1 of 0 1`.
fn input_of(alloc: Global, act: &str, out: &mut String) -> Result<(), Fault> {
    let (inputs, node) = cut_pair(act)?;
    let inputs = Inputs::new(numbers(alloc, inputs.split(' '))?).copy()?;
    show_number(out, Some(inputs.of(number(node)?)))?;
    out.push_str(" of")?;
    show_numbers(out, inputs.into_vec().as_slice())?;
    Ok(())
}

/// The set of the nodes before the bar, and whether the node behind it is one of them.
fn node_in(alloc: Global, act: &str, out: &mut String) -> Result<(), Fault> {
    let (members, node) = cut_pair(act)?;
    let mut nodes = NodeSet::empty();
    for member in &numbers(alloc, members.split(' '))? {
        nodes = nodes.with(*member);
    }
    write!(out, "{} ", nodes.bits)?;
    Ok(show_yes(out, nodes.contains(number(node)?))?)
}

//! Runs in rounds, act by act.
use crate::acts::Answers;
use crate::reading::setup_in;
use crate::showing::{show_number, show_value, show_yes};
use round_check::Checked;
use round_meaning::{Omission, OmissionTable, Setup, StateTable, run_rounds};
use std::alloc::Global;
use test_kit::{Fault, cut, number, numbers};

/// What is asked for, what is omitted, and the states of the last run.
#[derive(Drop)]
pub struct Run<'a> {
    program: &'a Checked,
    setup: &'a Setup,
    omissions: OmissionTable,
    table: StateTable,
}

/// A receiver, a round and a sender.
fn omission(alloc: Global, text: &str) -> Result<Omission, Fault> {
    match numbers(alloc, text.split(' '))?.as_slice() {
        [receiver, round, sender] => Ok(Omission {
            receiver: *receiver,
            round: *round,
            sender: *sender,
        }),
        _ => Err(Fault::Unreadable),
    }
}

/// The place of a variable.
fn place_of(program: &Checked, name: &str) -> Result<usize, Fault> {
    let variables = program.program().variables();
    let place = variables.iter().position(|it| it.name.as_str() == name);
    place.ok_or(Fault::Unreadable)
}

impl<'a> Run<'a> {
    /// No round was run yet.
    pub fn new(alloc: Global, program: &'a Checked, setup: &'a Setup) -> Result<Run<'a>, Fault> {
        let omissions = OmissionTable::new(alloc);
        let table = run_rounds(alloc, program, setup, &omissions, 0)?;
        Ok(Run {
            program,
            setup,
            omissions,
            table,
        })
    }

    fn omit(&mut self, alloc: Global, text: &str, out: &mut String) -> Result<(), Fault> {
        let Omission {
            receiver,
            round,
            sender,
        } = omission(alloc, text)?;
        self.omissions.insert(receiver, round, sender)?;
        out.push_str("omitted")?;
        Ok(())
    }

    fn show_omitted(&self, alloc: Global, text: &str, out: &mut String) -> Result<(), Fault> {
        let Omission {
            receiver,
            round,
            sender,
        } = omission(alloc, text)?;
        let is_omitted = self.omissions.is_omitted(receiver, round, sender);
        Ok(show_yes(out, is_omitted)?)
    }

    fn run(&mut self, alloc: Global, text: &str, out: &mut String) -> Result<(), Fault> {
        let rounds = number(text)?;
        self.table = run_rounds(alloc, self.program, self.setup, &self.omissions, rounds)?;
        let (nodes, rounds) = (self.table.nodes(), self.table.rounds());
        write!(out, "nodes {nodes} rounds {rounds}")?;
        Ok(())
    }

    /// The decision or a variable of a node after a round.
    fn show_at(&self, node: u32, round: u32, name: &str, out: &mut String) -> Result<(), Fault> {
        if node >= self.table.nodes() || round > self.table.rounds() {
            out.push_str("not within its limits")?;
        } else if name == "decision" {
            show_number(out, self.table.decision(node, round))?;
        } else {
            let place = place_of(self.program, name)?;
            show_value(out, &self.table.state(node, round).value(place)?)?;
        }
        Ok(())
    }

    /// The same of a text: a node, a round and the name.
    fn show_in(&self, text: &str, out: &mut String) -> Result<(), Fault> {
        let (node, text) = cut(text);
        let (round, name) = cut(text);
        self.show_at(number(node)?, number(round)?, name, out)
    }

    fn show_lawful(&self, alloc: Global, text: &str, out: &mut String) -> Result<(), Fault> {
        let setup = setup_in(alloc, text)?;
        Ok(show_yes(out, setup.is_lawful(self.program))?)
    }
}

impl<'a> Answers for Run<'a> {
    fn answer(&mut self, alloc: Global, act: &str, out: &mut String) -> Result<(), Fault> {
        let (word, rest) = cut(act);
        match word {
            "omit" => self.omit(alloc, rest, out),
            "is-omitted" => self.show_omitted(alloc, rest, out),
            "run" => self.run(alloc, rest, out),
            "at" => self.show_in(rest, out),
            "lawful" => self.show_lawful(alloc, rest, out),
            _ => Err(Fault::Unreadable),
        }
    }
}

//! A journal, act by act, and what it answers.
ghost use Rattle.std.specs.Prelude.{◌≡◌, ◌*◌, All, IfOk};
ghost use Rattle.round_meaning.specs.Setups.{IsSetup};

mod act;
mod doing;
mod sealing;
mod seen;
mod taking;
mod telling;

use crate::reading::known;
use act::{Act, Deed, act_of};
use round_check::{Checked, check};
use round_lang::parse;
use round_meaning::Setup;
use slot_plans::Known;
use std::alloc::Global;
use step_journal::Journal;
use step_machine::Node;
use test_kit::{Fault, number, setup};

/// The nodes of a run, and then their doubles: with three nodes the double of node 0 is 3.
fn all_nodes(alloc: Global, program: &Checked, setup: &Setup) -> Result<Vec<Node>, Fault>
    requires { IsSetup setup.now }
    ensures { IfOk result
        (λ nodes. All (λ n. (n.program ≡ program.now) × (n.setup ≡ setup.now)) nodes.items) }
{
    let mut nodes = Vec::new(alloc);
    for place in 0..2 * setup.nodes {
        let me = place % setup.nodes;
        nodes.push(Node::new(alloc, program, setup, me)?)?;
    }
    Ok(nodes)
}

/// One of the nodes does it.
fn perform(
    alloc: Global,
    program: &Checked,
    setup: &Setup,
    journal: &mut Journal<Known>,
    nodes: &mut Vec<Node>,
    by: u32,
    deed: Deed,
    out: &mut String,
) -> Result<(), Fault>
    requires program { journal.old.log.program ≡ program.now }
    requires setup { journal.old.log.setup ≡ setup.now }
    requires nodes { All (λ n. (n.program ≡ program.now) × (n.setup ≡ setup.now)) nodes.old.items }
    ensures program { journal.new.log.program ≡ program.now }
    ensures setup { journal.new.log.setup ≡ setup.now }
    ensures nodes { All (λ n. (n.program ≡ program.now) × (n.setup ≡ setup.now)) nodes.new.items }
{
    let _program = program;
    let _setup = setup;
    if by as usize >= nodes.len() {
        return Err(Fault::Unreadable);
    }
    let node = &mut nodes[by as usize];
    doing::perform(alloc, journal, node, deed, out)
}

/// Makes room for events, and is asked again if there was none.
fn reserve(journal: &mut Journal<Known>, events: u32, out: &mut String) -> Result<(), Fault>
    ensures { journal.new ≡ journal.old }
{
    let events = events as usize;
    if journal.reserve(events).is_err() {
        journal.reserve(events)?;
    }
    out.push_str("reserved")?;
    Ok(())
}

/// Answers each line's act.
fn answer_all(
    alloc: Global,
    program: &Checked,
    setup: &Setup,
    journal: &mut Journal<Known>,
    nodes: &mut Vec<Node>,
    input: &str,
    out: &mut String,
) -> Result<(), Fault>
    requires program { journal.old.log.program ≡ program.now }
    requires setup { journal.old.log.setup ≡ setup.now }
    requires nodes { All (λ n. (n.program ≡ program.now) × (n.setup ≡ setup.now)) nodes.old.items }
{
    for line in input.lines() {
        match act_of(line)? {
            Act::Do { by, deed } => perform(alloc, program, setup, journal, nodes, by, deed, out)?,
            Act::Ask(asked) => telling::answer(alloc, journal, asked, out)?,
            Act::Reserve(events) => reserve(journal, events, out)?,
        }
        out.push_str("\n")?;
    }
    Ok(())
}

/// Acts on a journal of the program.
fn ask_program(
    alloc: Global,
    program: &Checked,
    setup: &Setup,
    delta: u32,
    input: &str,
    out: &mut String,
) -> Result<(), Fault> {
    let plan = known(setup.nodes, delta)?;
    if !setup.is_lawful(program) {
        return Err(Fault::Unreadable);
    }
    let mut journal = Journal::open(alloc, program, setup, plan)?;
    let mut nodes = all_nodes(alloc, program, setup)?;
    answer_all(alloc, program, setup, &mut journal, &mut nodes, input, out)
}

/// Acts on a journal of the program that a text is.
pub fn ask(
    alloc: Global,
    text: &str,
    words: &[&str],
    input: &str,
    out: &mut String,
) -> Result<(), Fault> {
    let (inputs, rounds, delta) = match words {
        [inputs, rounds] => (*inputs, *rounds, 1),
        [inputs, rounds, delta] => (*inputs, *rounds, number(delta)?),
        _ => return Err(Fault::Unreadable),
    };
    let setup = setup(alloc, inputs, rounds)?;
    let program = check(alloc, parse(alloc, text)?)?;
    ask_program(alloc, &program, &setup, delta, input, out)
}

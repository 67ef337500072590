//! What the libraries of the language answer, asked by texts.
//!
//! ```text
//! language_tests tree | name | nest | pair | setups | inputs | nodes
//! language_tests list
//! language_tests program FILE
//! language_tests checked FILE
//! language_tests same FILE
//! language_tests node FILE NODE NODES FAULTS ROUNDS INPUT ..
//! language_tests rounds FILE NODES FAULTS ROUNDS INPUT ..
//! language_tests library NAME VALUES NODES FAULTS ROUNDS INPUT ..
//! ```
//!
//! FILE has a program; `library` does with a program of the library what `rounds` does with a
//! file's. But for `program` and `checked`, each line of standard input is an act, and a line of
//! standard output its answer.
#![tactic(auto)]

mod acts;
mod equality;
mod list;
mod nests;
mod node;
mod pairs;
mod parts;
mod reading;
mod rounds;
mod showing;
mod told;
mod topics;
mod trees;

use acts::answer_all;
use list::List;
use node::Node;
use pairs::Changes;
use reading::{checked_of, setup_of};
use rounds::Run;
use std::alloc::Global;
use std::process::ExitCode;
use std::{env, fs, io};
use test_kit::{Fault, end, number, offered, texts};
use topics::Topic;

/// Acts on one node.
fn act_on_node(
    alloc: Global,
    text: &str,
    words: &[&str],
    input: &str,
    out: &mut String,
) -> Result<(), Fault> {
    let [node, setup @ ..] = words else {
        return Err(Fault::Unreadable);
    };
    let program = checked_of(alloc, text)?;
    let setup = setup_of(alloc, setup)?;
    let mut node = Node::new(alloc, &program, &setup, number(node)?)?;
    answer_all(alloc, &mut node, input, out)
}

/// Acts on the nodes in rounds.
fn act_in_rounds(
    alloc: Global,
    text: &str,
    words: &[&str],
    input: &str,
    out: &mut String,
) -> Result<(), Fault> {
    let program = checked_of(alloc, text)?;
    let setup = setup_of(alloc, words)?;
    let mut run = Run::new(alloc, &program, &setup)?;
    answer_all(alloc, &mut run, input, out)
}

/// Acts on the nodes in rounds, of a program of the library.
fn act_in_library(
    alloc: Global,
    name: &str,
    words: &[&str],
    input: &str,
    out: &mut String,
) -> Result<(), Fault> {
    let [values, setup @ ..] = words else {
        return Err(Fault::Unreadable);
    };
    let setup = setup_of(alloc, setup)?;
    let program = offered(alloc, name, number(values)?, &setup)?;
    let mut run = Run::new(alloc, &program, &setup)?;
    answer_all(alloc, &mut run, input, out)
}

/// Answers about the program of a text.
fn answer_of_program(
    alloc: Global,
    command: &str,
    text: &str,
    words: &[&str],
    input: &str,
    out: &mut String,
) -> Result<(), Fault> {
    match command {
        "program" => parts::write_parts(alloc, text, out),
        "checked" => told::write_checked(alloc, text, out),
        "same" => answer_all(alloc, &mut Changes { text }, input, out),
        "node" => act_on_node(alloc, text, words, input, out),
        "rounds" => act_in_rounds(alloc, text, words, input, out),
        _ => Err(Fault::Unreadable),
    }
}

/// Answers acts that need no program.
fn answer_acts(alloc: Global, command: &str, input: &str, out: &mut String) -> Result<(), Fault> {
    if command == "list" {
        answer_all(alloc, &mut List::new(alloc), input, out)
    } else {
        answer_all(alloc, &mut Topic::named(command)?, input, out)
    }
}

/// Does what the words say, and gives what is to be printed.
fn answer(rt: &HostRuntime, alloc: Global) -> Result<String, Fault> {
    let words = env::args(rt)?.collect::<Vec<String>>(alloc)?;
    let words = texts(alloc, words.as_slice())?;
    let input = io::read_to_string(alloc, rt.reader())?;
    let mut out = String::new(alloc);
    match words.as_slice() {
        [command] => answer_acts(alloc, command, input.as_str(), &mut out)?,
        ["library", name, words @ ..] => {
            act_in_library(alloc, name, words, input.as_str(), &mut out)?;
        }
        [command, file, words @ ..] => {
            let text = fs::read_to_string(rt, *file)?;
            answer_of_program(
                alloc,
                command,
                text.as_str(),
                words,
                input.as_str(),
                &mut out,
            )?;
        }
        [] => return Err(Fault::Unreadable),
    }
    Ok(out)
}

fn main(rt: HostRuntime) -> ExitCode {
    end(&rt, answer(&rt, rt.alloc()))
}

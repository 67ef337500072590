//! What flat code answers, beside the evaluator, asked by texts.
//!
//! ```text
//! code_tests FILE NODE NODES FAULTS ROUNDS INPUT ..
//! ```
//!
//! FILE has a program. Each line of standard input is an act of the node, and a line of standard
//! output its answer. What the program's code answers is asked of the evaluator too, and stands
//! there once if they agree:
//!
//! - `start`: the initial state.
//! - `send ROUND DEST STATE`: what the node sends in a state, which no run need reach.
//! - `end ROUND STATE; FROM MESSAGE; ..`: the state after a round, whose inbox has these messages.
//! - `words`: how many words the code uses.
//!
//! A state and a message are values as `num 3, flag true, set 5, row 1 2`; the set has 0 and 2.
#![tactic(auto)]

mod both;
mod machine;
mod node;
mod reading;
mod showing;

use node::Node;
use reading::{checked_of, setup_of};
use std::alloc::Global;
use std::process::ExitCode;
use std::{env, fs, io};
use step_code::compile;
use test_kit::{Fault, end, number};

/// A line for each act of a node.
fn answer_all(
    alloc: Global,
    text: &str,
    words: &[String],
    input: &str,
    out: &mut String,
) -> Result<(), Fault> {
    let [node, setup @ ..] = words else {
        return Err(Fault::Unreadable);
    };
    let program = checked_of(alloc, text)?;
    let code = compile(alloc, &program)?;
    let setup = setup_of(alloc, setup)?;
    let node = Node {
        alloc,
        code: &code,
        setup: &setup,
        me: number(node.as_str())?,
    };
    for act in input.lines() {
        node.answer(act, out)?;
        out.push_str("\n")?;
    }
    Ok(())
}

/// Does what the words say, and gives what is to be printed.
fn answer(rt: &HostRuntime, alloc: Global) -> Result<String, Fault> {
    let words = env::args(rt)?.collect::<Vec<String>>(alloc)?;
    let [_, file, words @ ..] = words.as_slice() else {
        return Err(Fault::Unreadable);
    };
    let text = fs::read_to_string(rt, file.as_str())?;
    let input = io::read_to_string(alloc, rt.reader())?;
    let mut out = String::new(alloc);
    answer_all(alloc, text.as_str(), words, input.as_str(), &mut out)?;
    Ok(out)
}

fn main(rt: HostRuntime) -> ExitCode {
    end(&rt, answer(&rt, rt.alloc()))
}

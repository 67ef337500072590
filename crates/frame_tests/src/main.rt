//! What frames say, asked by texts.
//!
//! ```text
//! frame_tests FILE NODES
//! ```
//!
//! FILE has a program, and NODES is the number of nodes, 1 to 16. Each line of standard input is an
//! act, and a line of standard output its answer:
//!
//! - `read HEX`: the frame that the bytes spell, or their fault; `decode` and the view must agree.
//! - `write COPY HEX`: the message of that frame as that copy of it, in version 2; `encode` and
//!   both ways of writing in place must agree.
//! - `beginnings HEX`: how many beginnings of the bytes are frames, and how many have each fault.
//! - `changes HEX`: the same of the bytes with one of them set to each value.
//! - `length ROUND`: how many bytes the frames of a round have.
//! - `inbox HEX,HEX,..`: the senders that hold a frame, `-` standing for none, with their frames.
#![tactic(auto)]

mod acts;
mod counts;
mod inbox;
mod placing;
mod showing;
mod writing;

use acts::Frames;
use frame_format::Layout;
use round_check::{Checked, check};
use round_lang::parse;
use run_events::MAX_NODES;
use std::alloc::Global;
use std::process::ExitCode;
use std::{env, fs, io};
use test_kit::{Fault, end};

/// The checked program that a text is.
fn checked_of(alloc: Global, text: &str) -> Result<Checked, Fault> {
    Ok(check(alloc, parse(alloc, text)?)?)
}

/// The layout of a program's frames.
fn layout_of(alloc: Global, text: &str, nodes: u32) -> Result<Layout, Fault> {
    if nodes == 0 || nodes > MAX_NODES {
        return Err(Fault::Unreadable);
    }
    Ok(Layout::of(alloc, &checked_of(alloc, text)?, nodes)?)
}

/// A line for each act.
fn answer_all(alloc: Global, frames: &Frames, input: &str, out: &mut String) -> Result<(), Fault> {
    for act in input.lines() {
        frames.answer(alloc, act, out)?;
        out.push_str("\n")?;
    }
    Ok(())
}

/// Does what the words say, and gives what is to be printed.
fn answer(rt: &HostRuntime, alloc: Global) -> Result<String, Fault> {
    let words = env::args(rt)?.collect::<Vec<String>>(alloc)?;
    let [_, file, nodes] = words.as_slice() else {
        return Err(Fault::Unreadable);
    };
    let text = fs::read_to_string(rt, file.as_str())?;
    let nodes = nodes.as_str().parse().map_err(|_| Fault::Unreadable)?;
    let frames = Frames {
        layout: layout_of(alloc, text.as_str(), nodes)?,
    };
    let input = io::read_to_string(alloc, rt.reader())?;
    let mut out = String::new(alloc);
    answer_all(alloc, &frames, input.as_str(), &mut out)?;
    Ok(out)
}

fn main(rt: HostRuntime) -> ExitCode {
    end(&rt, answer(&rt, rt.alloc()))
}

//! What the libraries of runs answer, asked by texts.
//!
//! ```text
//! run_tests plans
//! run_tests known NODES DELTA
//! run_tests growing NODES
//! run_tests journal SOURCE INPUTS ROUNDS [DELTA]
//! run_tests schedule | threads | header
//! run_tests report | writers NAME
//! run_tests writers run SOURCE
//! run_tests lists
//! run_tests lockstep VALUES INPUTS ROUNDS RECEIVES CORRECT DELTA GST TICKS DELAYS ORDERS [CHANGES]
//! ```
//!
//! SOURCE is the file of a program, or `gather:K` or `gather_from_ones:K` for K values. INPUTS,
//! CORRECT, DELAYS and ORDERS have commas, and `-` stands for none. But for a schedule, a thread
//! setup and a header, which are read whole, each line of standard input is an act, and a line of
//! standard output its answer. With `writers run` standard input is the schedule of the run whose
//! report is written.
//!
//! With `lockstep`, standard output has the schedule of a run of `gather` in lockstep, or
//! `refused`. RECEIVES are the receive steps of a round. CHANGES are the words STOPS OMISSIONS OWN,
//! lists of the same form: each stop is the two numbers I,C, each omission the three I,R,J, and
//! each delay of a message of its own the four J,I,R,D.
#![tactic(auto)]

mod journal;
mod lockstep;
mod plans;
mod reading;
mod reports;
mod schedules;
mod sources;
mod writers;

use sources::source;
use std::alloc::Global;
use std::process::ExitCode;
use std::{env, io};
use test_kit::{Fault, end, texts};

/// The room for answers, so that giving one takes no memory.
const ROOM: usize = 65_536;

/// Acts on a journal.
fn ask_journal(
    rt: &HostRuntime,
    words: &[&str],
    input: &str,
    out: &mut String,
) -> Result<(), Fault> {
    let alloc = rt.alloc();
    let [name, words @ ..] = words else {
        return Err(Fault::Unreadable);
    };
    let text = source(rt, alloc, name)?;
    journal::ask(alloc, text.as_str(), words, input, out)
}

/// Gives the report of a run to writers that fail.
fn try_writers(rt: &HostRuntime, name: &str, input: &str, out: &mut String) -> Result<(), Fault> {
    let alloc = rt.alloc();
    let text = source(rt, alloc, name)?;
    writers::try_run(alloc, text.as_str(), input, out)
}

/// Answers what needs standard input.
fn answer_input(rt: &HostRuntime, words: &[&str], out: &mut String) -> Result<(), Fault> {
    let alloc = rt.alloc();
    let input = io::read_to_string(alloc, rt.reader())?;
    let input = input.as_str();
    match words {
        ["plans"] => plans::make_plans(input, out),
        ["known", words @ ..] => plans::ask_known(words, input, out),
        ["growing", words @ ..] => plans::ask_growing(words, input, out),
        ["schedule"] => schedules::write_again(alloc, input, out),
        ["threads"] => schedules::tell_threads(alloc, input, out),
        ["header"] => schedules::tell_header(alloc, input, out),
        ["journal", words @ ..] => ask_journal(rt, words, input, out),
        ["writers", "run", name] => try_writers(rt, name, input, out),
        _ => Err(Fault::Unreadable),
    }
}

/// Answers what the words ask.
fn answer_words(rt: &HostRuntime, words: &[&str], out: &mut String) -> Result<(), Fault> {
    match words {
        ["report", name] => reports::print(rt.alloc(), name, out),
        ["writers", name] => writers::try_named(rt.alloc(), name, out),
        ["lists"] => writers::list(rt.alloc(), out),
        ["lockstep", words @ ..] => lockstep::write_run(rt.alloc(), words, out),
        _ => answer_input(rt, words, out),
    }
}

/// Does what the words say, and gives what is to be printed.
fn answer(rt: &HostRuntime, alloc: Global) -> Result<String, Fault> {
    let words = env::args(rt)?.collect::<Vec<String>>(alloc)?;
    let words = texts(alloc, words.as_slice())?;
    let mut out = String::with_capacity(alloc, ROOM)?;
    answer_words(rt, words.as_slice(), &mut out)?;
    Ok(out)
}

fn main(rt: HostRuntime) -> ExitCode {
    end(&rt, answer(&rt, rt.alloc()))
}

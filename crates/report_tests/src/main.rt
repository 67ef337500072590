//! Runs of schedules, and what is told of them.
//!
//! ```text
//! report_tests picture SOURCE [rounds A-B] [nodes N,N..] [title TEXT] [grid] [html]
//! report_tests data SOURCE FORM [by node] [vars N,N..] [changed] [narrow N]
//! report_tests reasons | idle SOURCE
//! ```
//!
//! SOURCE is the file of a program, `gather_from_ones:K`, in which only nodes with input 1 send, or
//! `@gather:K`, `@count_votes:K` or `@dls1:K` for the library's program over K values. Standard
//! input is a schedule. Standard output is
//!
//! - the picture of the run, of its rounds with `grid`, or `refused` and why there is none; the
//!   title is SOURCE if none is given;
//! - the report in FORM: `json`, `table`, `summary`, `omissions` or `text`, which is the report's
//!   own. With `narrow` the writer fails behind N bytes, and what it took comes before the fault;
//! - with `reasons` a line for each copy that a report of the run doesn't show as heard, message by
//!   message, with what became of it; with `idle` one for each event of the network that did
//!   nothing, with its place and why.
#![tactic(auto)]

mod asking;
mod data;
mod picture;
mod reasons;
mod running;
mod short_writer;
mod sources;

use asking::question_of;
use running::tell_run;
use std::alloc::Global;
use std::io::Write;
use std::process::ExitCode;
use std::{env, io};
use test_kit::{Fault, texts};

fn run(rt: &HostRuntime, alloc: Global) -> Result<(), Fault> {
    let words = env::args(rt)?.collect::<Vec<String>>(alloc)?;
    let words = texts(alloc, words.as_slice())?;
    let question = question_of(alloc, words.as_slice())?;
    let input = io::read_to_string(alloc, rt.reader())?;
    let mut out = Vec::new(alloc);
    tell_run(rt, alloc, &question, input.as_str(), &mut out)?;
    rt.stdout().write_all(out.as_slice())?;
    Ok(())
}

fn main(rt: HostRuntime) -> ExitCode {
    match run(&rt, rt.alloc()) {
        Ok(()) => ExitCode::SUCCESS,
        Err(fault) => fault.tell(&rt),
    }
}

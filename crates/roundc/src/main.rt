//! The program: its words, the files and standard input, and the exit status.
#![tactic(auto)]

mod host_desk;
mod made_header;
mod terminal;
mod tip;
mod unread;

use command_reasons::run_or_explain;
use host_desk::HostDesk;
use std::alloc::{AllocError, Global};
use std::env;
use std::io::{BufWriter, Write};
use std::process::ExitCode;
use std::sync::Wait;
use std::thread::Threads;
use tip::tell_of_why;
use transcripts::test_words;
use unread::Unread;

/// How many bytes of what is printed go out at once.
const PRINTED_AT_ONCE: usize = 65_536;

/// The words after the program's own name.
fn texts<'a>(alloc: Global, words: &'a [String]) -> Result<Vec<&'a str>, AllocError> {
    words
        .iter()
        .skip(1)
        .map(|word| Ok(word.as_str()))
        .try_collect(alloc)
}

/// Runs the command that the words name, or behind `why` says why it's refused, and answers the
/// exit status.
fn run<R: Threads + Wait + Sync>(
    rt: &HostRuntime,
    starter: &R,
    alloc: Global,
) -> Result<u8, Unread> {
    let words = env::args(rt)?.collect::<Vec<String>>(alloc)?;
    let words = texts(alloc, words.as_slice())?;
    let mut err = rt.stderr();
    let mut desk = HostDesk::new(rt, err, alloc);
    let mut out = BufWriter::with_capacity(alloc, PRINTED_AT_ONCE, rt.stdout())?;
    let status = match words.as_slice() {
        ["help", "test"] => {
            test_words(starter, alloc, &["--help"], &mut desk, &mut out, &mut err)
        }
        ["test", words @ ..] => { test_words(starter, alloc, words, &mut desk, &mut out, &mut err) }
        command => {
            let status = run_or_explain(starter, alloc, command, &mut desk, &mut out, &mut err);
            tell_of_why(alloc, status, command, &mut err);
            status
        }
    };
    Ok(status)
}

fn main(rt: HostRuntime) -> ExitCode {
    match run(&rt, &rt, rt.alloc()) {
        Ok(status) => ExitCode::from(status),
        Err(unread) => {
            // Where standard error fails too there is nobody left to tell.
            let _ = write!(rt.stderr(), "{unread}");
            ExitCode::from(unread.status())
        }
    }
}

//! A command over a desk in memory, with a writer that no real output is.
//!
//! ```text
//! command_tests WRITER WORD ..
//! ```
//!
//! WRITER is `whole`, which takes all, `full`, which takes nothing, or `stuck`, which takes all and
//! fails when it's flushed. The words are those of the program; standard input is the desk's file
//! `s`. What a whole writer took is printed, and the exit status is the command's.
//!
//! With `once` the command runs once for each number of bytes below its output's length, with a
//! writer that fails once after so many: it must have taken just these, and the line that says so
//! is one.
#![tactic(auto)]

mod writers;

use command_runs::{Desk, DeskFault, MemoryDesk, run_words};
use std::alloc::Global;
use std::env;
use std::io::{Read, Write};
use std::process::ExitCode;
use std::sync::Wait;
use std::thread::Threads;
use test_kit::{Fault, texts};
use writers::{Full, Once, Stuck};

fn desk_fault(fault: DeskFault) -> Fault {
    match fault {
        DeskFault::NoMemory => Fault::NoMemory,
        DeskFault::Failed => Fault::Unreadable,
    }
}

/// The desk whose file `s` is standard input.
fn desk(rt: &HostRuntime, alloc: Global) -> Result<MemoryDesk, Fault> {
    let mut bytes = Vec::new(alloc);
    rt.reader().read_to_end(&mut bytes)?;
    let mut desk = MemoryDesk::new(alloc);
    desk.write("s", bytes.as_slice()).map_err(desk_fault)?;
    Ok(desk)
}

/// Runs the words with a writer that takes all, and prints what it took.
fn run_whole<R: Threads + Wait + Sync>(
    rt: &HostRuntime,
    starter: &R,
    alloc: Global,
    words: &[&str],
) -> Result<u8, Fault> {
    let mut desk = desk(rt, alloc)?;
    let mut out = Vec::new(alloc);
    let status = run_words(starter, alloc, words, &mut desk, &mut out, &mut rt.stderr());
    rt.stdout().write_all(out.as_slice())?;
    Ok(status)
}

/// Runs the words with another writer.
fn run_into<R: Threads + Wait + Sync, O: Write>(
    rt: &HostRuntime,
    starter: &R,
    alloc: Global,
    words: &[&str],
    out: &mut O,
) -> Result<u8, Fault> {
    let mut desk = desk(rt, alloc)?;
    Ok(run_words(starter, alloc, words, &mut desk, out, &mut rt.stderr()))
}

/// Whether a writer that fails once after so many bytes has just the output's first ones in the
/// end, and the refusal was told.
fn fails_well<R: Threads + Wait + Sync>(
    starter: &R,
    alloc: Global,
    words: &[&str],
    desk: &mut MemoryDesk,
    whole: &[u8],
    room: usize,
) -> Result<bool, Fault> {
    let mut out = Once {
        room,
        has_failed: false,
        taken: Vec::new(alloc),
    };
    let mut told = Vec::new(alloc);
    let status = run_words(starter, alloc, words, desk, &mut out, &mut told);
    Ok(
        status == 1
            && told.as_slice() == b"refused write\n".as_slice()
            && out.taken.as_slice() == &whole[..room.min(whole.len())],
    )
}

/// Runs the words with a writer that takes all, and then with each that fails once before that.
fn run_once<R: Threads + Wait + Sync>(
    rt: &HostRuntime,
    starter: &R,
    alloc: Global,
    words: &[&str],
) -> Result<u8, Fault> {
    let mut desk = desk(rt, alloc)?;
    let mut whole = Vec::new(alloc);
    let status = run_words(
        starter,
        alloc,
        words,
        &mut desk,
        &mut whole,
        &mut rt.stderr(),
    );
    for room in 0..whole.len() {
        if !fails_well(starter, alloc, words, &mut desk, &whole, room)? {
            writeln!(rt.stdout(), "WRONG AFTER {room}")?;
            return Ok(status);
        }
    }
    let count = whole.len();
    writeln!(
        rt.stdout(),
        "each of {count} writers that fail once has what it took before"
    )?;
    Ok(status)
}

fn run<R: Threads + Wait + Sync>(
    rt: &HostRuntime,
    starter: &R,
    alloc: Global,
) -> Result<u8, Fault> {
    let words = env::args(rt)?.collect::<Vec<String>>(alloc)?;
    let words = texts(alloc, words.as_slice())?;
    match words.as_slice() {
        ["whole", words @ ..] => run_whole(rt, starter, alloc, words),
        ["full", words @ ..] => run_into(rt, starter, alloc, words, &mut Full),
        ["once", words @ ..] => run_once(rt, starter, alloc, words),
        ["stuck", words @ ..] => run_into(rt, starter, alloc, words, &mut Stuck),
        _ => Err(Fault::Unreadable),
    }
}

fn main(rt: HostRuntime) -> ExitCode {
    match run(&rt, &rt, rt.alloc()) {
        Ok(status) => ExitCode::from(status),
        Err(fault) => fault.tell(&rt),
    }
}

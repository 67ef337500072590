//! Explaining a command.
ghost use Rattle.std.specs.Prelude.{◌≡◌};

use crate::asked::AskedCommand;
use crate::files::{CommandFiles, TellingDesk};
use crate::help::HELP;
use crate::located::unwritten;
use command_runs::{Refusal, run_words};
use command_words::{WordsFault, read_words};
use std::alloc::Global;
use std::fmt;
use std::io::Write;
use std::sync::Wait;
use std::thread::Threads;

/// Runs the command that the words name, or after `why` says why it's refused, and answers the exit
/// status.
pub fn run_or_explain<'a, R: Threads + Wait + Sync, D: TellingDesk, O: Write, E: Write>(
    rt: &R,
    alloc: Global,
    words: &'a [&'a str],
    desk: &mut D,
    out: &mut O,
    err: &mut E,
) -> u8 {
    match words {
        ["help", "why"] => explain_words(rt, alloc, &["help"], desk, out, err),
        ["why", command @ ..] => explain_words(rt, alloc, command, desk, out, err),
        command => run_words(rt, alloc, command, desk, out, err),
    }
}

/// Says why the command that the words name is refused, and answers the exit status: 0 if it could
/// be told, else that of the command. No file is written, and `threads` starts no thread.
///
/// Of a command that is served, what it prints is printed, and of `run` and `judge` why that is so.
pub fn explain_words<'a, R: Threads + Wait + Sync, D: TellingDesk, O: Write, E: Write>(
    rt: &R,
    alloc: Global,
    words: &'a [&'a str],
    desk: &mut D,
    out: &mut O,
    err: &mut E,
) -> u8
    ensures written { D.written desk.new ≡ D.written desk.old }
{
    match explain(rt, alloc, words, desk, out) {
        Ok(()) => 0,
        Err(refusal) => {
            // Where `err` fails too there is nobody left to tell.
            let _ = refusal.tell(err);
            refusal.status()
        }
    }
}

fn explain<'a, R: Threads + Wait + Sync, D: TellingDesk, O: Write>(
    rt: &R,
    alloc: Global,
    words: &'a [&'a str],
    desk: &mut D,
    out: &mut O,
) -> Result<(), Refusal>
    ensures written { D.written desk.new ≡ D.written desk.old }
{
    if asks_for_help(words) {
        return print(HELP, out);
    }
    let command = match read_words(alloc, words) {
        Ok(command) => command,
        // Help and the version are no mistakes.
        Err(WordsFault::Refused(error)) if !error.use_stderr() => {
            return print(error, out);
        }
        Err(fault) => return Err(fault.into()),
    };
    let files = CommandFiles::read(alloc, &command, desk)?;
    let asked = AskedCommand {
        alloc,
        words,
        command: &command,
        files: &files,
    };
    asked.tell(rt, desk, out)?;
    out.flush().map_err(unwritten)
}

/// Writes a text, and all that the writer still holds.
fn print<T: fmt::Display + Drop, O: Write>(text: T, out: &mut O) -> Result<(), Refusal> {
    write!(out, "{text}").map_err(unwritten)?;
    out.flush().map_err(unwritten)
}

/// Whether the words ask how `why` is used.
fn asks_for_help(words: &[&str]) -> bool {
    match words {
        [] => true,
        [word] => matches!(*word, "help" | "--help" | "-h"),
        _ => false,
    }
}

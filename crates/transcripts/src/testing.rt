//! Testing transcripts: `roundc test`.
ghost use Rattle.std.specs.Prelude.{◌≡◌};

use crate::finding::FolderDesk;
use crate::options::Options;
use crate::tests::{Outcome, Tests, Update};
use clap::error::ErrorKind;
use command_runs::{DeskFault, Refusal};
use std::alloc::Global;
use std::io;
use std::io::Write;
use std::sync::Wait;
use std::thread::Threads;

/// The exit status if a command prints something else.
const FAILED: u8 = 1;

/// The exit status of words that name no transcript.
const MISUSED: u8 = 2;

/// Tests the transcripts that the words after `test` name, and answers the exit status: 0 if each
/// command prints what its transcript says, 1 if one doesn't, if a transcript can't be read or
/// written, or if the output can't be written, 2 for words that are wrong, 3 without memory. No
/// file is written but, with `--update`, the transcripts.
pub fn test_words<'a, R: Threads + Wait + Sync, D: FolderDesk, O: Write, E: Write>(
    rt: &R,
    alloc: Global,
    words: &'a [&'a str],
    desk: &mut D,
    out: &mut O,
    err: &mut E,
) -> u8 {
    let options = match Options::read(alloc, words) {
        Ok(options) => options,
        Err(error) => return tell_words(&error, out, err),
    };
    let tests = Tests {
        rt,
        alloc,
        options: &options,
    };
    match test(&tests, desk, out, err) {
        Ok(true) => 0,
        Ok(false) => FAILED,
        Err(refusal) => {
            // Where `err` fails too there is nobody left to tell.
            let _ = refusal.tell(err);
            refusal.status()
        }
    }
}

/// Runs the tests, and writes the transcripts that are updated: whether all is well.
fn test<R: Threads + Wait + Sync, D: FolderDesk, O: Write, E: Write>(
    tests: &Tests<'_, '_, R>,
    desk: &mut D,
    out: &mut O,
    err: &mut E,
) -> Result<bool, Refusal> {
    let Outcome { passed, updates } = tests.run(desk, out, err)?;
    let written = write_updates(desk, updates.as_slice(), err)?;
    out.flush().map_err(unwritten)?;
    Ok(passed && written)
}

/// Writes each transcript that is updated: whether each could be written.
fn write_updates<D: FolderDesk, E: Write>(
    desk: &mut D,
    updates: &[Update],
    err: &mut E,
) -> Result<bool, Refusal> {
    let mut written = true;
    for update in updates {
        let name = update.name.as_str();
        match desk.write(name, update.text.as_str().as_bytes()) {
            Ok(()) => {}
            Err(DeskFault::NoMemory) => return Err(Refusal::NoMemory),
            Err(DeskFault::Failed) => {
                written = false;
                writeln!(err, "{name}: can't be written").map_err(unwritten)?;
            }
        }
    }
    Ok(written)
}

/// Prints help, or what is wrong with the words, and answers the exit status.
fn tell_words<O: Write, E: Write>(error: &clap::Error, out: &mut O, err: &mut E) -> u8 {
    if error.kind() == ErrorKind::OutOfMemory {
        let _ = Refusal::NoMemory.tell(err);
        return Refusal::NoMemory.status();
    }
    if error.use_stderr() {
        let _ = write!(err, "{error}");
        return MISUSED;
    }
    match print_help(error, out) {
        Ok(()) => 0,
        Err(_) => FAILED,
    }
}

fn print_help<O: Write>(error: &clap::Error, out: &mut O) -> io::Result<()> {
    write!(out, "{error}")?;
    out.flush()
}

/// A fault of the writer.
pub(crate) fn unwritten(_error: io::Error) -> Refusal {
    Refusal::Write
}

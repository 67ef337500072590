//! Where a refusal is explained.
use std::alloc::Global;
use std::io::{IsTerminal, Write};
use strsim::osa_distance;

/// The exit status of a command that is refused.
const REFUSED: u8 = 1;

/// The exit status of words that are no command.
const MISUSED: u8 = 2;

/// Whether the word is `why` but for one letter, or two that change places. If there is no memory
/// to compare them, it isn't.
fn is_nearly_why(alloc: Global, word: &str) -> bool {
    matches!(osa_distance(alloc, word, "why"), Ok(1))
}

/// Says on a terminal, behind a refusal, that `why` explains it, and behind a misspelt `why` what
/// it is. Scripts get the refusal alone.
pub(crate) fn tell_of_why<E: Write + IsTerminal>(
    alloc: Global,
    status: u8,
    words: &[&str],
    err: &mut E,
) {
    let [command, ..] = words else {
        return;
    };
    if *command == "why" || !err.is_terminal() {
        return;
    }
    // If standard error fails there is nobody left to tell.
    if status == REFUSED {
        let _ = writeln!(
            err,
            "tip: 'roundc why {command} ..' says where, and what is wrong"
        );
    } else if status == MISUSED && is_nearly_why(alloc, command) {
        let _ = writeln!(
            err,
            "tip: 'roundc why COMMAND ..' says why a command is refused"
        );
    }
}

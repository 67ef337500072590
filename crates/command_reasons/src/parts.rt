//! Why answers of parts make no whole.

use crate::files::{CommandFiles, ReadFile};
use crate::held_desk::HeldDesk;
use crate::located::unwritten;
use command_runs::{PartRefusal, Refusal, put_together};
use part_answers::PartsFault;
use std::alloc::Global;
use std::io::Write;

/// Prints what the answers of parts make together, or says why they make no whole.
pub(crate) fn tell_together<O: Write>(
    alloc: Global,
    names: &[&str],
    files: &CommandFiles<'_>,
    out: &mut O,
) -> Result<(), Refusal> {
    let mut desk = HeldDesk::new(alloc, files)?;
    let mut printed = Vec::new(alloc);
    match put_together(alloc, names, &mut desk, &mut printed) {
        Ok(_) => out.write_all(printed.as_slice()).map_err(unwritten),
        Err(Refusal::File) => tell_unread(alloc, files.as_slice(), out),
        Err(Refusal::Part(cause)) => tell_cause(cause, names, out),
        Err(refusal) => Err(refusal),
    }
}

/// Says why the first file that has no answers of a part has no text, or one that is too long.
fn tell_unread<O: Write>(
    alloc: Global,
    files: &[ReadFile<'_>],
    out: &mut O,
) -> Result<(), Refusal> {
    for file in files {
        if file.tell_unread(alloc, out)? {
            return Ok(());
        }
        if file.is_long() {
            let name = file.name;
            return writeln!(out, "{name}: too long for the answers of a part").map_err(unwritten);
        }
    }
    write!(out, "{}", Refusal::File).map_err(unwritten)
}

/// Says why files make no whole.
fn tell_cause<O: Write>(cause: PartRefusal, names: &[&str], out: &mut O) -> Result<(), Refusal> {
    let told = match cause {
        PartRefusal::Line { file, line } => writeln!(
            out,
            "{}:{line}: `explore --part` prints no such line here",
            name_at(names, file)
        ),
        PartRefusal::Parts(PartsFault::Other(file)) => writeln!(
            out,
            "{}: these are the answers of another question or of other parts than those of {}",
            name_at(names, file),
            name_at(names, 0)
        ),
        PartRefusal::Parts(PartsFault::Twice(number)) => {
            writeln!(out, "the answers of part {number} are there twice")
        }
        PartRefusal::Parts(PartsFault::Missing(number)) => {
            writeln!(out, "the answers of part {number} are missing")
        }
        PartRefusal::Parts(_) => write!(out, "{}", Refusal::Part(cause)),
    };
    told.map_err(unwritten)
}

fn name_at<'a>(names: &[&'a str], place: usize) -> &'a str {
    match names.get(place) {
        Some(name) => *name,
        None => "FILE",
    }
}

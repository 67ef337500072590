//! Answers with their details.
ghost use Rattle.std.specs.Prelude.{OnOk, map, string_bytes};
ghost use Rattle.std.specs.Io.KnownBytes.{Appends};
ghost use Rattle.answer_details.specs.Texts.{answers_with, detailed_data, detailed_text};
ghost use Rattle.answer_details.specs.Texts.{marked_line, marked_lines, object_with, run_member};

use crate::details::Details;
use command_words::AnswerFormat;
use exploration_texts::{Told, write_answers, write_members};
use std::io;
use std::io::Write;

/// What the lines of a run begin with.
const OF_RUN: &str = "    ";

/// What a note begins with.
const OF_NOTE: &str = "note: ";

/// Writes each answer, and after it the lines of its run, which begin with four blanks; then the
/// notes, which begin with `note: `.
pub fn write_detailed<W: Write>(told: &[Told], details: &Details, out: &mut W) -> io::Result<()>
    ensures { OnOk result
        (Appends (W.contents out.old) (W.contents out.new) (detailed_text told.now details.now)) }
{
    write_with_runs(told, &details.runs, out)?;
    write_lines(OF_NOTE, details.notes.as_str(), out)
}

/// Writes each answer, and after it the lines of its run.
fn write_with_runs<W: Write>(told: &[Told], runs: &[String], out: &mut W) -> io::Result<()>
    ensures { OnOk result (Appends (W.contents out.old) (W.contents out.new)
        (answers_with told.now (map (λ run. string_bytes run) runs.now))) }
{
    match runs {
        [] => write_answers(told, AnswerFormat::Text, out),
        [run, runs @ ..] => match told {
            [] => Ok(()),
            [first, told @ ..] => {
                writeln!(out, "{first}")?;
                write_lines(OF_RUN, run.as_str(), out)?;
                write_with_runs(told, runs, out)
            }
        },
    }
}

/// Writes the object of each answer, with its run as a member if it has one.
pub fn write_detailed_data<W: Write>(
    told: &[Told],
    details: &Details,
    out: &mut W,
) -> io::Result<()>
    ensures { OnOk result (Appends (W.contents out.old) (W.contents out.new)
        (detailed_data told.now (map (λ run. string_bytes run) details.now.runs.items))) }
{
    write_objects(told, &details.runs, out)
}

fn write_objects<W: Write>(told: &[Told], runs: &[String], out: &mut W) -> io::Result<()>
    ensures { OnOk result (Appends (W.contents out.old) (W.contents out.new)
        (detailed_data told.now (map (λ run. string_bytes run) runs.now))) }
{
    match runs {
        [] => write_answers(told, AnswerFormat::Json, out),
        [run, runs @ ..] => match told {
            [] => Ok(()),
            [first, told @ ..] => {
                write_object(first, run.as_str(), out)?;
                write_objects(told, runs, out)
            }
        },
    }
}

/// Writes the object of an answer with its run, which may be empty.
fn write_object<W: Write>(told: &Told, run: &str, out: &mut W) -> io::Result<()>
    ensures { OnOk result (Appends (W.contents out.old) (W.contents out.new)
        (object_with told.now run.now)) }
{
    write_members(told, out)?;
    write_run(run, out)?;
    writeln!(out, "}}")
}

/// Writes a run as one more member of an object, unless it's empty.
fn write_run<W: Write>(run: &str, out: &mut W) -> io::Result<()>
    ensures { OnOk result
        (Appends (W.contents out.old) (W.contents out.new) (run_member run.now)) }
{
    if run.is_empty() {
        return Ok(());
    }
    write!(out, ",\"run\":{run}")
}

/// Writes the lines of a text, each after a mark.
fn write_lines<W: Write>(mark: &str, text: &str, out: &mut W) -> io::Result<()>
    ensures { OnOk result (Appends (W.contents out.old) (W.contents out.new)
        (marked_lines mark.now text.now)) }
{
    for line in text.lines() {
        write_line(mark, line, out)?;
    }
    Ok(())
}

fn write_line<W: Write>(mark: &str, line: &str, out: &mut W) -> io::Result<()>
    ensures { OnOk result (Appends (W.contents out.old) (W.contents out.new)
        (marked_line mark.now line.now)) }
{
    writeln!(out, "{mark}{line}")
}

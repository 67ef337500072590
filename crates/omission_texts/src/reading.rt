//! Reading texts.
ghost use Rattle.std.specs.Prelude.{◌≡◌, ◌≢◌, ◌<◌, ◌≤◌, ◌↔◌, Err, length};
ghost use Rattle.std.specs.Str.Lines.{lines};
ghost use Rattle.schedule_text.specs.Texts.{counts, max_text};
ghost use Rattle.omission_texts.specs.Forms.{GivesAnswer, GivesLines, TakesLine, from_line};
ghost use Rattle.omission_texts.specs.Readings.{Answer, IsRead, IsReading};

use crate::fault::LineFault;
use crate::line::OmissionLine;
use crate::line_reader::read_line;
use crate::omissions::Omissions;
use schedule_text::{MAX_TEXT, ScheduleFault};
use std::alloc::Global;

/// What a text says.
///
/// Its lines are `omit I R J`, `cut LIST R` and `crash J R LIST`, in any order and any number. R is
/// a round, or A-B for the rounds from A to B; a crash has one round. LIST is nodes with commas
/// between them, or `-` for none. Comments, empty lines, the ends of lines, words and numbers are
/// as in a schedule. An empty text says nothing.
///
/// Refused are first a text that is too long, and then the first line at fault: one of another
/// shape before one with too large a number. `NoMemory` means out of memory alone.
pub fn read_omissions(alloc: Global, text: &str) -> Result<Omissions, ScheduleFault>
    ensures read { IsRead text.now result }
    ensures only { (answer : Answer) → IsReading text.now answer → GivesAnswer result answer }
    ensures long { (result ≡ Err ScheduleFault.TooLong) ↔ (max_text < length text.now) }
{
    if text.len() > MAX_TEXT {
        return Err(ScheduleFault::TooLong);
    }
    Ok(Omissions::new(read_lines(alloc, text)?))
}

/// What the lines of a text say that isn't too long.
fn read_lines(alloc: Global, text: &str) -> Result<Vec<OmissionLine>, ScheduleFault>
    requires { length text.now ≤ max_text }
    ensures read { GivesLines result (from_line 1 (lines text.now)) }
    ensures short { result ≢ Err ScheduleFault.TooLong }
{
    let mut said = Vec::new(alloc);
    let mut number = 0u64;
    for line in text.lines() {
        number += 1;
        if let Err(fault) = take_line(alloc, line, &mut said) {
            return Err(fault.at(number));
        }
    }
    Ok(said)
}

/// Adds what a line says, if it counts.
fn take_line(alloc: Global, line: &str, said: &mut Vec<OmissionLine>) -> Result<(), LineFault>
    ensures { TakesLine result line.now said.old.items said.new.items }
{
    if counts(line) {
        said.push(read_line(alloc, line)?)?;
    }
    Ok(())
}

/// Whether a line is neither empty nor a comment.
fn counts(line: &str) -> bool
    ensures { result ≡ counts line.now }
{
    match line.as_bytes() {
        [] => false,
        [first, ..] => *first != b'#',
    }
}

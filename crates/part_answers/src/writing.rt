//! Writing what is answered.
ghost use Rattle.std.specs.Prelude.{OnOk};
ghost use Rattle.std.specs.Io.KnownBytes.{Appends};
ghost use Rattle.part_answers.specs.Answers.{answered_line, answers_text};
ghost use Rattle.part_answers.specs.Heads.{head_line};

use crate::answered::Answered;
use crate::part::PartHead;
use std::io;
use std::io::Write;

/// Writes the first line of a part's answers. The first fault of the writer is answered as it came.
pub fn write_head<W: Write>(head: &PartHead, out: &mut W) -> io::Result<()>
    ensures { OnOk result
        (Appends (W.contents out.old) (W.contents out.new) (head_line head.now)) }
{
    writeln!(out, "{head}")
}

/// Writes a line for each property, with faults as in `write_head`.
pub fn write_answers<W: Write>(answers: &[Answered], out: &mut W) -> io::Result<()>
    ensures { OnOk result
        (Appends (W.contents out.old) (W.contents out.new) (answers_text answers.now)) }
{
    for answered in answers {
        write_answered(answered, out)?;
    }
    Ok(())
}

fn write_answered<W: Write>(answered: &Answered, out: &mut W) -> io::Result<()>
    ensures { OnOk result
        (Appends (W.contents out.old) (W.contents out.new) (answered_line answered.now)) }
{
    writeln!(out, "{answered}")
}

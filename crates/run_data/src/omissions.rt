//! The messages that a report's rows omit.
ghost use Rattle.std.specs.Prelude.{◌≡◌, ◌++◌, OnOk};
ghost use Rattle.std.specs.Io.KnownBytes.{Appends};
ghost use Rattle.run_data.specs.Omitted.{omissions_text, omit_line, omit_lines};

use crate::fault::DataFault;
use crate::line::Line;
use omission_explainer::{Report, ReportRow};
use round_lang::ValueSet;
use std::alloc::{AllocError, Global};
use std::io::Write;

/// Writes the messages that a report's rows omit as the text of an omission file.
///
/// For each row there is a line `omit I R J` for each node J of whose message it says that it's
/// omitted: I is the row's node and R its round. They stand in the order of the rows, and those of
/// a row in the order of their senders. If memory runs out or the writer fails, the writer has a
/// beginning of the text.
pub fn write_omissions<W: Write>(
    alloc: Global,
    report: &Report,
    out: &mut W,
) -> Result<(), DataFault>
    ensures { OnOk result
        (Appends (W.contents out.old) (W.contents out.new) (omissions_text report.now)) }
{
    let mut lines = Line::new(alloc);
    for row in report.rows.as_slice() {
        write_row(row, &mut lines, out)?;
    }
    Ok(())
}

fn write_row<W: Write>(row: &ReportRow, lines: &mut Line, out: &mut W) -> Result<(), DataFault>
    ensures { OnOk result
        (Appends (W.contents out.old) (W.contents out.new) (omit_lines row.now)) }
{
    lines.clear();
    push_omitted(row, lines)?;
    out.write_all(lines.as_slice())?;
    Ok(())
}

/// Appends the lines of a row.
fn push_omitted(row: &ReportRow, lines: &mut Line) -> Result<(), AllocError>
    ensures { OnOk result (lines.new ≡ lines.old ++ omit_lines row.now) }
{
    let omitted = ValueSet {
        bits: row.omitted.bits,
    };
    for sender in 0..64 {
        if omitted.has(64, sender) {
            push_line(row, sender, lines)?;
        }
    }
    Ok(())
}

fn push_line(row: &ReportRow, sender: u32, lines: &mut Line) -> Result<(), AllocError>
    ensures { OnOk result (lines.new ≡ lines.old ++ omit_line row.now sender) }
{
    lines.push_labelled(b"omit ", u64::from(row.node))?;
    lines.push_labelled(b" ", u64::from(row.round))?;
    lines.push_labelled(b" ", u64::from(sender))?;
    lines.push(b'\n')
}

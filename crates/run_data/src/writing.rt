//! A report's data.
ghost use Rattle.std.specs.Prelude.{◌++◌, OnOk, codes};
ghost use Rattle.std.specs.Io.KnownBytes.{Appends};
ghost use Rattle.std.specs.List.{flat_map};
ghost use Rattle.run_data.specs.Objects.{data_line};
ghost use Rattle.run_data.specs.ReportData.{count_lines, count_object, report_data, row_line};

use crate::fault::DataFault;
use crate::line::Line;
use crate::report_lines::{push_count, push_row};
use omission_explainer::{Report, ReportRow};
use std::alloc::Global;
use std::io::Write;

/// Writes a report as data: a line of JSON for each of its rows, and then one for each node.
///
/// Each line is made in memory, in room that the next one uses again, and goes to the writer at
/// once, so a file's or a terminal's writer is best buffered. If memory runs out or the writer
/// fails, the writer has a beginning of the text.
pub fn write_report_data<W: Write>(
    alloc: Global,
    report: &Report,
    out: &mut W,
) -> Result<(), DataFault>
    ensures { OnOk result
        (Appends (W.contents out.old) (W.contents out.new) (report_data report.now)) }
{
    let mut line = Line::new(alloc);
    write_rows(report, &mut line, out)?;
    write_counts(report.counts.as_slice(), &mut line, out)
}

fn write_rows<W: Write>(report: &Report, line: &mut Line, out: &mut W) -> Result<(), DataFault>
    ensures { OnOk result (Appends (W.contents out.old) (W.contents out.new)
        (flat_map (row_line report.now) report.now.rows)) }
{
    for row in report.rows.as_slice() {
        write_row(report, row, line, out)?;
    }
    Ok(())
}

fn write_row<W: Write>(
    report: &Report,
    row: &ReportRow,
    line: &mut Line,
    out: &mut W,
) -> Result<(), DataFault>
    ensures { OnOk result
        (Appends (W.contents out.old) (W.contents out.new) (row_line report.now row.now)) }
{
    line.clear();
    push_row(report, row, line)?;
    write_line(line, out)
}

fn write_counts<W: Write>(
    counts: &[(u64, u64)],
    line: &mut Line,
    out: &mut W,
) -> Result<(), DataFault>
    ensures { OnOk result
        (Appends (W.contents out.old) (W.contents out.new) (count_lines 0 counts.now)) }
{
    for (node, count) in counts.iter().enumerate() {
        write_count(node as u64, *count, line, out)?;
    }
    Ok(())
}

fn write_count<W: Write>(
    node: u64,
    count: (u64, u64),
    line: &mut Line,
    out: &mut W,
) -> Result<(), DataFault>
    ensures { OnOk result (Appends (W.contents out.old) (W.contents out.new)
        (data_line (count_object node count))) }
{
    line.clear();
    push_count(node, count, line)?;
    write_line(line, out)
}

/// Writes the line with its end.
fn write_line<W: Write>(line: &mut Line, out: &mut W) -> Result<(), DataFault>
    ensures { OnOk result
        (Appends (W.contents out.old) (W.contents out.new) (line.old ++ codes "\n")) }
{
    line.push(b'\n')?;
    out.write_all(line.as_slice())?;
    Ok(())
}

//! Reports and other answers in their forms.
ghost use Rattle.std.specs.Prelude.{◌≡◌, ◌⊎◌, IfErr, IfOk, IsSome, OnOk, true};
ghost use Rattle.std.specs.Io.KnownBytes.{Appends};
ghost use Rattle.command_runs.specs.Refused.{IsSilent};
ghost use Rattle.command_runs.specs.Served.{SaysReport, data_text, decided_data, omitted_text};
ghost use Rattle.command_runs.specs.Served.{summary_as, summary_data, summary_text, told_text};
ghost use Rattle.command_runs.specs.Served.{truth_text, verdict_as, verdict_data};
ghost use Rattle.command_runs.specs.Stages.{IsUntoldReport};

use crate::outcome::Outcome;
use crate::refusal::Refusal;
use crate::run::written;
use command_words::{AnswerFormat, Blocks, Form, Format};
use omission_explainer::{Decided, Report, Verdict, decided, write_report};
use round_check::Checked;
use round_lang::Identifier;
use run_data::{
    Grouping, TableOptions, write_omissions, write_report_data, write_summary, write_table,
};
use std::alloc::Global;
use std::io;
use std::io::Write;

/// Writes what a program declares: the number of its values, its period and the number of its
/// variables.
pub(crate) fn write_declared<O: Write>(
    program: &Checked,
    format: AnswerFormat,
    out: &mut O,
) -> io::Result<()>
    ensures { OnOk result (Appends (O.contents out.old) (O.contents out.new)
        (summary_as format program.now)) }
{
    match format {
        AnswerFormat::Text => write_summary_line(program, out),
        AnswerFormat::Json => write_summary_data(program, out),
    }
}

fn write_summary_line<O: Write>(program: &Checked, out: &mut O) -> io::Result<()>
    ensures { OnOk result (Appends (O.contents out.old) (O.contents out.new)
        (summary_text program.now)) }
{
    let program = program.program();
    writeln!(
        out,
        "ok values {} period {} variables {}",
        program.values(),
        program.period(),
        program.variables().len()
    )
}

fn write_summary_data<O: Write>(program: &Checked, out: &mut O) -> io::Result<()>
    ensures { OnOk result (Appends (O.contents out.old) (O.contents out.new)
        (summary_data program.now)) }
{
    let program = program.program();
    writeln!(
        out,
        "{{\"values\":{},\"period\":{},\"variables\":{}}}",
        program.values(),
        program.period(),
        program.variables().len()
    )
}

/// Writes a verdict.
pub(crate) fn write_verdict<O: Write>(
    verdict: Verdict,
    format: AnswerFormat,
    out: &mut O,
) -> io::Result<()>
    ensures { OnOk result (Appends (O.contents out.old) (O.contents out.new)
        (verdict_as format verdict)) }
{
    match format {
        AnswerFormat::Text => writeln!(out, "{verdict}"),
        AnswerFormat::Json => write_verdict_data(verdict, out),
    }
}

/// Writes a verdict as a line of data.
fn write_verdict_data<O: Write>(verdict: Verdict, out: &mut O) -> io::Result<()>
    ensures { OnOk result (Appends (O.contents out.old) (O.contents out.new)
        (verdict_data verdict)) }
{
    let lockstep = truth_of(verdict.lockstep);
    let bound = truth_of(verdict.bound);
    match verdict.clear {
        Some(round) => writeln!(
            out,
            "{{\"lockstep\":{lockstep},\"bound\":{bound},\"clear\":{round}}}"
        ),
        None => writeln!(
            out,
            "{{\"lockstep\":{lockstep},\"bound\":{bound},\"clear\":null}}"
        ),
    }
}

fn truth_of(flag: bool) -> &'static str
    ensures { result.now ≡ truth_text flag }
{
    if flag { "true" } else { "false" }
}

/// Writes a report as lines of text, and what its decisions come to if `told` says so.
pub(crate) fn write_told<O: Write>(report: &Report, told: bool, out: &mut O) -> io::Result<()>
    ensures { OnOk result (Appends (O.contents out.old) (O.contents out.new)
        (told_text report.now told)) }
{
    if told {
        write_report(report, out)?;
        writeln!(out, "decided {}", decided(report))
    } else {
        write_report(report, out)
    }
}

/// Writes what all decisions come to as a line of data.
fn write_decided_data<O: Write>(all: Decided, out: &mut O) -> io::Result<()>
    ensures { OnOk result (Appends (O.contents out.old) (O.contents out.new)
        (decided_data true all)) }
{
    match all {
        Decided::None => writeln!(out, "{{\"decided\":null}}"),
        Decided::One(value) => writeln!(out, "{{\"decided\":{value}}}"),
        Decided::Split => writeln!(out, "{{\"decided\":\"split\"}}"),
    }
}

/// A report as data.
fn data_of(alloc: Global, report: &Report, told: bool) -> Result<Vec<u8>, Refusal>
    ensures ok { IfOk result (λ text. text.items ≡ data_text report.now told) }
    ensures err { IfErr result (λ r. r ≡ Refusal.NoMemory) }
{
    let mut text = Vec::new(alloc);
    if write_report_data(alloc, report, &mut text).is_err() {
        return Err(Refusal::NoMemory);
    }
    if told && write_decided_data(decided(report), &mut text).is_err() {
        return Err(Refusal::NoMemory);
    }
    Ok(text)
}

/// A report as a table.
fn table_of(alloc: Global, report: &Report, form: Form<'_>) -> Result<Vec<u8>, Refusal>
    ensures err { IfErr result (λ r.
        (r ≡ Refusal.NoMemory) ⊎ ((r ≡ Refusal.NoVariable) × IsSome form.entry.variables)) }
{
    let by = match form.blocks {
        Blocks::Rounds => Grouping::Round,
        Blocks::Nodes => Grouping::Node,
    };
    let columns = match form.variables {
        Some(list) => Some(places_of(alloc, report.names.as_slice(), list)?),
        None => None,
    };
    let options = TableOptions {
        by,
        variables: columns.as_deref(),
        changed_only: form.changed,
    };
    let mut text = Vec::new(alloc);
    if write_table(alloc, report, &options, &mut text).is_err() {
        return Err(Refusal::NoMemory);
    }
    with_decided(report, form.decided, text)
}

/// The places of the variables that a list names.
fn places_of(alloc: Global, names: &[Identifier], list: &str) -> Result<Vec<usize>, Refusal>
    ensures err { IfErr result (λ r. (r ≡ Refusal.NoMemory) ⊎ (r ≡ Refusal.NoVariable)) }
{
    let mut places = Vec::new(alloc);
    for name in list.split(',') {
        let Some(place) = place_of(names, name) else {
            return Err(Refusal::NoVariable);
        };
        if places.push(place).is_err() {
            return Err(Refusal::NoMemory);
        }
    }
    Ok(places)
}

/// The place of the variable of a name.
fn place_of(names: &[Identifier], name: &str) -> Option<usize> {
    for place in 0..names.len() {
        if names[place].as_str() == name {
            return Some(place);
        }
    }
    None
}

/// What a report comes to.
fn summary_of(alloc: Global, report: &Report, form: Form<'_>) -> Result<Vec<u8>, Refusal>
    ensures err { IfErr result (λ r. r ≡ Refusal.NoMemory) }
{
    let mut text = Vec::new(alloc);
    if write_summary(alloc, report, &mut text).is_err() {
        return Err(Refusal::NoMemory);
    }
    with_decided(report, form.decided, text)
}

/// The messages that a report omits as an omission file, and behind them a comment on the decisions
/// if `told` says so.
fn omissions_of(alloc: Global, report: &Report, told: bool) -> Result<Vec<u8>, Refusal>
    ensures ok { IfOk result (λ text. text.items ≡ omitted_text report.now told) }
    ensures err { IfErr result (λ r. r ≡ Refusal.NoMemory) }
{
    let mut text = Vec::new(alloc);
    if write_omissions(alloc, report, &mut text).is_err() {
        return Err(Refusal::NoMemory);
    }
    if told && writeln!(text, "# decided {}", decided(report)).is_err() {
        return Err(Refusal::NoMemory);
    }
    Ok(text)
}

/// The text with a last line on the decisions, if `told` says so.
fn with_decided(report: &Report, told: bool, text: Vec<u8>) -> Result<Vec<u8>, Refusal>
    ensures err { IfErr result (λ r. r ≡ Refusal.NoMemory) }
{
    let mut text = text;
    if told && writeln!(text, "decided {}", decided(report)).is_err() {
        return Err(Refusal::NoMemory);
    }
    Ok(text)
}

/// Writes a text that was made in memory.
#[tactic(auto, using(crate::proofs::Telling::silent_write))]
fn print<O: Write>(text: &[u8], out: &mut O) -> Result<Outcome, Refusal>
    ensures done { IfOk result (λ o. o ≡ Outcome.Done) }
    ensures said { OnOk result (Appends (O.contents out.old) (O.contents out.new) text.now) }
    ensures refused { IfErr result (λ r. r ≡ Refusal.Write) }
    ensures silent { IfErr result (IsSilent (O.contents out.old) (O.contents out.new)) }
{
    written(out.write_all(text), out)
}

/// Writes a report in its form. All but lines of text is made in memory before any of it is
/// written.
#[tactic(auto, using(crate::proofs::Telling::silent_same, crate::proofs::Telling::silent_write))]
pub(crate) fn tell_report<O: Write>(
    alloc: Global,
    report: &Report,
    form: Form<'_>,
    out: &mut O,
) -> Result<Outcome, Refusal>
    ensures done { IfOk result (λ o. o ≡ Outcome.Done) }
    ensures said { OnOk result
        (SaysReport form.entry report.now (O.contents out.old) (O.contents out.new)) }
    ensures refused { IfErr result (IsUntoldReport form.entry) }
    ensures silent { IfErr result (IsSilent (O.contents out.old) (O.contents out.new)) }
{
    match form.format {
        Format::Text => written(write_told(report, form.decided, out), out),
        Format::Json => print(&data_of(alloc, report, form.decided)?, out),
        Format::Table => print(&table_of(alloc, report, form)?, out),
        Format::Summary => print(&summary_of(alloc, report, form)?, out),
        Format::Omissions => print(&omissions_of(alloc, report, form.decided)?, out),
    }
}

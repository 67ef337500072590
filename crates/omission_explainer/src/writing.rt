//! A report's text.
ghost use Rattle.std.specs.Prelude.{◌≡◌, ◌+◌, ◌<◌, ◌≤◌, ◌++◌, [], OnOk, codes, length};
ghost use Rattle.std.specs.Prelude.{drop, if◌then◌else◌};
ghost use Rattle.std.specs.Fmt.{decimal};
ghost use Rattle.std.specs.Io.KnownBytes.{Appends};
ghost use Rattle.std.specs.List.{flat_map};
ghost use Rattle.round_lang.specs.Values.{at};
ghost use Rattle.omission_explainer.specs.Short.{Tells, piece};
ghost use Rattle.omission_explainer.specs.Report.{count_text, counts_text, decision_text};
ghost use Rattle.omission_explainer.specs.Report.{entries_text, nodes_text};
ghost use Rattle.omission_explainer.specs.Report.{report_text, row_text, set_text, state_text};
ghost use Rattle.omission_explainer.specs.Report.{named_text, type_at, value_text};
ghost use Rattle.short_text.specs.Short.{room};

use crate::report::{Report, ReportRow};
use crate::spelt_set::SpeltSet;
use round_lang::{Ty, ValueSet};
use round_meaning::NodeSet;
use short_text::{ROOM, ShortText, push_number};
use std::io;
use std::io::Write;
use step_machine::{RowReader, StateReader, StoredState};

/// How many bytes are added to a text at once, at most: 64 members below 64 take two digits and a
/// comma each.
const PIECE: usize = 256;

/// Writes a report's text: a line for each of its rows, and then a line for each node, each with
/// LF.
///
/// It takes no memory, and writes in pieces of some hundred bytes, so a file's or a terminal's
/// writer is best buffered. The first fault of the writer is answered as it came; the writer then
/// has a beginning of the text.
pub fn write_report<W: Write>(report: &Report, out: &mut W) -> io::Result<()>
    ensures { OnOk result
        (Appends (W.contents out.old) (W.contents out.new) (report_text report.now)) }
{
    let mut text = ShortText::new();
    let mut spelt = SpeltSets {
        nodes: SpeltSet::new(),
        values: SpeltSet::new(),
    };
    write_rows(report, &mut spelt, &mut text, out)?;
    write_counts(report.counts.as_slice(), &mut text, out)?;
    out.write_all(text.as_slice())
}

/// The sets that were written last: one of nodes and one of values, so that neither takes the
/// other's place.
#[derive(Drop)]
struct SpeltSets {
    nodes: SpeltSet,
    values: SpeltSet,
}

/// Makes room for a piece: if too little is left, what was kept back goes out.
#[inline(always)]
fn make_room<W: Write>(text: &mut ShortText, out: &mut W) -> io::Result<()>
    ensures same { OnOk result
        (Tells (W.contents out.old) text.old (W.contents out.new) text.new []) }
    ensures room { OnOk result (length text.new + piece ≤ room) }
{
    if text.len() > ROOM - PIECE {
        out.write_all(text.as_slice())?;
        text.clear();
    }
    Ok(())
}

fn write_rows<W: Write>(
    report: &Report,
    spelt: &mut SpeltSets,
    text: &mut ShortText,
    out: &mut W,
) -> io::Result<()>
    ensures { OnOk result (Tells (W.contents out.old) text.old (W.contents out.new) text.new
        (flat_map (row_text report.now) report.now.rows)) }
{
    for row in report.rows.as_slice() {
        write_row(report, row, spelt, text, out)?;
    }
    Ok(())
}

fn write_counts<W: Write>(
    counts: &[(u64, u64)],
    text: &mut ShortText,
    out: &mut W,
) -> io::Result<()>
    ensures { OnOk result (Tells (W.contents out.old) text.old (W.contents out.new) text.new
        (counts_text 0 counts.now)) }
{
    for (node, count) in counts.iter().enumerate() {
        make_room(text, out)?;
        push_count(node as u64, *count, text);
    }
    Ok(())
}

/// Appends the line of a node's steps and closed rounds.
fn push_count(node: u64, count: (u64, u64), text: &mut ShortText)
    requires { length text.old + piece ≤ room }
    ensures { text.new ≡ text.old ++ count_text node count }
{
    let (steps, rounds) = count;
    text.push_array(b"node ");
    push_number(node, text);
    text.push_array(b" steps ");
    push_number(steps, text);
    text.push_array(b" rounds ");
    push_number(rounds, text);
    text.push(b'\n');
}

fn write_row<W: Write>(
    report: &Report,
    row: &ReportRow,
    spelt: &mut SpeltSets,
    text: &mut ShortText,
    out: &mut W,
) -> io::Result<()>
    ensures { OnOk result (Tells (W.contents out.old) text.old (W.contents out.new) text.new
        (row_text report.now row.now)) }
{
    make_room(text, out)?;
    push_head(row.round, row.node, text);
    write_nodes(b" heard ", row.heard, &mut spelt.nodes, text, out)?;
    write_nodes(b" silent ", row.silent, &mut spelt.nodes, text, out)?;
    write_nodes(b" omitted ", row.omitted, &mut spelt.nodes, text, out)?;
    write_state(report, &row.state, &mut spelt.values, text, out)?;
    make_room(text, out)?;
    push_decision(row.decision, text);
    Ok(())
}

/// Appends what a row begins with.
#[inline(always)]
fn push_head(round: u32, node: u32, text: &mut ShortText)
    requires { length text.old + piece ≤ room }
    ensures { text.new
        ≡ text.old ++ (codes "round " ++ decimal round ++ codes " node " ++ decimal node) }
{
    text.push_array(b"round ");
    push_number(u64::from(round), text);
    text.push_array(b" node ");
    push_number(u64::from(node), text);
}

/// Appends the decision, or `-`, and the line's end.
#[inline(always)]
fn push_decision(decision: Option<u32>, text: &mut ShortText)
    requires { length text.old + piece ≤ room }
    ensures { text.new
        ≡ text.old ++ (codes " decision " ++ decision_text decision ++ codes "\n") }
{
    text.push_array(b" decision ");
    match decision {
        Some(value) => push_number(u64::from(value), text),
        None => text.push(b'-'),
    }
    text.push(b'\n');
}

/// A set of nodes after its label: in rising order with commas, or `-`.
fn write_nodes<const N: usize, W: Write>(
    label: &[u8; N],
    nodes: NodeSet,
    spelt: &mut SpeltSet,
    text: &mut ShortText,
    out: &mut W,
) -> io::Result<()>
    requires { length label.now ≤ 16 }
    ensures { OnOk result (Tells (W.contents out.old) text.old (W.contents out.new) text.new
        (label.now ++ nodes_text nodes.bits)) }
{
    make_room(text, out)?;
    text.push_array(label);
    push_nodes(nodes, spelt, text);
    Ok(())
}

/// Appends the nodes in rising order with commas, or `-`.
#[inline(always)]
fn push_nodes(nodes: NodeSet, spelt: &mut SpeltSet, text: &mut ShortText)
    requires { length text.old + 192 ≤ room }
    ensures { text.new ≡ text.old ++ nodes_text nodes.bits }
{
    let set = ValueSet { bits: nodes.bits };
    if set.size() == 0 {
        text.push(b'-');
    } else {
        spelt.push_members(set, text);
    }
}

fn write_state<W: Write>(
    report: &Report,
    state: &StoredState,
    spelt: &mut SpeltSet,
    text: &mut ShortText,
    out: &mut W,
) -> io::Result<()>
    ensures { OnOk result (Tells (W.contents out.old) text.old (W.contents out.new) text.new
        (state_text report.now state.now)) }
{
    make_room(text, out)?;
    text.push_array(b" state");
    let mut left = state.reader();
    for place in 0..report.names.as_slice().len() {
        write_variable(report, place, &mut left, spelt, text, out)?;
    }
    Ok(())
}

/// A variable's name and its value, the first one that is left.
fn write_variable<W: Write>(
    report: &Report,
    place: usize,
    left: &mut StateReader<'_>,
    spelt: &mut SpeltSet,
    text: &mut ShortText,
    out: &mut W,
) -> io::Result<()>
    requires { place < length report.now.names }
    ensures text { OnOk result (Tells (W.contents out.old) text.old (W.contents out.new) text.new
        (named_text report.now place (at left.old 0))) }
    ensures left { OnOk result (left.new ≡ drop 1 left.old) }
{
    let names = report.names.as_slice();
    make_room(text, out)?;
    text.push(b' ');
    text.push_all(names[place].as_str().as_bytes());
    text.push(b'=');
    let ty = type_at(report.types.as_slice(), place);
    write_value(report.values, ty, left, spelt, text, out)
}

/// The type of the variable at a place, num if there is none.
fn type_at(types: &[Ty], place: usize) -> Ty
    ensures { result ≡ type_at types.now place }
{
    match types.get(place) {
        Some(ty) => *ty,
        None => Ty::Num,
    }
}

/// The first value that is left.
fn write_value<W: Write>(
    values: u32,
    ty: Ty,
    left: &mut StateReader<'_>,
    spelt: &mut SpeltSet,
    text: &mut ShortText,
    out: &mut W,
) -> io::Result<()>
    ensures text { OnOk result (Tells (W.contents out.old) text.old (W.contents out.new) text.new
        (value_text values ty (at left.old 0))) }
    ensures left { OnOk result (left.new ≡ drop 1 left.old) }
{
    make_room(text, out)?;
    match ty {
        Ty::Num => push_number(u64::from(left.next_num()), text),
        Ty::Bool => push_flag(left.next_flag(), text),
        Ty::Set => push_set(left.next_set(), spelt, text),
        Ty::Row => return write_entries(values, &mut left.next_row(), text, out),
    }
    Ok(())
}

/// Appends a truth value.
#[inline(always)]
fn push_flag(flag: bool, text: &mut ShortText)
    requires { length text.old + piece ≤ room }
    ensures { text.new ≡ text.old ++ (if flag then codes "true" else codes "false") }
{
    text.push_all(if flag { b"true" } else { b"false" });
}

/// Appends a set of values in braces.
#[inline(always)]
fn push_set(set: ValueSet, spelt: &mut SpeltSet, text: &mut ShortText)
    requires { length text.old + piece ≤ room }
    ensures { text.new ≡ text.old ++ set_text set.bits }
{
    text.push(b'{');
    spelt.push_members(set, text);
    text.push(b'}');
}

/// A row's entries other than 0.
fn write_entries<W: Write>(
    values: u32,
    left: &mut RowReader<'_>,
    text: &mut ShortText,
    out: &mut W,
) -> io::Result<()>
    ensures { OnOk result (Tells (W.contents out.old) text.old (W.contents out.new) text.new
        (entries_text values left.old)) }
{
    make_room(text, out)?;
    text.push(b'[');
    let mut has_entry = false;
    for value in 0..values {
        let entry = left.next_entry();
        if entry != 0 {
            make_room(text, out)?;
            push_entry(has_entry, value, entry, text);
            has_entry = true;
        }
    }
    make_room(text, out)?;
    text.push(b']');
    Ok(())
}

/// Appends an entry, behind a comma if it isn't the first.
fn push_entry(is_next: bool, value: u32, entry: u64, text: &mut ShortText)
    requires { length text.old + piece ≤ room }
    ensures { text.new ≡ text.old
        ++ ((if is_next then codes "," else []) ++ (decimal value ++ codes ":" ++ decimal entry)) }
{
    if is_next {
        text.push(b',');
    }
    push_number(u64::from(value), text);
    text.push(b':');
    push_number(entry, text);
}

//! A report with the reasons of what it omits, and the events that did nothing.
ghost use Rattle.std.specs.Prelude.{◌≡◌, IsTrue};
ghost use Rattle.omission_reasons.specs.Indexing.{IsIndexOf};
ghost use Rattle.step_book.specs.Names.{IsName};

use crate::decision_lines::tell_decided;
use crate::located::unwritten;
use command_runs::Refusal;
use omission_explainer::{Report, ReportRow, write_report};
use omission_reasons::{Idle, TraceIndex, made_place, reason_of, why_not_copied, why_not_let_go};
use reason_texts::{IdleText, ReasonText, TextLines};
use round_meaning::{NodeSet, Setup};
use run_events::{Event, MAX_COPY, Name, NoMemory};
use slot_plans::Plan;
use std::alloc::Global;
use std::io::Write;
use std::str::from_utf8;
use step_book::Book;

/// How many events that did nothing are listed at most.
const MAX_LISTED: usize = 100;

/// The report of a run, with the book of the run and the text of its schedule.
#[derive(Drop)]
pub(crate) struct ToldReport<'a, P: Plan> {
    pub report: &'a Report,
    pub book: &'a Book<P>,
    pub schedule: &'a str,
    /// Whether a last line tells what the decisions come to.
    pub decided: bool,
}

impl<P: Plan> ToldReport<'_, P> {
    /// Writes the report, and behind each row that omits messages why each of their copies wasn't
    /// heard; then what the decisions come to if that is asked for; then the events of the network
    /// that did nothing.
    pub(crate) fn tell<O: Write>(&self, alloc: Global, out: &mut O) -> Result<(), Refusal> {
        if self.needs_no_reasons() {
            write_report(self.report, out).map_err(unwritten)?;
            return self.tell_decided(out);
        }
        let index = TraceIndex::new(alloc, self.book)?;
        let reasons = RunReasons {
            book: self.book,
            index: &index,
            lines: &TextLines::new(alloc, self.schedule)?,
        };
        reasons.tell_rows(alloc, self.report, out)?;
        self.tell_decided(out)?;
        reasons.tell_idle(out)
    }

    /// Whether no message was omitted and each event of the network did something, which is seen
    /// without an index of the trace.
    fn needs_no_reasons(&self) -> bool {
        let rows = self.report.rows.as_slice();
        rows.iter().all(|row| row.omitted == NodeSet::empty())
            && self.book.answers().iter().all(|moved| *moved)
    }

    fn tell_decided<O: Write>(&self, out: &mut O) -> Result<(), Refusal> {
        if self.decided {
            tell_decided(self.report, self.book.setup().nodes, out)?;
        }
        Ok(())
    }
}

/// The book of a run, with the index of its trace and the lines of its schedule.
#[derive(Drop)]
struct RunReasons<'a, 'b, P: Plan> {
    book: &'a Book<P>,
    index: &'b TraceIndex,
    lines: &'b TextLines,
}

impl<P: Plan> RunReasons<'_, '_, P> {
    /// Writes the report, and behind each row why the copies of what it omits weren't heard.
    fn tell_rows<O: Write>(
        &self,
        alloc: Global,
        report: &Report,
        out: &mut O,
    ) -> Result<(), Refusal>
        requires { IsIndexOf self.now.book.now.log self.now.index.now }
    {
        let mut printed = Vec::new(alloc);
        let Ok(()) = write_report(report, &mut printed) else {
            return Err(Refusal::NoMemory);
        };
        let Ok(text) = from_utf8(printed.as_slice()) else {
            return Err(Refusal::Write);
        };
        let rows = report.rows.as_slice();
        for (at, line) in text.lines().enumerate() {
            out.write_all(line.as_bytes()).map_err(unwritten)?;
            out.write_all(b"\n").map_err(unwritten)?;
            if let Some(row) = rows.get(at) {
                self.tell_row(row, out)?;
            }
        }
        Ok(())
    }

    /// Writes a line for each copy of a message that a row omits.
    fn tell_row<O: Write>(&self, row: &ReportRow, out: &mut O) -> Result<(), Refusal>
        requires { IsIndexOf self.now.book.now.log self.now.index.now }
    {
        if row.omitted == NodeSet::empty() {
            return Ok(());
        }
        let setup = self.book.setup();
        for from in 0..setup.nodes {
            if !row.omitted.contains(from) {
                continue;
            }
            for copy in 0..MAX_COPY + 1 {
                let name = Name {
                    from,
                    to: row.node,
                    round: row.round,
                    copy,
                };
                if is_name(setup, name) {
                    self.tell_copy(name, out)?;
                }
            }
        }
        Ok(())
    }

    /// Writes the line of a copy, if it has a reason.
    fn tell_copy<O: Write>(&self, name: Name, out: &mut O) -> Result<(), Refusal>
        requires index { IsIndexOf self.now.book.now.log self.now.index.now }
        requires name { IsName self.now.book.now.log.setup name }
    {
        let Some(reason) = reason_of(self.book, self.index, name) else {
            return Ok(());
        };
        let text = ReasonText {
            name,
            made: made_place(self.book, self.index, name),
            reason,
            lines: self.lines,
        };
        writeln!(out, "    {text}").map_err(unwritten)
    }

    /// Writes a line for each of the first events of the network that did nothing, but for those of
    /// silence, which whoever writes a schedule needn't foresee.
    fn tell_idle<O: Write>(&self, out: &mut O) -> Result<(), Refusal>
        requires { IsIndexOf self.now.book.now.log self.now.index.now }
    {
        let mut listed: usize = 0;
        let mut answers = self.book.answers().iter();
        for (place, event) in self.book.trace().iter().enumerate() {
            let event = event.event();
            if is_step(event) || answers.next() == Some(&true) {
                continue;
            }
            let Some(idle) = self.idle_at(place) else {
                continue;
            };
            if idle == Idle::Silent {
                continue;
            }
            if listed == MAX_LISTED {
                return writeln!(out, "    (more events did nothing)").map_err(unwritten);
            }
            listed = listed.saturating_add(1);
            let text = IdleText {
                event,
                idle,
                lines: self.lines,
            };
            writeln!(out, "    line {}: {text}", self.lines.of_event(place)).map_err(unwritten)?;
        }
        Ok(())
    }

    /// Why the event of the network that stands at a place did nothing, if it did nothing.
    fn idle_at(&self, place: usize) -> Option<Idle>
        requires { IsIndexOf self.now.book.now.log self.now.index.now }
    {
        let (book, index) = (self.book, self.index);
        let setup = book.setup();
        match book.trace().get(place)?.event() {
            Event::Release(name) if is_name(setup, name) => {
                why_not_let_go(book, index, name, place)
            }
            Event::Drop(name) if is_name(setup, name) => why_not_let_go(book, index, name, place),
            Event::Copy(name) if is_name(setup, name) && 0 < name.copy => {
                why_not_copied(book, index, name, place)
            }
            _ => None,
        }
    }
}

/// Whether the event is a node's step, and none of the network.
fn is_step(event: Event) -> bool {
    matches!(event, Event::Step(_))
}

/// Whether the name is that of a copy of a message of the run.
fn is_name(setup: &Setup, name: Name) -> bool
    ensures { IsTrue result → IsName setup.now name }
{
    name.from < setup.nodes
        && name.to < setup.nodes
        && 0 < name.round
        && name.round <= setup.rounds
        && name.copy <= MAX_COPY
}

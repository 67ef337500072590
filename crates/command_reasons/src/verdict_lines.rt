//! A verdict with what breaks lockstep and the bound, and why no round is clear.
ghost use Rattle.omission_explainer.specs.Verdict.{AreNodes};
ghost use Rattle.omission_reasons.specs.Indexing.{IsIndexOf};

use crate::located::unwritten;
use command_runs::{Refusal, Terms};
use omission_explainer::Verdict;
use omission_reasons::TraceIndex;
use reason_texts::TextLines;
use round_meaning::NodeSet;
use slot_plans::Plan;
use std::alloc::Global;
use std::io::Write;
use step_book::Book;
use verdict_reasons::{Unclear, bound_break, pace_break, why_unclear};

/// The verdict on a run, with the book of the run and the lines of its schedule.
#[derive(Drop)]
pub(crate) struct ToldVerdict<'a, P: Plan> {
    pub verdict: Verdict,
    pub terms: Terms<'a>,
    pub book: &'a Book<P>,
    pub lines: &'a TextLines,
}

impl<P: Plan> ToldVerdict<'_, P> {
    /// Writes the verdict, and a line for each part of it that says no.
    pub(crate) fn tell<O: Write>(&self, alloc: Global, out: &mut O) -> Result<(), Refusal> {
        writeln!(out, "{}", self.verdict).map_err(unwritten)?;
        let correct = nodes_of(self.terms.correct, self.book.setup().nodes);
        self.tell_lockstep(correct, out)?;
        if !self.verdict.bound {
            let index = TraceIndex::new(alloc, self.book)?;
            self.tell_bound(&index, correct, out)?;
        }
        self.tell_clear(out)
    }

    /// Writes the first step that breaks lockstep.
    fn tell_lockstep<O: Write>(&self, correct: NodeSet, out: &mut O) -> Result<(), Refusal>
        requires { AreNodes self.now.book.now.log.setup.nodes correct.bits }
    {
        let Some(found) = pace_break(self.book, correct) else {
            return Ok(());
        };
        writeln!(
            out,
            "    lockstep: node {} takes its step {} at line {}, when node {} has taken {} steps",
            found.node,
            found.step,
            self.lines.of_event(found.place),
            found.behind,
            found.behind_steps
        )
        .map_err(unwritten)
    }

    /// Writes the first receive that lacks a message whose bound was over.
    fn tell_bound<O: Write>(
        &self,
        index: &TraceIndex,
        correct: NodeSet,
        out: &mut O,
    ) -> Result<(), Refusal>
        requires nodes { AreNodes self.now.book.now.log.setup.nodes correct.bits }
        requires index { IsIndexOf self.now.book.now.log index.now }
    {
        let Terms { delta, gst, .. } = self.terms;
        let Some(found) = bound_break(self.book, index, correct, delta, gst) else {
            return Ok(());
        };
        let name = found.name;
        writeln!(
            out,
            "    bound: node {}'s receive in its step {} at line {} lacks node {}'s message of \
             round {}, sent in step {} at line {}",
            name.to,
            found.received_step,
            self.lines.of_event(found.received),
            name.from,
            name.round,
            found.sent_step,
            self.lines.of_event(found.sent)
        )
        .map_err(unwritten)
    }

    /// Writes why no round is clear.
    fn tell_clear<O: Write>(&self, out: &mut O) -> Result<(), Refusal> {
        let Terms { delta, gst, .. } = self.terms;
        match why_unclear(&self.book.plan(), delta, gst) {
            None => Ok(()),
            Some(Unclear::FewReceives) => {
                writeln!(out, "    clear: no round of the plan has {delta} receives").map_err(
                    unwritten,
                )
            }
            Some(Unclear::LateStart) => {
                writeln!(
                    out,
                    "    clear: no round of 1 to 4096 starts at step {gst} or later"
                )
                .map_err(unwritten)
            }
        }
    }
}

/// The set of the listed nodes, of so many that there are.
fn nodes_of(list: &[u32], nodes: u32) -> NodeSet
    ensures { AreNodes nodes result.bits }
{
    let mut set = NodeSet::empty();
    for node in list {
        set = with_node(set, *node, nodes);
    }
    set
}

/// The set with one node more, if it's one of so many.
fn with_node(set: NodeSet, node: u32, nodes: u32) -> NodeSet
    requires { AreNodes nodes set.bits }
    ensures { AreNodes nodes result.bits }
{
    if node < nodes { set.with(node) } else { set }
}

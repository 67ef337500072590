//! The schedule of a run in lockstep, whose idle ticks are written and never kept.
ghost use Rattle.std.specs.Prelude.{◌≤◌, ◌<◌, OnOk};
ghost use Rattle.std.specs.Io.KnownBytes.{Appends};
ghost use Rattle.command_runs.specs.IdleTexts.{IsReady, events_text, idle_text, schedule_text};
ghost use Rattle.lockstep_runs.specs.IdleTicks.{turn_steps};
ghost use Rattle.lockstep_runs.specs.Changes.{timing_by};
ghost use Rattle.run_events.specs.Limits.{max_nodes};
ghost use Rattle.schedule_text.specs.Writing.{event_line, line_text};
ghost use Rattle.run_events.specs.declared.event.Event.TheVariants as event;

use lockstep_runs::{Changes, Course};
use policies::Bounded;
use round_meaning::NodeSet;
use std::io;
use std::io::Write;

/// Ticks of a run in lockstep in which nothing happens but idle steps.
#[derive(Drop)]
pub struct IdleTicks<'a> {
    pub correct: NodeSet,
    pub bounded: &'a Bounded,
    pub changes: Changes,
    pub nodes: u32,
    /// The first of the ticks.
    pub first: u32,
    /// The one after the last.
    pub after: u32,
}

/// The schedule of a run in lockstep.
#[derive(Drop)]
pub struct PacedSchedule<'a> {
    /// The text but for the lines of the idle ticks, which end it.
    pub text: String,
    pub idle: IdleTicks<'a>,
}

impl PacedSchedule<'_> {
    /// Writes the text. The first fault of the writer is answered as it came.
    pub fn write<W: Write>(&self, out: &mut W) -> io::Result<()>
        requires { IsReady self.now.idle }
        ensures { OnOk result
            (Appends (W.contents out.old) (W.contents out.new) (schedule_text self.now)) }
    {
        out.write_all(self.text.as_bytes())?;
        self.idle.write(out)
    }
}

impl IdleTicks<'_> {
    fn write<W: Write>(&self, out: &mut W) -> io::Result<()>
        requires { IsReady self.now }
        ensures { OnOk result
            (Appends (W.contents out.old) (W.contents out.new) (idle_text self.now)) }
    {
        for tick in self.first..self.after {
            self.write_tick(tick, out)?;
        }
        Ok(())
    }

    fn write_tick<W: Write>(&self, tick: u32, out: &mut W) -> io::Result<()>
        requires { self.now.nodes ≤ max_nodes }
        ensures { OnOk result (Appends (W.contents out.old) (W.contents out.new)
            (events_text (turn_steps (timing_by self.now.bounded.now self.now.changes
            self.now.correct.bits) self.now.nodes tick self.now.nodes))) }
    {
        let course = Course {
            correct: self.correct,
            bounded: self.bounded,
            changes: &self.changes,
        };
        for turn in 0..self.nodes {
            if let Some(node) = course.step_of(self.nodes, tick, turn) {
                write_step(node, out)?;
            }
        }
        Ok(())
    }
}

fn write_step<W: Write>(node: u32, out: &mut W) -> io::Result<()>
    ensures { OnOk result (Appends (W.contents out.old) (W.contents out.new)
        (line_text (event_line (event.Step node)))) }
{
    writeln!(out, "step {node}")
}

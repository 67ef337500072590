//! Runs of `gather` in lockstep, as schedules.
ghost use Rattle.std.specs.Prelude.{◌≡◌, IfOk};

use crate::reading::known;
use adversary::RunFault;
use algorithm_library::gather;
use lockstep_runs::{Changes, MessageDelay, Stop, run_changed_lockstep, run_lockstep};
use policies::{Bounded, Table};
use round_check::Checked;
use round_meaning::{NodeSet, OmissionTable, Setup};
use run_events::PlanKind;
use schedule_text::write_stored_schedule;
use slot_plans::Known;
use std::alloc::Global;
use step_journal::Journal;
use test_kit::{Fault, comma_numbers, nodes, number, setup};

fn bounded(alloc: Global, words: [&str; 4]) -> Result<Bounded, Fault> {
    let [delta, gst, delays, orders] = words;
    Ok(Bounded {
        delta: number(delta)?,
        gst: number(gst)?,
        delays: Table::new(comma_numbers(alloc, delays)?),
        orders: Table::new(comma_numbers(alloc, orders)?),
    })
}

fn stops(alloc: Global, text: &str) -> Result<Vec<Stop>, Fault> {
    let mut stops = Vec::new(alloc);
    for stop in comma_numbers(alloc, text)?.chunks(2) {
        let [node, steps] = *stop else {
            return Err(Fault::Unreadable);
        };
        stops.push(Stop { node, steps })?;
    }
    Ok(stops)
}

fn omissions(alloc: Global, text: &str) -> Result<OmissionTable, Fault> {
    let mut table = OmissionTable::new(alloc);
    for omission in comma_numbers(alloc, text)?.chunks(3) {
        let [receiver, round, sender] = *omission else {
            return Err(Fault::Unreadable);
        };
        table.insert(receiver, round, sender)?;
    }
    Ok(table)
}

fn delays(alloc: Global, text: &str) -> Result<Vec<MessageDelay>, Fault> {
    let mut delays = Vec::new(alloc);
    for delay in comma_numbers(alloc, text)?.chunks(4) {
        let [sender, receiver, round, delay] = *delay else {
            return Err(Fault::Unreadable);
        };
        delays.push(MessageDelay {
            sender,
            receiver,
            round,
            delay,
        })?;
    }
    Ok(delays)
}

/// What is asked for.
#[derive(Drop)]
struct Question {
    program: Checked,
    setup: Setup,
    receives: u32,
    plan: Known,
    correct: NodeSet,
    bounded: Bounded,
    ticks: u32,
}

impl Question {
    fn read(alloc: Global, words: [&str; 10]) -> Result<Question, Fault>
        ensures { IfOk result (λ q. q.plan.nodes ≡ q.setup.nodes) }
    {
        let [
            values,
            inputs,
            rounds,
            receives,
            correct,
            delta,
            gst,
            ticks,
            delays,
            orders,
        ] = words;
        let program = gather(alloc, number(values)?)?;
        let setup = setup(alloc, inputs, rounds)?;
        let receives = number(receives)?;
        let plan = known(setup.nodes, receives)?;
        Ok(Question {
            program,
            setup,
            receives,
            plan,
            correct: nodes(&comma_numbers(alloc, correct)?),
            bounded: bounded(alloc, [delta, gst, delays, orders])?,
            ticks: number(ticks)?,
        })
    }

    /// The run with no changes.
    fn run(&self, alloc: Global) -> Result<Journal<Known>, RunFault>
        requires { self.now.plan.nodes ≡ self.now.setup.nodes }
    {
        run_lockstep(
            alloc,
            &self.program,
            &self.setup,
            self.plan,
            self.correct,
            &self.bounded,
            self.ticks,
        )
    }

    /// The run with these changes.
    fn run_changed(&self, alloc: Global, changes: &Changes) -> Result<Journal<Known>, RunFault>
        requires { self.now.plan.nodes ≡ self.now.setup.nodes }
    {
        run_changed_lockstep(
            alloc,
            &self.program,
            &self.setup,
            self.plan,
            self.correct,
            &self.bounded,
            changes,
            self.ticks,
        )
    }

    fn schedule(
        &self,
        alloc: Global,
        ran: Result<Journal<Known>, RunFault>,
    ) -> Result<String, Fault> {
        match ran {
            Ok(journal) => {
                let kind = PlanKind::Known(self.receives);
                let events = journal.book().trace();
                Ok(write_stored_schedule(alloc, &self.setup, kind, events)?)
            }
            Err(RunFault::NoMemory) => Err(Fault::NoMemory),
            Err(_) => Ok(String::from_str(alloc, "refused\n")?),
        }
    }
}

/// The schedule of the run that the words ask for.
fn schedule(alloc: Global, words: &[&str]) -> Result<String, Fault> {
    match *words {
        [v, i, r, p, c, d, g, t, l, o] => {
            let question = Question::read(alloc, [v, i, r, p, c, d, g, t, l, o])?;
            question.schedule(alloc, question.run(alloc))
        }
        [v, i, r, p, c, d, g, t, l, o, stopped, omitted, own] => {
            let question = Question::read(alloc, [v, i, r, p, c, d, g, t, l, o])?;
            let changes = Changes {
                stops: stops(alloc, stopped)?,
                omissions: omissions(alloc, omitted)?,
                delays: delays(alloc, own)?,
            };
            question.schedule(alloc, question.run_changed(alloc, &changes))
        }
        _ => Err(Fault::Unreadable),
    }
}

/// Writes the schedule of that run.
pub fn write_run(alloc: Global, words: &[&str], out: &mut String) -> Result<(), Fault> {
    let text = schedule(alloc, words)?;
    out.push_str(text.as_str())?;
    Ok(())
}

//! Runs of `gather` by threads.
ghost use Rattle.std.specs.Prelude.{◌≡◌};

use crate::chosen::Chosen;
use crate::gate::Holder;
use crate::reading::schedule_fault;
use crate::reports::{end_text, report};
use crate::watch::{Watch, Watched};
use adversary::{RunFault, run_schedule};
use algorithm_library::gather;
use locked_buffers::{Gate, OpenGate};
use node_threads::{Ended, run_threads};
use policies::{Policy, Prompt};
use round_check::Checked;
use round_meaning::Setup;
use run_events::PlanKind;
use schedule_text::{Pace, Stop, ThreadSetup, read_threads, write_stored_schedule};
use slot_plans::{Known, NamedPlan, Plan};
use std::alloc::Global;
use std::sync::Wait;
use std::thread::Threads;
use step_book::events_of;
use step_journal::Journal;
use test_kit::{Fault, number};

/// How much of a run is printed.
#[derive(Clone, Copy, PartialEq, Eq)]
pub enum Shown {
    /// How each thread ended, and the report.
    Whole,
    /// Of the report the lines of the nodes alone.
    Tail,
    /// How each thread ended, and the run's schedule with the lines of the nodes.
    Events,
}

/// A run of threads: its program, its setup and what is asked of it.
#[derive(Clone, Copy)]
struct Asked<'a> {
    program: &'a Checked,
    setup: &'a Setup,
    plan: PlanKind,
    pace: Pace,
    stops: &'a [Stop],
    shown: Shown,
}

fn number_of(fault: RunFault) -> &'static str {
    match fault {
        RunFault::BadSetup => "refused 1\n",
        RunFault::UnknownNode(_) => "refused 2\n",
        RunFault::UnknownMessage(_) => "refused 3\n",
        RunFault::NoMemory => "refused 4\n",
        RunFault::NoThread => "refused 5\n",
        RunFault::Unmatched => "refused 6\n",
    }
}

impl<'a> Asked<'a> {
    /// The answer on a run under a plan: the ends, the report, and whether the trace, run as a
    /// schedule, has the same report.
    fn answer<R, P, Q, G>(
        &self,
        rt: &R,
        alloc: Global,
        plan: P,
        policy: Q,
        gate: &G,
    ) -> Result<String, Fault>
    where
        R: Threads + Wait + Sync,
        P: Plan + Send + Sync,
        Q: Policy + Send + Drop,
        G: Gate + Sync,
        requires { P.nodes plan ≡ self.now.setup.now.nodes }
    {
        let run = run_threads(
            rt,
            alloc,
            self.program,
            self.setup,
            plan,
            self.pace,
            self.stops,
            policy,
            gate,
        );
        match run {
            Ok((journal, ends)) => self.told(alloc, plan, &journal, &ends),
            Err(fault) => Ok(String::from_str(alloc, number_of(fault))?),
        }
    }

    /// The ends, the report, and what the trace comes to as a schedule.
    fn told<P: Plan>(
        &self,
        alloc: Global,
        plan: P,
        journal: &Journal<P>,
        ends: &[Ended],
    ) -> Result<String, Fault>
        requires { P.nodes plan ≡ self.now.setup.now.nodes }
    {
        let mut out = String::new(alloc);
        for end in ends {
            writeln!(out, "{}", end_text(*end))?;
        }
        if self.shown == Shown::Events {
            let events = journal.book().trace();
            let trace = write_stored_schedule(alloc, self.setup, self.plan, events)?;
            out.push_str(trace.as_str())?;
        }
        let text = report(alloc, journal)?;
        self.add_report(text.as_str(), &mut out)?;
        out.push_str(self.run_again(alloc, plan, journal, text.as_str())?)?;
        Ok(out)
    }

    /// Adds the lines of a report that are shown.
    fn add_report(&self, text: &str, out: &mut String) -> Result<(), Fault> {
        for line in text.lines() {
            if self.shown == Shown::Whole || line.starts_with("node ") {
                writeln!(out, "{line}")?;
            }
        }
        Ok(())
    }

    /// Whether the trace, run as a schedule, has the same report.
    fn run_again<P: Plan>(
        &self,
        alloc: Global,
        plan: P,
        journal: &Journal<P>,
        text: &str,
    ) -> Result<&'static str, Fault>
        requires { P.nodes plan ≡ self.now.setup.now.nodes }
    {
        let events = events_of(alloc, journal.book().trace())?;
        match run_schedule(alloc, self.program, self.setup, plan, &events) {
            Ok(again) if report(alloc, &again)?.as_str() == text => Ok("the same again\n"),
            Ok(_) => Ok("another report\n"),
            Err(RunFault::NoMemory) => Err(Fault::NoMemory),
            Err(_) => Ok("no schedule\n"),
        }
    }
}

/// The answer on the thread setup that a text is.
pub fn threads<R: Threads + Wait + Sync>(
    rt: &R,
    alloc: Global,
    shown: Shown,
    words: &[String],
    input: &str,
) -> Result<String, Fault> {
    let [values, policy @ ..] = words else {
        return Err(Fault::Unreadable);
    };
    let program = gather(alloc, number(values.as_str())?)?;
    let ThreadSetup {
        setup,
        plan,
        pace,
        stops,
    } = read_threads(alloc, input).map_err(schedule_fault)?;
    let policy = Chosen::read(alloc, policy)?;
    let asked = Asked {
        program: &program,
        setup: &setup,
        plan,
        pace,
        stops: &stops,
        shown,
    };
    let plan = NamedPlan::new(plan, setup.nodes).ok_or(Fault::Unreadable)?;
    asked.answer(rt, alloc, plan, policy, &OpenGate)
}

/// A run under a gate, with one receive a round.
fn held<R: Threads + Wait + Sync, Q: Policy + Send + Drop, G: Gate + Sync>(
    rt: &R,
    alloc: Global,
    shown: Shown,
    input: &str,
    policy: Q,
    gate: &G,
) -> Result<String, Fault> {
    let program = gather(alloc, 4)?;
    let ThreadSetup {
        setup,
        pace,
        stops,
        ..
    } = read_threads(alloc, input).map_err(schedule_fault)?;
    let plan = Known::new(setup.nodes, 1).ok_or(Fault::Unreadable)?;
    let asked = Asked {
        program: &program,
        setup: &setup,
        plan: PlanKind::Known(1),
        pace,
        stops: &stops,
        shown,
    };
    asked.answer(rt, alloc, plan, policy, gate)
}

/// Whether no hold of a gate was given up.
fn told_of_holds(gave_up: bool) -> &'static str {
    if gave_up {
        "a hold was given up\n"
    } else {
        "each hold ended\n"
    }
}

/// Four nodes under a gate that holds some of them until others have passed: how each ended, and
/// whether no hold was given up.
pub fn overlap<R: Threads + Wait + Sync>(
    rt: &R,
    alloc: Global,
    input: &str,
) -> Result<String, Fault> {
    let gate = Holder::new();
    let mut out = held(rt, alloc, Shown::Tail, input, Prompt, &gate)?;
    out.push_str(told_of_holds(gate.gave_up()))?;
    Ok(out)
}

/// Two nodes under a gate that holds them until the network has followed its policy, and whether no
/// hold was given up.
pub fn watched<R: Threads + Wait + Sync>(
    rt: &R,
    alloc: Global,
    words: &[String],
    input: &str,
) -> Result<String, Fault> {
    let watch = Watch::new();
    let policy = Watched::new(Chosen::read(alloc, words)?, &watch);
    let mut out = held(rt, alloc, Shown::Whole, input, policy, &watch)?;
    out.push_str(told_of_holds(watch.gave_up()))?;
    Ok(out)
}

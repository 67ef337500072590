//! Writers that fail, and lists.
use crate::reading::known;
use crate::reports::{report, text_of};
use adversary::{RunFault, ScheduleFault, read_schedule, run_schedule};
use omission_explainer::{
    Listed, Report, explain, omissions_give_inbox, sets_part_nodes, write_report,
};
use round_check::{Checked, check};
use round_lang::parse;
use run_events::PlanKind;
use std::alloc::Global;
use std::io;
use std::io::Write;
use test_kit::Fault;

/// The code with which writers fail.
const CODE: i32 = 28;

/// A writer that takes so many bytes, two at a time, and then fails with a code.
#[derive(Drop)]
struct Narrow {
    room: usize,
    taken: Vec<u8>,
}

impl Write for Narrow {
    fn write(&mut self, bytes: &[u8]) -> io::Result<usize> {
        if self.room == 0 {
            return Err(io::Error::from_raw_os_error(CODE));
        }
        let count = bytes.len().min(self.room).min(2);
        self.taken.extend_from_slice(&bytes[..count])?;
        self.room -= count;
        Ok(count)
    }

    fn flush(&mut self) -> io::Result<()> {
        Ok(())
    }
}

/// Whether a writer with so much room takes as much of the text, and its fault comes back.
fn fails_well(alloc: Global, report: &Report, text: &[u8], room: usize) -> Result<bool, Fault> {
    let taken = Vec::with_capacity(alloc, room)?;
    let mut out = Narrow { room, taken };
    let code = match write_report(report, &mut out) {
        Ok(()) => None,
        Err(fault) => fault.raw_os_error(),
    };
    let expected = if room < text.len() { Some(CODE) } else { None };
    Ok(code == expected && out.taken.as_slice() == &text[..room.min(text.len())])
}

/// Gives a report to a writer that fails after each number of its bytes, and to one that takes all.
fn try_report(alloc: Global, report: &Report, out: &mut String) -> Result<(), Fault> {
    let text = text_of(alloc, report)?;
    let length = text.len();
    for room in 0..length {
        if !fails_well(alloc, report, &text, room)? {
            writeln!(out, "WRONG AFTER {room}")?;
            return Ok(());
        }
    }
    if !fails_well(alloc, report, &text, length)? {
        out.push_str("WRONG WHERE ALL IS TAKEN\n")?;
        return Ok(());
    }
    writeln!(
        out,
        "each of {length} writers that fail early took what it could, and its fault came back"
    )?;
    Ok(())
}

/// Does so with the report of this name.
pub fn try_named(alloc: Global, name: &str, out: &mut String) -> Result<(), Fault> {
    try_report(alloc, &report(alloc, name)?, out)
}

fn schedule_fault(fault: ScheduleFault) -> Fault {
    match fault {
        ScheduleFault::NoMemory => Fault::NoMemory,
        _ => Fault::Unreadable,
    }
}

fn run_fault(fault: RunFault) -> Fault {
    match fault {
        RunFault::NoMemory => Fault::NoMemory,
        _ => Fault::Unreadable,
    }
}

/// The report of the run that a schedule's text says, with a known bound.
fn report_of(alloc: Global, program: &Checked, text: &str) -> Result<Report, Fault> {
    let schedule = read_schedule(alloc, text).map_err(schedule_fault)?;
    let PlanKind::Known(delta) = schedule.plan else {
        return Err(Fault::Unreadable);
    };
    let plan = known(schedule.setup.nodes, delta)?;
    let events = schedule.events.to_vec(alloc)?;
    let run = run_schedule(alloc, program, &schedule.setup, plan, &events);
    Ok(explain(alloc, &run.map_err(run_fault)?)?)
}

/// Does so with the report of a run.
pub fn try_run(alloc: Global, source: &str, text: &str, out: &mut String) -> Result<(), Fault> {
    let program = check(alloc, parse(alloc, source)?)?;
    try_report(alloc, &report_of(alloc, &program, text)?, out)
}

/// A list as it is seen, and the items that it gives back.
pub fn list(alloc: Global, out: &mut String) -> Result<(), Fault> {
    let mut counts = Vec::with_capacity(alloc, 2)?;
    counts.push((1u64, 0u64))?;
    counts.push((4, 2))?;
    let counts = Listed::new(counts);
    let length = counts.as_slice().len();
    let counts = counts.into_vec();
    writeln!(out, "{length} items: {:?}", counts.as_slice())?;
    sets_part_nodes();
    omissions_give_inbox();
    Ok(())
}

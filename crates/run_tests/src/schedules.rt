//! Schedules as they are read, and written again; thread setups and headers as they are read.
use adversary::{
    Schedule, ScheduleFault, read_header, read_schedule, read_threads, write_schedule,
};
use round_meaning::Setup;
use run_events::PlanKind;
use std::alloc::Global;
use test_kit::Fault;

/// All that a header says.
fn show_header(setup: &Setup, plan: PlanKind, out: &mut String) -> Result<(), Fault> {
    let nodes = setup.nodes;
    let faults = setup.faults;
    let inputs = setup.inputs.as_slice();
    let rounds = setup.rounds;
    write!(out, "{nodes} {faults} {inputs:?} {rounds} {plan:?}")?;
    Ok(())
}

/// All that a schedule says, on one line.
fn show(alloc: Global, schedule: &Schedule, out: &mut String) -> Result<(), Fault> {
    let events = schedule.events.to_vec(alloc)?;
    show_header(&schedule.setup, schedule.plan, out)?;
    writeln!(out, " {events:?}")?;
    Ok(())
}

/// Why a text is refused; if memory is wanting the program gives up.
fn tell_fault(fault: ScheduleFault, out: &mut String) -> Result<(), Fault> {
    if fault == ScheduleFault::NoMemory {
        return Err(Fault::NoMemory);
    }
    writeln!(out, "{fault:?}")?;
    Ok(())
}

fn is_same(alloc: Global, one: &Schedule, other: &Schedule) -> Result<bool, Fault> {
    let ours = one.events.to_vec(alloc)?;
    let theirs = other.events.to_vec(alloc)?;
    Ok(
        one.setup.same(&other.setup)
            && one.plan == other.plan
            && ours.as_slice() == theirs.as_slice(),
    )
}

/// Writes the schedule, and says whether that is read as the same.
fn write_back(alloc: Global, schedule: &Schedule, out: &mut String) -> Result<(), Fault> {
    let events = schedule.events.to_vec(alloc)?;
    let text = write_schedule(alloc, &schedule.setup, schedule.plan, &events)?;
    out.push_str(text.as_str())?;
    let again = match read_schedule(alloc, text.as_str()) {
        Ok(again) => again,
        Err(fault) => return tell_fault(fault, out),
    };
    let answer = if is_same(alloc, schedule, &again)? {
        "it is read back the same\n"
    } else {
        "READ BACK AS ANOTHER\n"
    };
    out.push_str(answer)?;
    Ok(())
}

/// What the schedule of a text says, how it is written, and whether that is read as the same.
pub fn write_again(alloc: Global, input: &str, out: &mut String) -> Result<(), Fault> {
    match read_schedule(alloc, input) {
        Ok(schedule) => {
            show(alloc, &schedule, out)?;
            write_back(alloc, &schedule, out)
        }
        Err(fault) => tell_fault(fault, out),
    }
}

/// What the thread setup of a text says, on one line.
pub fn tell_threads(alloc: Global, input: &str, out: &mut String) -> Result<(), Fault> {
    match read_threads(alloc, input) {
        Ok(threads) => {
            let pace = threads.pace;
            let stops = threads.stops.as_slice();
            show_header(&threads.setup, threads.plan, out)?;
            writeln!(out, " {pace:?} {stops:?}")?;
            Ok(())
        }
        Err(fault) => tell_fault(fault, out),
    }
}

/// What the header of a text says, on one line.
pub fn tell_header(alloc: Global, input: &str, out: &mut String) -> Result<(), Fault> {
    match read_header(alloc, input) {
        Ok((setup, plan)) => {
            show_header(&setup, plan, out)?;
            out.push_str("\n")?;
            Ok(())
        }
        Err(fault) => tell_fault(fault, out),
    }
}

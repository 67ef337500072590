//! Running the events of a schedule as they are read, on one thread.
ghost use Rattle.std.specs.Prelude.{◌≡◌, ◌⊎◌, All, IfErr, IfOk, length};
ghost use Rattle.round_meaning.specs.Setups.{IsLawful, IsSetup};
ghost use Rattle.adversary.specs.Driving.{AreMore, ClosedAreDue, IsKnown, IsUnknownPast};
ghost use Rattle.adversary.specs.Reading.{IsNotRead, IsRefusedAfter, IsScheduleOf};

use crate::driver::Driver;
use crate::fault::{ReadFault, RunFault};
use crate::running::unknown_at;
use round_check::Checked;
use round_meaning::Setup;
use run_events::Events;
use schedule_text::{ScheduleReader, TextSource};
use slot_plans::Plan;
use std::alloc::Global;
use step_journal::Journal;

/// The journal of a schedule whose events are run as they are read, from a reader that was opened
/// and not read on: as by [`run_schedule`](crate::run_schedule), with no list of all events in
/// memory. `setup` is the one that was handed out with the reader.
///
/// A text that is no schedule is refused before a setup that isn't lawful, and that before an event
/// that names what the run hasn't. Where there is no memory to read on or to open the run, that is
/// told at once; if there is none to run an event, when the rest of the text was read.
pub fn run_read<P: Plan, S: TextSource + Drop>(
    alloc: Global,
    program: &Checked,
    setup: &Setup,
    plan: P,
    reader: ScheduleReader<S>,
) -> Result<Journal<P>, ReadFault>
    requires { IsLawful program.now.values setup.now → P.nodes plan ≡ setup.now.nodes }
    ensures lawful { IfOk result (λ _j. IsLawful program.now.values setup.now) }
    ensures cause { IfErr result (IsNotRead (IsLawful program.now.values setup.now) setup.now
        reader) }
    ensures known { IfOk result (λ j. All (IsKnown setup.now) j.log.trace) }
    ensures program { IfOk result (λ j. j.log.program ≡ program.now) }
    ensures setup { IfOk result (λ j. j.log.setup ≡ setup.now) }
    ensures plan { IfOk result (λ j. j.plan ≡ plan) }
    ensures read { IfOk result (λ j. IsScheduleOf setup.now reader j.log.trace) }
    ensures closed { IfOk result (λ j. ClosedAreDue (P.start j.plan) j.log) }
{
    if !setup.is_lawful(program) {
        return Err(refused_after(alloc, reader, RunFault::BadSetup));
    }
    let mut reader = reader;
    let mut driver = Driver::open(alloc, program, setup, plan)?;
    loop {
        match run_on(driver, reader.events()) {
            Ok(next) => driver = next,
            Err(fault) => return Err(refused_after(alloc, reader, fault)),
        }
        if !reader.advance(alloc)? {
            return Ok(driver.into_journal());
        }
    }
}

/// The run with these events more, up to the first that names what the run hasn't.
fn run_on<P: Plan>(driver: Driver<P>, events: &Events) -> Result<Driver<P>, RunFault>
    requires { IsSetup driver.log.setup }
    ensures known { IfOk result (λ _next. All (IsKnown driver.log.setup) events.now) }
    ensures plan { IfOk result (λ next. next.plan ≡ driver.plan) }
    ensures log { IfOk result (λ next. AreMore driver.log next.log events.now) }
    ensures cause { IfErr result (λ fault. (fault ≡ RunFault.NoMemory)
        ⊎ IsUnknownPast driver.log.setup (length driver.log.trace) events.now fault) }
{
    let (stored, whole) = events.parts();
    let next = driver.act_known(stored)?;
    match whole.first() {
        Some(event) => Err(unknown_at(*event, next.journal().book().trace().len())),
        None => Ok(next),
    }
}

/// The refusal of a run that is refused before the rest of its schedule was read: the text's own
/// fault if it is no schedule, and else this one.
pub fn refused_after<S: TextSource + Drop>(
    alloc: Global,
    reader: ScheduleReader<S>,
    fault: RunFault,
) -> ReadFault
    ensures { IsRefusedAfter reader fault result }
{
    let mut reader = reader;
    match reader.drain(alloc) {
        Ok(()) => ReadFault::Run(fault),
        Err(fault) => ReadFault::Text(fault),
    }
}

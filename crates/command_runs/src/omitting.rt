//! What is made of the messages that a file has a run omit.
ghost use Rattle.std.specs.Prelude.{◌≡◌, All, IfErr, IfOk, IfSome, OnOk, map};
ghost use Rattle.std.specs.Prelude.{string_bytes};
ghost use Rattle.std.specs.List.{range_with_len};
ghost use Rattle.command_runs.specs.InLockstep.{IsWritten};
ghost use Rattle.command_runs.specs.InOmissions.{OmissionCause, ShowsOmitting, realised_by};
ghost use Rattle.command_runs.specs.Refused.{HasNoLines, HasNoOmissions, IsNotRealised};
ghost use Rattle.command_runs.specs.Refused.{IsUnrealised, omission_fault};
ghost use Rattle.command_runs.specs.Served.{IsAsked, IsOmissionText, RealisesOmissions};
ghost use Rattle.command_runs.specs.Served.{ReportsRounds, SaysLines};
ghost use Rattle.command_runs.specs.Stages.{IsUnread};
ghost use Rattle.command_runs.specs.Within.{IsFitOmitting};
ghost use Rattle.omission_texts.specs.Meaning.{IsKnown, IsTableOf};
ghost use Rattle.omission_texts.specs.Stops.{steps_of};
ghost use Rattle.omission_texts.specs.Texts.{Says as SaysOmissions};
ghost use Rattle.round_meaning.specs.Setups.{IsLawful};
ghost use Rattle.slot_plans.specs.Named.{IsPlan, receives_of, start_of};

use crate::desk::Desk;
use crate::lockstep::header_in;
use crate::refusal::Refusal;
use crate::sources::Opened;
use crate::texts::schedule_text_in;
use adversary::RunFault;
use command_words::Source;
use omission_explainer::Report;
use omission_schedules::{rounds_report, schedule_with_stops};
use omission_texts::{Omissions, read_omissions};
use round_check::Checked;
use round_meaning::{OmissionTable, Setup};
use run_events::PlanKind;
use schedule_text::write_stored_schedule;
use slot_plans::{NamedPlan, Plan};
use std::alloc::Global;

/// A source, the file of a header and the file of omissions.
#[derive(Clone, Copy)]
pub(crate) struct Omitting<'a> {
    pub source: Source<'a>,
    pub header: &'a str,
    pub omissions: &'a str,
}

/// What they say.
#[derive(Drop)]
pub(crate) struct Asked {
    pub program: Checked,
    pub setup: Setup,
    pub plan: PlanKind,
    pub omissions: Omissions,
}

impl<'a> Omitting<'a> {
    /// The text of the schedule that omits just what the file says.
    pub(crate) fn schedule<D: Desk>(&self, alloc: Global, desk: &mut D) -> Result<String, Refusal>
        ensures made { IfOk result (λ text. RealisesOmissions self.now.source (D.files desk.old)
            (D.files desk.old self.now.header.now) (D.files desk.old self.now.omissions.now)
            (string_bytes text)) }
        ensures refused { IfErr result (IsUnrealised self.now.source (D.files desk.old)
            (D.files desk.old self.now.header.now) (D.files desk.old self.now.omissions.now)) }
        ensures written { D.written desk.new ≡ D.written desk.old }
    {
        let asked = self.ask(alloc, desk)?;
        schedule_by(alloc, &asked)
    }

    /// The report of the run in rounds that omits just what the file says.
    pub(crate) fn report<D: Desk>(&self, alloc: Global, desk: &mut D) -> Result<Report, Refusal>
        ensures made { IfOk result (ReportsRounds self.now.source (D.files desk.old)
            (D.files desk.old self.now.header.now) (D.files desk.old self.now.omissions.now)) }
        ensures refused { IfErr result (IsUnrealised self.now.source (D.files desk.old)
            (D.files desk.old self.now.header.now) (D.files desk.old self.now.omissions.now)) }
        ensures written { D.written desk.new ≡ D.written desk.old }
    {
        let asked = self.ask(alloc, desk)?;
        report_by(alloc, &asked)
    }

    /// Reads all of it.
    fn ask<D: Desk>(&self, alloc: Global, desk: &mut D) -> Result<Asked, Refusal>
        ensures asked { IfOk result (λ a. IsAsked self.now.source (D.files desk.old)
            (D.files desk.old self.now.header.now) (D.files desk.old self.now.omissions.now)
            a.program a.setup a.plan a.omissions) }
        ensures refused { IfErr result (IsUnrealised self.now.source (D.files desk.old)
            (D.files desk.old self.now.header.now) (D.files desk.old self.now.omissions.now)) }
        ensures written { D.written desk.new ≡ D.written desk.old }
    {
        let opened = Opened::open(alloc, self.source, desk)?;
        let (setup, plan) = header_in(alloc, self.header, desk)?;
        let omissions = omissions_in(alloc, self.omissions, desk)?;
        let program = opened.program(alloc, setup.nodes, setup.faults)?;
        Ok(Asked {
            program,
            setup,
            plan,
            omissions,
        })
    }
}

/// The omissions in a file, or none if there is no such file.
pub(crate) fn lines_in<D: Desk>(
    alloc: Global,
    name: Option<&str>,
    desk: &mut D,
) -> Result<Omissions, Refusal>
    ensures said { IfOk result (SaysLines (D.files desk.old) name.entry) }
    ensures refused { IfErr result (HasNoLines (D.files desk.old) name.entry) }
    ensures written { D.written desk.new ≡ D.written desk.old }
{
    match name {
        Some(name) => omissions_in(alloc, name, desk),
        None => Ok(Omissions::new(Vec::new(alloc))),
    }
}

/// The omissions in a file.
fn omissions_in<D: Desk>(alloc: Global, name: &str, desk: &mut D) -> Result<Omissions, Refusal>
    ensures said { IfOk result (λ ls. IfSome (D.files desk.old name.now)
        (λ text. IsOmissionText text ls)) }
    ensures refused { IfErr result (HasNoOmissions (D.files desk.old name.now)) }
    ensures written { D.written desk.new ≡ D.written desk.old }
{
    let text = schedule_text_in(alloc, name, desk)?;
    omissions_of(alloc, text.as_str())
}

/// The omissions that a text says.
fn omissions_of(alloc: Global, text: &str) -> Result<Omissions, Refusal>
    ensures said { IfOk result (SaysOmissions text.now) }
    ensures refused { IfErr result (IsUnread omission_fault text.now) }
{
    Ok(read_omissions(alloc, text)?)
}

/// The text of the schedule under its plan.
fn schedule_by(alloc: Global, asked: &Asked) -> Result<String, Refusal>
    ensures made { let s = asked.now.setup in let k = asked.now.plan in
        IfOk result (λ text. IsWritten s k
        (realised_by (receives_of k) (start_of k s.nodes) s asked.now.omissions)
        (string_bytes text)) }
    ensures plan { OnOk result (IsPlan asked.now.plan) }
    ensures fit { OnOk result
        (IsFitOmitting asked.now.program asked.now.setup asked.now.omissions) }
    ensures refused { IfErr result (IsNotRealised asked.now.program asked.now.setup asked.now.plan
        asked.now.omissions) }
{
    let Asked {
        program,
        setup,
        plan: kind,
        omissions,
    } = asked;
    let Some(plan) = NamedPlan::new(*kind, setup.nodes) else {
        return Err(Refusal::Run(RunFault::BadSetup));
    };
    Ok(realised_schedule(alloc, program, setup, *kind, plan, omissions)?)
}

/// The report of the run in rounds under its plan.
fn report_by(alloc: Global, asked: &Asked) -> Result<Report, Refusal>
    ensures made { let s = asked.now.setup in let k = asked.now.plan in
        IfOk result (ShowsOmitting (start_of k s.nodes) asked.now.program s asked.now.omissions) }
    ensures plan { OnOk result (IsPlan asked.now.plan) }
    ensures fit { OnOk result
        (IsFitOmitting asked.now.program asked.now.setup asked.now.omissions) }
    ensures refused { IfErr result (IsNotRealised asked.now.program asked.now.setup asked.now.plan
        asked.now.omissions) }
{
    let Asked {
        program,
        setup,
        plan: kind,
        omissions,
    } = asked;
    let Some(plan) = NamedPlan::new(*kind, setup.nodes) else {
        return Err(Refusal::Run(RunFault::BadSetup));
    };
    Ok(rounds_omitting(alloc, program, setup, plan, omissions)?)
}

/// The text of the schedule that goes round by round, omits just what the lines say, and in which a
/// node that they have crash stops.
///
/// `BadSetup` is an unlawful setup, and `UnknownMessage` has the place, from 0, of the first line
/// that names no message of the run.
pub fn realised_schedule<P: Plan>(
    alloc: Global,
    program: &Checked,
    setup: &Setup,
    kind: PlanKind,
    plan: P,
    omissions: &Omissions,
) -> Result<String, RunFault>
    requires { P.nodes plan ≡ setup.now.nodes }
    ensures lawful { IfOk result (λ _text. IsLawful program.now.values setup.now) }
    ensures known { IfOk result (λ _text. All (IsKnown setup.now) omissions.now) }
    ensures cause { IfErr result (OmissionCause program.now setup.now omissions.now) }
    ensures made { IfOk result (λ text. IsWritten setup.now kind
        (realised_by (P.receives plan) (P.start plan) setup.now omissions.now)
        (string_bytes text)) }
{
    let (table, stops) = table_and_stops(alloc, program, setup, plan, omissions)?;
    let events = schedule_with_stops(alloc, setup, plan, &table, &stops)?;
    let text = write_stored_schedule(alloc, setup, kind, &events)?;
    Ok(text)
}

/// The report of the run in rounds that omits just what the lines say, and in which a node that
/// they have crash stops. It makes no schedule, and is the report that `explained_run` gives of the
/// one that [`realised_schedule`] makes.
///
/// Refusals are as there.
pub fn rounds_omitting<P: Plan>(
    alloc: Global,
    program: &Checked,
    setup: &Setup,
    plan: P,
    omissions: &Omissions,
) -> Result<Report, RunFault>
    requires { P.nodes plan ≡ setup.now.nodes }
    ensures lawful { IfOk result (λ _report. IsLawful program.now.values setup.now) }
    ensures known { IfOk result (λ _report. All (IsKnown setup.now) omissions.now) }
    ensures cause { IfErr result (OmissionCause program.now setup.now omissions.now) }
    ensures made { IfOk result
        (ShowsOmitting (P.start plan) program.now setup.now omissions.now) }
{
    let (table, stops) = table_and_stops(alloc, program, setup, plan, omissions)?;
    rounds_report(alloc, program, setup, plan, &table, &stops)
}

/// The table of what the lines omit, and how many steps each node takes.
fn table_and_stops<P: Plan>(
    alloc: Global,
    program: &Checked,
    setup: &Setup,
    plan: P,
    omissions: &Omissions,
) -> Result<(OmissionTable, Vec<u32>), RunFault>
    ensures lawful { IfOk result (λ _parts. IsLawful program.now.values setup.now) }
    ensures known { IfOk result (λ _parts. All (IsKnown setup.now) omissions.now) }
    ensures cause { IfErr result (OmissionCause program.now setup.now omissions.now) }
    ensures table { IfOk result (λ parts. IsTableOf setup.now omissions.now parts.0) }
    ensures stops { IfOk result (λ parts. parts.1.items
        ≡ map (steps_of (P.nodes plan) (P.start plan) setup.now omissions.now)
        (range_with_len 0 setup.now.nodes)) }
{
    if !setup.is_lawful(program) {
        return Err(RunFault::BadSetup);
    }
    if let Some(line) = omissions.unknown_line(setup) {
        return Err(RunFault::UnknownMessage(line));
    }
    let table = omissions.table(alloc, setup)?;
    let stops = omissions.stops(alloc, setup, plan)?;
    Ok((table, stops))
}

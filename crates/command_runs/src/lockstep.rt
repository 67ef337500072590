//! The schedule of a run in lockstep.
ghost use Rattle.std.specs.Prelude.{◌≡◌, ◌<◌, ◌≤◌, ℕ, All, IfErr, IfOk, IfSome, List, OnOk};
ghost use Rattle.command_runs.specs.IdleTexts.{IsReady, schedule_text};
ghost use Rattle.command_runs.specs.InChanges.{AreFitChanges, terms_of};
ghost use Rattle.command_runs.specs.InLockstep.{AreTerms, IsLockstepText, LockstepCause, ticks_of};
ghost use Rattle.command_runs.specs.Refused.{IsMissing, IsNotMade, IsUnasked, IsUnmade};
ghost use Rattle.command_runs.specs.Served.{IsHeader, IsPaced, MakesLockstep};
ghost use Rattle.command_runs.specs.Stages.{IsNoReadOf};
ghost use Rattle.command_runs.specs.Within.{IsFitOmitting};
ghost use Rattle.omission_texts.specs.Meaning.{IsKnown};
ghost use Rattle.run_events.specs.Limits.{max_rounds};
ghost use Rattle.round_meaning.specs.Setups.{IsLawful};
ghost use Rattle.schedule_text.specs.Texts.{SaysOf};
ghost use Rattle.schedule_text.specs.declared.kind.Kind.TheVariants as kinds;
ghost use Rattle.slot_plans.specs.Named.{IsPlan, start_of};

use crate::changes::changes_of;
use crate::desk::Desk;
use crate::explained::nodes_in;
use crate::idle::{IdleTicks, PacedSchedule};
use crate::omitting::{Asked, lines_in};
use crate::refusal::Refusal;
use crate::sources::Opened;
use crate::texts::schedule_text_in;
use adversary::{RunFault, read_header};
use command_words::{NodeStop, OwnDelay, Source};
use lockstep_runs::{Course, run_until_idle};
use omission_texts::Omissions;
use policies::Bounded;
use round_check::Checked;
use round_meaning::Setup;
use run_events::PlanKind;
use schedule_text::write_stored_schedule;
use slot_plans::{NamedPlan, Plan};
use std::alloc::Global;

/// What a run in lockstep is made by: the correct nodes, the delays of the messages and the orders
/// of the steps, the number of ticks, the stops of other nodes and the delays of single messages.
/// `None` stands for as many ticks as all rounds have steps.
#[derive(Clone, Copy)]
pub struct Pacing<'a> {
    pub correct: &'a [u32],
    pub bounded: &'a Bounded,
    pub ticks: Option<u32>,
    pub stops: &'a [NodeStop],
    pub delays: &'a [OwnDelay],
}

/// A source, the file of a header, and that of omissions if there are any.
#[derive(Clone, Copy)]
pub(crate) struct Paced<'a> {
    pub source: Source<'a>,
    pub header: &'a str,
    pub omissions: Option<&'a str>,
}

impl<'a> Paced<'a> {
    /// The schedule.
    pub(crate) fn schedule<'p, D: Desk>(
        &self,
        alloc: Global,
        pacing: Pacing<'p>,
        desk: &mut D,
    ) -> Result<PacedSchedule<'p>, Refusal>
        ensures made { IfOk result (λ made. MakesLockstep self.now.source (D.files desk.old)
            (D.files desk.old self.now.header.now) self.now.omissions (terms_of pacing.entry)
            (schedule_text made)) }
        ensures ready { IfOk result (λ made. IsReady made.idle) }
        ensures refused { IfErr result (IsUnmade self.now.source (D.files desk.old)
            (D.files desk.old self.now.header.now) self.now.omissions (terms_of pacing.entry)) }
        ensures written { D.written desk.new ≡ D.written desk.old }
    {
        let asked = self.ask(alloc, desk)?;
        schedule_by(alloc, &asked, pacing)
    }

    /// Reads what the files say.
    fn ask<D: Desk>(&self, alloc: Global, desk: &mut D) -> Result<Asked, Refusal>
        ensures asked { IfOk result (λ a. IsPaced self.now.source (D.files desk.old)
            (D.files desk.old self.now.header.now) self.now.omissions
            a.program a.setup a.plan a.omissions) }
        ensures refused { IfErr result (IsUnasked self.now.source (D.files desk.old)
            (D.files desk.old self.now.header.now) self.now.omissions) }
        ensures written { D.written desk.new ≡ D.written desk.old }
    {
        let opened = Opened::open(alloc, self.source, desk)?;
        let (setup, plan) = header_in(alloc, self.header, desk)?;
        let omissions = lines_in(alloc, self.omissions, desk)?;
        let program = opened.program(alloc, setup.nodes, setup.faults)?;
        Ok(Asked {
            program,
            setup,
            plan,
            omissions,
        })
    }
}

/// The header in a file.
pub(crate) fn header_in<D: Desk>(
    alloc: Global,
    name: &str,
    desk: &mut D,
) -> Result<(Setup, PlanKind), Refusal>
    ensures header { IfOk result (λ h. IfSome (D.files desk.old name.now)
        (λ text. IsHeader text h.0 h.1)) }
    ensures refused { IfErr result (IsMissing kinds.Header (D.files desk.old name.now)) }
    ensures files { (other : List ℕ) → D.files desk.new other ≡ D.files desk.old other }
    ensures written { D.written desk.new ≡ D.written desk.old }
{
    let text = schedule_text_in(alloc, name, desk)?;
    header_of(alloc, text.as_str())
}

/// The header that a text is.
fn header_of(alloc: Global, text: &str) -> Result<(Setup, PlanKind), Refusal>
    ensures header { IfOk result (λ h. SaysOf kinds.Header text.now h.0 h.1 tt) }
    ensures refused { IfErr result (IsNoReadOf kinds.Header text.now) }
{
    Ok(read_header(alloc, text)?)
}

/// The schedule under its plan.
fn schedule_by<'p>(
    alloc: Global,
    asked: &Asked,
    pacing: Pacing<'p>,
) -> Result<PacedSchedule<'p>, Refusal>
    ensures made { let s = asked.now.setup in let k = asked.now.plan in
        IfOk result (λ made. IsLockstepText (start_of k s.nodes) asked.now.program s k
        asked.now.omissions (terms_of pacing.entry) (schedule_text made)) }
    ensures plan { OnOk result (IsPlan asked.now.plan) }
    ensures fit { OnOk result
        (IsFitOmitting asked.now.program asked.now.setup asked.now.omissions) }
    ensures listed { OnOk result (All (λ n. n < asked.now.setup.nodes) pacing.entry.correct.now) }
    ensures ready { IfOk result (λ made. IsReady made.idle) }
    ensures refused { IfErr result (IsNotMade asked.now.program asked.now.setup asked.now.plan
        asked.now.omissions (terms_of pacing.entry)) }
{
    let Asked {
        program,
        setup,
        plan: kind,
        omissions,
    } = asked;
    let Some(plan) = NamedPlan::new(*kind, setup.nodes) else {
        return Err(Refusal::Run(RunFault::BadSetup));
    };
    Ok(lockstep_schedule(alloc, program, setup, *kind, plan, omissions, pacing)?)
}

/// The schedule of a run in which the listed nodes step in lockstep. A node with a stop steps with
/// them until then, and any other takes no step. The messages that the lines omit are never
/// released, and a message with a delay of its own is due by that one.
///
/// It takes no more memory for ticks in which nothing happens but idle steps.
///
/// `BadSetup` is an unlawful setup, a node in the list that the setup hasn't, a bound outside its
/// limits, a table that is too long, a stop of a node in the list or of one that the setup hasn't,
/// and a delay of a message that the run hasn't. `UnknownMessage` is a line that names no message
/// of the run; it is told before all but the first two.
pub fn lockstep_schedule<'p, P: Plan>(
    alloc: Global,
    program: &Checked,
    setup: &Setup,
    kind: PlanKind,
    plan: P,
    omissions: &Omissions,
    pacing: Pacing<'p>,
) -> Result<PacedSchedule<'p>, RunFault>
    requires { P.nodes plan ≡ setup.now.nodes }
    ensures fit { IfOk result (λ _made. ¬ ¬ (AreTerms program.now setup.now (terms_of pacing.entry)
        × AreFitChanges (P.start plan) setup.now omissions.now (terms_of pacing.entry))) }
    ensures lawful { OnOk result (IsLawful program.now.values setup.now) }
    ensures listed { OnOk result (All (λ n. n < setup.now.nodes) pacing.entry.correct.now) }
    ensures known { IfOk result (λ _made. All (IsKnown setup.now) omissions.now) }
    ensures cause { IfErr result (LockstepCause (P.start plan) program.now setup.now
        omissions.now (terms_of pacing.entry)) }
    ensures made { IfOk result (λ made. IsLockstepText (P.start plan) program.now setup.now kind
        omissions.now (terms_of pacing.entry) (schedule_text made)) }
    ensures ready { IfOk result (λ made. IsReady made.idle) }
{
    if !setup.is_lawful(program) {
        return Err(RunFault::BadSetup);
    }
    let Some(correct) = nodes_in(pacing.correct, setup.nodes) else {
        return Err(RunFault::BadSetup);
    };
    if let Some(line) = omissions.unknown_line(setup) {
        return Err(RunFault::UnknownMessage(line));
    }
    let changes = changes_of(alloc, setup, plan, omissions, pacing)?;
    let bounded = pacing.bounded;
    let course = Course {
        correct,
        bounded,
        changes: &changes,
    };
    let after = ticks_of(plan, setup, pacing.ticks);
    let (journal, first) = run_until_idle(alloc, program, setup, plan, &course, after)?;
    let text = write_stored_schedule(alloc, setup, kind, journal.book().trace())?;
    Ok(PacedSchedule {
        text,
        idle: IdleTicks {
            correct,
            bounded,
            changes,
            nodes: setup.nodes,
            first,
            after,
        },
    })
}

/// How many ticks there are.
fn ticks_of<P: Plan>(plan: P, setup: &Setup, asked: Option<u32>) -> u32
    requires { setup.now.rounds ≤ max_rounds }
    ensures { result ≡ ticks_of (P.start plan) setup.now asked }
{
    match asked {
        Some(ticks) => ticks,
        None => plan.start(setup.rounds + 1),
    }
}

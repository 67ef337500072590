//! Running a command.
ghost use Rattle.std.specs.Prelude.{◌≡◌, ◌<◌, ◌≤◌, ◌⊎◌, ◌++◌, ◌∷◌, [], IfErr, IfOk, IsOk};
ghost use Rattle.std.specs.Prelude.{OnOk, map, true};
ghost use Rattle.std.specs.Io.KnownBytes.{Keeps};
ghost use Rattle.command_runs.specs.Apart.{IsApart, IsApartIfNamed, WritesApart, WroteApart};
ghost use Rattle.command_runs.specs.Desks.{MayWrite, MayWriteTrace, Writes, WritesTrace, WroteAll};
ghost use Rattle.command_runs.specs.Desks.{WroteAtMost, WroteFor};
ghost use Rattle.command_runs.specs.InRounds.{code_of};
ghost use Rattle.command_runs.specs.Refused.{IsCause, IsLeft, IsLeftBy, IsRefused};
ghost use Rattle.command_runs.specs.Refused.{IsRefusedCommand, IsSilent, LeftBySearch};
ghost use Rattle.command_runs.specs.Refused.{LeftByThreads};
ghost use Rattle.command_runs.specs.Refused.{TellsThreads};
ghost use Rattle.command_runs.specs.Served.{AsksForHelp, Ends, IsEnded, SaysAnswer, Serves};
ghost use Rattle.command_runs.specs.InChanges.{terms_of};
ghost use Rattle.command_runs.specs.Stages.{IsRefusedAnswer, IsRefusedLockstep, IsRefusedThreads};
ghost use Rattle.command_runs.specs.Stages.{IsUntold};
ghost use Rattle.command_runs.specs.Stages.{TellsAnswer, TellsLockstep};

use crate::asking::{Answer, Question, Run};
use crate::desk::Desk;
use crate::drawing::draw;
use crate::explained::Terms;
use crate::exploring::{Exploration, Explored, Found};
use crate::forms::{tell_report, write_declared, write_told, write_verdict};
use crate::lockstep::{Paced, Pacing};
use crate::omitting::Omitting;
use crate::outcome::Outcome;
use crate::parts::{put_together, write_explored};
use crate::refusal::Refusal;
use crate::showing::show_source;
use crate::sources::Opened;
use crate::threads::{ThreadRun, Threaded};
use crate::traces::{write_shown, write_trace};
use command_words::{AnswerFormat, Form, Source, Words, WordsFault, read_words};
use policies::{Bounded, Table};
use round_check::Checked;
use std::alloc::Global;
use std::io;
use std::io::Write;
use std::sync::Wait;
use std::thread::Threads;

/// Runs the command that the words name, and answers the exit status: 0 done, 1 refused (the input,
/// an output or a file that can't be written, or a thread that can't be started), 2 a bad command
/// line, 3 no memory, 5 done, and a property that `explore` was asked about fails. A refusal is
/// printed on `err`, in one line, or for a bad command line in `clap`'s own text. Nothing is
/// written to `out` then, but for three cases. If `out` fails it may have a part; if the trace of
/// `explore` isn't written after the search it has the answers; and if the thread of a node had no
/// memory it has the report of what was recorded. If the words ask for help or the version, `out`
/// gets that text.
///
/// With `threads` it waits for its threads, and needn't return.
pub fn run_words<'a, R: Threads + Wait + Sync, D: Desk, O: Write, E: Write>(
    rt: &R,
    alloc: Global,
    words: &'a [&'a str],
    desk: &mut D,
    out: &mut O,
    err: &mut E,
) -> u8
    ensures status { (result ≤ 3) ⊎ (result ≡ 5) }
    // Status 0 or 5: what `out` gained is what the words' command prints of the desk's files, as
    // they were and as they are then, or the words ask for help or the version, of whose text
    // nothing is said. It's 5 exactly if `explore` says `no` of a property.
    ensures served { (o : Outcome) → result ≡ code_of o
        → IsEnded (map (λ s. s.now) words.entry.now) (D.files desk.old)
        (D.files desk.new) o (O.contents out.old) (O.contents out.new) }
    // Another status: a cause holds, and none that comes before it, and `out` gained nothing. If
    // the thread of a node had no memory, it gained the report of what was recorded, whose trace
    // was written. If the trace of a search isn't written, it gained the answers.
    ensures refused { 0 < result → result ≤ 3 → IsRefused (map (λ s. s.now) words.entry.now)
        (D.files desk.old) (D.files desk.new) result (O.contents out.old) (O.contents out.new) }
    // No command writes a file, but for `threads` and `explore` that of a trace.
    ensures written { WroteFor (map (λ s. s.now) words.entry.now)
        (D.written desk.old) (D.written desk.new) }
    // That has another name than the files that the command reads.
    ensures apart { WroteApart (map (λ s. s.now) words.entry.now)
        (D.written desk.old) (D.written desk.new) }
    // With status 0 or 5 `threads` wrote that file, once, and so did `explore` if it was asked to
    // and a property fails.
    ensures traced { (o : Outcome) → result ≡ code_of o
        → WroteAll (map (λ s. s.now) words.entry.now) o (D.written desk.old) (D.written desk.new)
        ⊎ AsksForHelp (map (λ s. s.now) words.entry.now) }
    // With status 0 or 5 nothing was written to `err`.
    ensures quiet { (o : Outcome) → result ≡ code_of o
        → Keeps (E.contents err.old) (E.contents err.new) }
{
    match serve(rt, alloc, words, desk, out) {
        Ok(outcome) => outcome.status(),
        Err(refusal) => {
            // Where `err` fails too there is nobody left to tell.
            let _ = refusal.tell(err);
            refusal.status()
        }
    }
}

/// Carries out the command that the words name; `run_words` also tells why it's refused.
pub fn serve<'a, R: Threads + Wait + Sync, D: Desk, O: Write>(
    rt: &R,
    alloc: Global,
    words: &'a [&'a str],
    desk: &mut D,
    out: &mut O,
) -> Result<Outcome, Refusal>
    ensures served { IfOk result (λ o. IsEnded (map (λ s. s.now) words.entry.now)
        (D.files desk.old) (D.files desk.new) o (O.contents out.old) (O.contents out.new)) }
    ensures refused { IfErr result (IsCause (map (λ s. s.now) words.entry.now) (D.files desk.old)) }
    ensures left { IfErr result (IsLeftBy (map (λ s. s.now) words.entry.now) (D.files desk.old)
        (D.files desk.new) (O.contents out.old) (O.contents out.new)) }
    ensures written { WroteFor (map (λ s. s.now) words.entry.now)
        (D.written desk.old) (D.written desk.new) }
    ensures apart { WroteApart (map (λ s. s.now) words.entry.now)
        (D.written desk.old) (D.written desk.new) }
    ensures traced { IfOk result (λ o. WroteAll (map (λ s. s.now) words.entry.now) o
        (D.written desk.old) (D.written desk.new)
        ⊎ AsksForHelp (map (λ s. s.now) words.entry.now)) }
{
    match read_words(alloc, words) {
        Ok(command) => carry_out(rt, alloc, command, desk, out),
        // Help and the version are no mistakes.
        Err(WordsFault::Refused(error)) if !error.use_stderr() => {
            written(write!(out, "{error}"), out)
        }
        Err(fault) => Err(fault.into()),
    }
}

fn carry_out<'a, R: Threads + Wait + Sync, D: Desk, O: Write>(
    rt: &R,
    alloc: Global,
    command: Words<'a>,
    desk: &mut D,
    out: &mut O,
) -> Result<Outcome, Refusal>
    ensures served { IfOk result (λ o. Ends command.entry (D.files desk.old) (D.files desk.new) o
        (O.contents out.old) (O.contents out.new)) }
    ensures refused { IfErr result (IsRefusedCommand command.entry (D.files desk.old)) }
    ensures left { IfErr result (IsLeft command.entry (D.files desk.old) (D.files desk.new)
        (O.contents out.old) (O.contents out.new)) }
    ensures written { MayWrite command.entry (D.written desk.old) (D.written desk.new) }
    ensures apart { WritesApart command.entry (D.written desk.old) (D.written desk.new) }
    ensures traced { IfOk result (λ o.
        Writes command.entry o (D.written desk.old) (D.written desk.new)) }
{
    match command {
        Words::Check { source, format } => check_source(alloc, source, format, desk, out),
        Words::Show { source } => show_source(alloc, source, desk, out),
        Words::Run {
            source,
            schedule,
            form,
        } => {
            let run = Run { source, schedule };
            answer(alloc, run, Question::Report { form }, desk, out)
        }
        Words::Draw {
            source,
            schedule,
            drawing,
        } => {
            let run = Run { source, schedule };
            draw(alloc, run, &drawing, desk, out)
        }
        Words::Threads {
            source,
            setup,
            trace,
            decided,
        } => {
            let threaded = Threaded {
                source,
                setup,
                trace,
            };
            thread(rt, alloc, threaded, decided, desk, out)
        }
        Words::Judge {
            source,
            schedule,
            correct,
            delta,
            gst,
            format,
        } => {
            let run = Run { source, schedule };
            let terms = Terms {
                correct: &correct,
                delta,
                gst,
            };
            answer(alloc, run, Question::Verdict { terms, format }, desk, out)
        }
        Words::Lockstep {
            source,
            header,
            correct,
            delta,
            gst,
            delays,
            orders,
            ticks,
            changes,
        } => {
            let bounded = Bounded {
                delta,
                gst,
                delays: Table::new(delays),
                orders: Table::new(orders),
            };
            let pacing = Pacing {
                correct: &correct,
                bounded: &bounded,
                ticks,
                stops: &changes.stops,
                delays: &changes.delays,
            };
            let paced = Paced {
                source,
                header,
                omissions: changes.omissions,
            };
            pace(alloc, paced, pacing, desk, out)
        }
        Words::Realise {
            source,
            header,
            omissions,
        } => {
            let omitting = Omitting {
                source,
                header,
                omissions,
            };
            realise(alloc, omitting, desk, out)
        }
        Words::Rounds {
            source,
            header,
            omissions,
            form,
        } => {
            let omitting = Omitting {
                source,
                header,
                omissions,
            };
            run_rounds(alloc, omitting, form, desk, out)
        }
        Words::Explore {
            source,
            header,
            exploring,
            format,
        } => {
            let exploration = Exploration {
                source,
                header,
                exploring,
                format,
            };
            explore(rt, alloc, exploration, desk, out)
        }
        Words::Together { files } => put_together(alloc, files.as_slice(), desk, out),
    }
}

/// Says what a source declares.
#[tactic(auto, using(crate::proofs::Telling::silent_same))]
fn check_source<'a, D: Desk, O: Write>(
    alloc: Global,
    source: Source<'a>,
    format: AnswerFormat,
    desk: &mut D,
    out: &mut O,
) -> Result<Outcome, Refusal>
    ensures done { IfOk result (λ o. o ≡ Outcome.Done) }
    ensures served { OnOk result (Serves (Words.Check source.entry format) (D.files desk.old)
        (D.files desk.new) (O.contents out.old) (O.contents out.new)) }
    ensures refused { IfErr result
        (IsRefusedCommand (Words.Check source.entry format) (D.files desk.old)) }
    ensures silent { IfErr result (IsSilent (O.contents out.old) (O.contents out.new)) }
    ensures written { D.written desk.new ≡ D.written desk.old }
{
    let opened = Opened::open(alloc, source, desk)?;
    let program = opened.program(alloc, 1, 0)?;
    written(write_declared(&program, format, out), out)
}

/// Answers a question on a run.
#[tactic(auto, using(crate::proofs::Telling::silent_same))]
fn answer<'a, D: Desk, O: Write>(
    alloc: Global,
    run: Run<'a>,
    question: Question<'_>,
    desk: &mut D,
    out: &mut O,
) -> Result<Outcome, Refusal>
    ensures done { IfOk result (λ o. o ≡ Outcome.Done) }
    ensures served { OnOk result (TellsAnswer run.entry.source (D.files desk.old)
        (D.files desk.old run.entry.schedule.now) question.entry
        (O.contents out.old) (O.contents out.new)) }
    ensures refused { IfErr result (IsRefusedAnswer run.entry.source (D.files desk.old)
        (D.files desk.old run.entry.schedule.now) question.entry) }
    ensures silent { IfErr result (IsSilent (O.contents out.old) (O.contents out.new)) }
    ensures written { D.written desk.new ≡ D.written desk.old }
{
    let answer = run.answer(alloc, question, desk)?;
    tell_answer(alloc, &answer, out)
}

/// Runs a source by threads, and writes the trace and then the report; both also if the thread of a
/// node had no memory, which is refused after that.
#[tactic(auto, using(crate::proofs::Telling::silent_same))]
fn thread<'a, R: Threads + Wait + Sync, D: Desk, O: Write>(
    rt: &R,
    alloc: Global,
    threaded: Threaded<'a>,
    decided: bool,
    desk: &mut D,
    out: &mut O,
) -> Result<Outcome, Refusal>
    ensures done { IfOk result (λ o. o ≡ Outcome.Done) }
    ensures served { OnOk result (TellsThreads threaded.entry.source (D.files desk.old)
        (D.files desk.old threaded.entry.setup.now) (D.files desk.new threaded.entry.trace.now)
        true decided (O.contents out.old) (O.contents out.new)) }
    ensures refused { IfErr result (IsRefusedThreads threaded.entry.source (D.files desk.old)
        (D.files desk.old threaded.entry.setup.now)) }
    ensures left { IfErr result (LeftByThreads threaded.entry.source (D.files desk.old)
        (D.files desk.old threaded.entry.setup.now) (D.files desk.new threaded.entry.trace.now)
        decided (O.contents out.old) (O.contents out.new)) }
    ensures written { WroteAtMost (D.written desk.old) (D.written desk.new)
        threaded.entry.trace.now }
    ensures apart { (D.written desk.new ≡ D.written desk.old)
        ⊎ IsApart threaded.entry.trace.now threaded.entry.source threaded.entry.setup.now }
    ensures traced { OnOk result
        (D.written desk.new ≡ D.written desk.old ++ threaded.entry.trace.now ∷ []) }
{
    let ThreadRun {
        report,
        trace,
        whole,
    } = threaded.run(rt, alloc, desk)?;
    write_trace(threaded.trace, trace.as_str(), desk)?;
    written(write_told(&report, decided, out), out)?;
    if whole {
        Ok(Outcome::Done)
    } else {
        Err(Refusal::NodeNoMemory)
    }
}

/// Writes the schedule of a run in lockstep.
#[tactic(auto, using(crate::proofs::Telling::silent_same))]
fn pace<'a, D: Desk, O: Write>(
    alloc: Global,
    paced: Paced<'a>,
    pacing: Pacing<'_>,
    desk: &mut D,
    out: &mut O,
) -> Result<Outcome, Refusal>
    ensures done { IfOk result (λ o. o ≡ Outcome.Done) }
    ensures served { OnOk result (TellsLockstep paced.entry.source (D.files desk.old)
        (D.files desk.old paced.entry.header.now) paced.entry.omissions
        (terms_of pacing.entry) (O.contents out.old) (O.contents out.new)) }
    ensures refused { IfErr result (IsRefusedLockstep paced.entry.source (D.files desk.old)
        (D.files desk.old paced.entry.header.now) paced.entry.omissions
        (terms_of pacing.entry)) }
    ensures silent { IfErr result (IsSilent (O.contents out.old) (O.contents out.new)) }
    ensures written { D.written desk.new ≡ D.written desk.old }
{
    let schedule = paced.schedule(alloc, pacing, desk)?;
    written(schedule.write(out), out)
}

/// Writes the schedule that omits what a file says.
#[tactic(auto, using(crate::proofs::Telling::silent_same))]
fn realise<'a, D: Desk, O: Write>(
    alloc: Global,
    omitting: Omitting<'a>,
    desk: &mut D,
    out: &mut O,
) -> Result<Outcome, Refusal>
    ensures done { IfOk result (λ o. o ≡ Outcome.Done) }
    ensures served { OnOk result (Serves
        (Words.Realise omitting.entry.source omitting.entry.header omitting.entry.omissions)
        (D.files desk.old) (D.files desk.new) (O.contents out.old) (O.contents out.new)) }
    ensures refused { IfErr result (IsRefusedCommand
        (Words.Realise omitting.entry.source omitting.entry.header omitting.entry.omissions)
        (D.files desk.old)) }
    ensures silent { IfErr result (IsSilent (O.contents out.old) (O.contents out.new)) }
    ensures written { D.written desk.new ≡ D.written desk.old }
{
    let text = omitting.schedule(alloc, desk)?;
    written(out.write_all(text.as_bytes()), out)
}

/// Writes the report of a run in rounds.
#[tactic(auto, using(crate::proofs::Telling::silent_same))]
fn run_rounds<'a, D: Desk, O: Write>(
    alloc: Global,
    omitting: Omitting<'a>,
    form: Form<'a>,
    desk: &mut D,
    out: &mut O,
) -> Result<Outcome, Refusal>
    ensures done { IfOk result (λ o. o ≡ Outcome.Done) }
    ensures served { OnOk result (Serves
        (Words.Rounds omitting.entry.source omitting.entry.header omitting.entry.omissions
        form.entry) (D.files desk.old) (D.files desk.new) (O.contents out.old)
        (O.contents out.new)) }
    ensures refused { IfErr result (IsRefusedCommand
        (Words.Rounds omitting.entry.source omitting.entry.header omitting.entry.omissions
        form.entry) (D.files desk.old)) }
    ensures silent { IfErr result (IsSilent (O.contents out.old) (O.contents out.new)) }
    ensures written { D.written desk.new ≡ D.written desk.old }
{
    let report = omitting.report(alloc, desk)?;
    tell_report(alloc, &report, form, out)
}

/// Prints what is found in all runs with its details, and then writes the schedule that shows a
/// property failing, also if `out` took no more.
fn explore<'a, R: Threads + Sync, D: Desk, O: Write>(
    rt: &R,
    alloc: Global,
    exploration: Exploration<'a>,
    desk: &mut D,
    out: &mut O,
) -> Result<Outcome, Refusal>
    ensures served { IfOk result (λ o. Ends (Words.Explore exploration.entry.source
        exploration.entry.header exploration.entry.exploring exploration.entry.format)
        (D.files desk.old) (D.files desk.new) o (O.contents out.old) (O.contents out.new)) }
    ensures refused { IfErr result (IsRefusedCommand (Words.Explore exploration.entry.source
        exploration.entry.header exploration.entry.exploring exploration.entry.format)
        (D.files desk.old)) }
    ensures left { IfErr result (LeftBySearch exploration.entry.source (D.files desk.old)
        (D.files desk.old exploration.entry.header.now) exploration.entry.exploring
        exploration.entry.format (O.contents out.old) (O.contents out.new)) }
    ensures written { MayWriteTrace exploration.entry.exploring.trace
        (D.written desk.old) (D.written desk.new) }
    ensures apart { (D.written desk.new ≡ D.written desk.old)
        ⊎ IsApartIfNamed exploration.entry.exploring.trace exploration.entry.source
        exploration.entry.header.now }
    ensures traced { IfOk result (λ o. WritesTrace exploration.entry.exploring.trace o
        (D.written desk.old) (D.written desk.new)) }
{
    let format = exploration.format;
    let Explored { head, found } = exploration.find(rt, alloc, desk)?;
    let Found {
        told,
        trace,
        details,
    } = found;
    let printed = written(write_explored(&head, &told, &details, format, out), out);
    let traced = write_shown(exploration.exploring.trace, &trace, desk);
    printed?;
    match traced {
        Ok(()) => Ok(Outcome::of(&told)),
        Err(fault) => Err(Refusal::Trace(fault)),
    }
}

/// Writes an answer, and all that the writer still holds.
#[tactic(auto, using(crate::proofs::Telling::silent_write))]
fn tell_answer<O: Write>(
    alloc: Global,
    answer: &Answer<'_>,
    out: &mut O,
) -> Result<Outcome, Refusal>
    ensures done { IfOk result (λ o. o ≡ Outcome.Done) }
    ensures said { OnOk result
        (SaysAnswer answer.now (O.contents out.old) (O.contents out.new)) }
    ensures refused { IfErr result (IsUntold answer.now) }
    ensures silent { IfErr result (IsSilent (O.contents out.old) (O.contents out.new)) }
{
    match answer {
        Answer::Report { report, form } => tell_report(alloc, report, *form, out),
        Answer::Verdict { verdict, format } => written(write_verdict(*verdict, *format, out), out),
    }
}

/// Whether all was written, with what the writer still held; `Write` if it wasn't.
pub(crate) fn written<O: Write>(done: io::Result<()>, out: &mut O) -> Result<Outcome, Refusal>
    ensures outcome { IfOk result (λ o. o ≡ Outcome.Done) }
    ensures done { OnOk result (IsOk done) }
    ensures refused { IfErr result (λ r. r ≡ Refusal.Write) }
    ensures kept { OnOk result (Keeps (O.contents out.old) (O.contents out.new)) }
{
    if done.is_err() || out.flush().is_err() {
        return Err(Refusal::Write);
    }
    Ok(Outcome::Done)
}

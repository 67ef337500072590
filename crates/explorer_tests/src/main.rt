//! What exploring all runs of a program answers.
//!
//! ```text
//! explorer_tests [watched] [part INDEX COUNT] [jobs JOBS] SOURCE KIND CLEAR HEARS NODES FAULTS
//!     ROUNDS [INPUT ..] [always WORD ..]
//! ```
//!
//! SOURCE is a program's file, or `@NAME` for a program of the library over two values. KIND is
//! `none`, `omission` or `crash`, CLEAR the clear round or `-`, and HEARS the number of nodes that
//! each node hears at least. Without inputs each list of inputs is asked about. A line for each
//! property says whether it holds of all runs, or the first round in which it fails in a run, that
//! run's inputs, and how its nodes fail: `-` for not at all, `omits`, or the round of a crash. The
//! words after `always` are an expression, which is asked about too.
//!
//! With `watched` a line behind each answer says what the search told of how far it had come: how
//! many notes, whether each followed on the one before, and the last one. With `part` only that
//! part of the lists of inputs is asked about, and with `jobs` so many jobs search at once.
#![tactic(auto)]

ghost use Rattle.round_meaning.specs.Setups.{IsLawful};
ghost use Rattle.std.specs.Prelude.{◌≤◌, length};

mod reading;
mod record;

use reading::{Manner, checked_of, formula_in, manner_of, program_with, question_of, setup_of};
use record::Record;
use round_check::Checked;
use round_explorer::{
    Answer, AskedInputs, Counterexample, Failure, Property, Question, Unwatched, Watch,
    explore_by_jobs,
};
use round_lang::Formula;
use round_meaning::Setup;
use run_events::NoMemory;
use std::alloc::Global;
use std::fmt::Write as _;
use std::process::ExitCode;
use std::thread::Threads;
use std::{env, fs};
use test_kit::{Fault, end, offered, texts};

fn tell_failure(out: &mut String, failure: Failure) -> Result<(), Fault> {
    match failure {
        Failure::Never => write!(out, " -")?,
        Failure::Omits => write!(out, " omits")?,
        Failure::Crashes(round) => write!(out, " {round}")?,
    }
    Ok(())
}

/// A run in which a property fails.
fn tell(out: &mut String, found: &Counterexample) -> Result<(), Fault> {
    write!(out, " no in round {} inputs", found.round)?;
    for input in found.inputs.as_slice() {
        write!(out, " {input}")?;
    }
    write!(out, " failures")?;
    for failure in &found.failures {
        tell_failure(out, *failure)?;
    }
    out.push_str("\n")?;
    Ok(())
}

fn tell_answer(out: &mut String, answer: &Answer) -> Result<(), Fault> {
    match answer {
        Answer::Holds => out.push_str(" yes\n")?,
        Answer::HoldsInAllRounds => out.push_str(" yes in all rounds\n")?,
        Answer::Fails(found) => tell(out, found)?,
    }
    Ok(())
}

/// What a property is called.
fn name_of(property: Property<'_>) -> &'static str {
    match property {
        Property::Agreement => "agreement",
        Property::Validity => "validity",
        Property::Final => "final",
        Property::Safety => "safety",
        Property::Termination => "termination",
        Property::Always(_) => "always",
    }
}

/// All properties, the formula's only if there is a formula.
fn properties<'a>(alloc: Global, formula: Option<&'a Formula>) -> Result<Vec<Property<'a>>, Fault> {
    let mut properties = Vec::new(alloc);
    properties.push(Property::Agreement)?;
    properties.push(Property::Validity)?;
    properties.push(Property::Final)?;
    properties.push(Property::Safety)?;
    properties.push(Property::Termination)?;
    if let Some(formula) = formula {
        properties.push(Property::Always(formula))?;
    }
    Ok(properties)
}

/// Which runs are gone through, and how.
#[derive(Clone, Copy)]
struct Search<'a> {
    program: &'a Checked,
    setup: &'a Setup,
    question: Question,
    asked: AskedInputs,
    manner: Manner,
}

impl<'a> Search<'a> {
    /// Tells the answer of each property.
    fn tell_all<R: Threads + Sync>(
        &self,
        starter: &R,
        alloc: Global,
        formula: Option<&Formula>,
        out: &mut String,
    ) -> Result<(), Fault> {
        if !self.setup.is_lawful(self.program) {
            return Err(Fault::Unreadable);
        }
        for property in &properties(alloc, formula)? {
            self.tell(starter, alloc, *property, out)?;
        }
        Ok(())
    }

    /// Tells the answer of a property, and of a watched search what it told.
    fn tell<R: Threads + Sync>(
        &self,
        starter: &R,
        alloc: Global,
        property: Property<'_>,
        out: &mut String,
    ) -> Result<(), Fault>
        requires { IsLawful self.now.program.now.values self.now.setup.now }
    {
        out.push_str(name_of(property))?;
        if self.manner.is_watched {
            let record = Record::new();
            tell_answer(out, &self.answer(starter, alloc, property, &record)?)?;
            write!(out, "{record}\n")?;
            Ok(())
        } else {
            tell_answer(out, &self.answer(starter, alloc, property, &Unwatched)?)
        }
    }

    fn answer<R: Threads + Sync, W: Watch + Sync>(
        &self,
        starter: &R,
        alloc: Global,
        property: Property<'_>,
        watch: &W,
    ) -> Result<Answer, NoMemory>
        requires { IsLawful self.now.program.now.values self.now.setup.now }
    {
        explore_by_jobs(
            starter,
            self.manner.jobs,
            alloc,
            self.program,
            self.setup,
            self.question,
            self.asked,
            property,
            watch,
        )
    }
}

fn program_of(
    rt: &HostRuntime,
    alloc: Global,
    source: &str,
    setup: &Setup,
) -> Result<Checked, Fault> {
    match source.strip_prefix('@') {
        Some(name) => offered(alloc, name, 2, setup),
        None => {
            let text = fs::read_to_string(rt, source)?;
            checked_of(alloc, text.as_str())
        }
    }
}

/// Does what the words say, and gives what is to be printed.
fn answer<R: Threads + Sync>(
    rt: &HostRuntime,
    starter: &R,
    alloc: Global,
) -> Result<String, Fault> {
    let words = env::args(rt)?.collect::<Vec<String>>(alloc)?;
    let words = texts(alloc, words.as_slice())?;
    let (manner, words) = manner_of(words.as_slice())?;
    let [source, faults, clear, hears, words @ ..] = words else {
        return Err(Fault::Unreadable);
    };
    let place = place_of_always(words);
    let (setup, asked) = setup_of(alloc, &words[..place])?;
    let question = question_of(faults, clear, hears)?;
    let program = program_of(rt, alloc, source, &setup)?;
    let holder = program_with(alloc, &words[place..])?;
    let formula = holder.as_ref().and_then(formula_in);
    let mut out = String::new(alloc);
    let search = Search {
        program: &program,
        setup: &setup,
        question,
        asked: manner.asked(asked)?,
        manner,
    };
    search.tell_all(starter, alloc, formula, &mut out)?;
    Ok(out)
}

/// Where the words have `always`; past the last one, if they haven't.
fn place_of_always(words: &[&str]) -> usize
    ensures { result ≤ length words.now }
{
    match words.iter().position(|word| *word == "always") {
        Some(place) => place,
        None => words.len(),
    }
}

fn main(rt: HostRuntime) -> ExitCode {
    end(&rt, answer(&rt, &rt, rt.alloc()))
}

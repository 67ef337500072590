//! The answers to what is asked.
ghost use Rattle.std.specs.Prelude.{◌≡◌, IfErr, IfOk, None, OnOk, Some, option_map, true};
ghost use Rattle.round_meaning.specs.Setups.{IsLawful};
ghost use Rattle.exploration_texts.specs.Conditions.{IsConditionFor, IsFaultFor};
ghost use Rattle.exploration_texts.specs.Told.{Adds, AddsAlways, AreAnswers, AreAnswersOf};
ghost use Rattle.exploration_texts.specs.Told.{IsAnswerOf, IsKnown, is_of_safety};

use crate::asking::{inputs_of, question_of};
use crate::condition::{ConditionFault, read_condition};
use crate::told::{Answered, Told, name_of};
use command_words::{Checks, Exploring, SampleChoice};
use round_check::Checked;
use round_explorer::{AskedInputs, Property, Question, Watch};
use round_lang::Formula;
use round_meaning::Setup;
use run_events::NoMemory;
use run_samples::{Sampled, Sampling, sample as sample_runs, shrink};
use set_search::explore_by_sets;
use std::alloc::Global;
use std::thread::Threads;

/// Which runs are gone through.
#[derive(Clone, Copy)]
pub(crate) struct Search<'a> {
    pub program: &'a Checked,
    pub setup: &'a Setup,
    pub question: Question,
    pub inputs: AskedInputs,
    /// By how many jobs all runs are gone through.
    pub jobs: u32,
    /// The sample that is gone through in place of all runs.
    pub sample: Option<SampleChoice>,
}

/// What one search for agreement, validity and finality at once tells of each of them.
#[derive(Clone, Copy)]
enum Known {
    /// Nothing: it wasn't made, or there is a failure.
    Nothing,
    /// Each of them holds.
    Hold,
    /// None of them fails in this many runs that were made at random.
    NoneFound(u32),
    /// Each of them holds in any number of rounds.
    HoldInAllRounds,
}

/// The answers to what the options ask of all runs or of a sample, in the order agreement,
/// validity, final, termination, always. `watch` is told how far each search has come.
pub fn answer_all<R: Threads + Sync, W: Watch + Sync>(
    rt: &R,
    alloc: Global,
    program: &Checked,
    setup: &Setup,
    exploring: &Exploring<'_>,
    watch: &W,
) -> Result<Vec<Told>, ConditionFault>
    requires { IsLawful program.now.values setup.now }
    ensures told { IfOk result (λ told.
        AreAnswers program.now setup.now exploring.now told.items) }
    ensures refused { IfErr result (IsFaultFor program.now exploring.now.always) }
{
    let always = condition_of(alloc, program, exploring.always)?;
    let search = Search {
        program,
        setup,
        question: question_of(exploring),
        inputs: inputs_of(exploring),
        jobs: exploring.jobs,
        sample: exploring.sample,
    };
    Ok(answers(rt, alloc, &search, exploring.checks, always.as_ref(), watch)?)
}

/// The condition, if there is one.
fn condition_of(
    alloc: Global,
    program: &Checked,
    text: Option<&str>,
) -> Result<Option<Formula>, ConditionFault>
    ensures read { IfOk result (IsConditionFor program.now text.entry) }
    ensures refused { IfErr result (IsFaultFor program.now text.entry) }
{
    match text {
        None => Ok(None),
        Some(text) => Ok(Some(read_condition(alloc, program, text)?)),
    }
}

/// The answers of a search.
fn answers<R: Threads + Sync, W: Watch + Sync>(
    rt: &R,
    alloc: Global,
    search: &Search<'_>,
    checks: Checks,
    always: Option<&Formula>,
    watch: &W,
) -> Result<Vec<Told>, NoMemory>
    requires { IsLawful search.now.program.now.values search.now.setup.now }
    ensures { IfOk result (λ told. AreAnswersOf search.now checks
        (option_map (λ f. f.now) always.entry) told.items) }
{
    let known = search.search_safety(rt, alloc, checks, watch)?;
    let mut told = Vec::new(alloc);
    search.add_if(
        rt,
        alloc,
        checks.agreement,
        Property::Agreement,
        known,
        &mut told,
        watch,
    )?;
    search.add_if(
        rt,
        alloc,
        checks.validity,
        Property::Validity,
        known,
        &mut told,
        watch,
    )?;
    search.add_if(
        rt,
        alloc,
        checks.finality,
        Property::Final,
        known,
        &mut told,
        watch,
    )?;
    search.add_if(
        rt,
        alloc,
        checks.termination,
        Property::Termination,
        known,
        &mut told,
        watch,
    )?;
    search.add_always(rt, alloc, always, &mut told, watch)?;
    Ok(told)
}

/// Whether more than one of agreement, validity and finality is asked.
fn asks_several(checks: Checks) -> bool {
    (checks.agreement && checks.validity)
        || (checks.finality && (checks.agreement || checks.validity))
}

/// Whether a property is agreement, validity or finality.
fn is_of_safety(property: Property<'_>) -> bool
    ensures { result ≡ is_of_safety property.entry }
{
    matches!(
        property,
        Property::Agreement | Property::Validity | Property::Final
    )
}

impl<'a> Search<'a> {
    /// What one search for agreement, validity and finality tells of each of them. It's made only
    /// if more than one of them is asked, since it takes as long as the search for one.
    fn search_safety<R: Threads + Sync, W: Watch + Sync>(
        &self,
        rt: &R,
        alloc: Global,
        checks: Checks,
        watch: &W,
    ) -> Result<Known, NoMemory>
        requires { IsLawful self.now.program.now.values self.now.setup.now }
        ensures { IfOk result (IsKnown self.now) }
    {
        if !asks_several(checks) {
            return Ok(Known::Nothing);
        }
        match self.explore(rt, alloc, Property::Safety, watch)? {
            Answered::Holds => Ok(Known::Hold),
            Answered::NotFound(made) => Ok(Known::NoneFound(made)),
            Answered::HoldsInAllRounds => Ok(Known::HoldInAllRounds),
            Answered::Fails(_) => Ok(Known::Nothing),
        }
    }

    /// The answer of a search for a property.
    fn explore<R: Threads + Sync, W: Watch + Sync>(
        &self,
        rt: &R,
        alloc: Global,
        property: Property<'_>,
        watch: &W,
    ) -> Result<Answered, NoMemory>
        requires { IsLawful self.now.program.now.values self.now.setup.now }
        ensures { IfOk result (IsAnswerOf self.now property.entry) }
    {
        match self.sample {
            None => self.explore_all(rt, alloc, property, watch),
            Some(sample) => self.explore_some(alloc, sample, property, watch),
        }
    }

    /// The answer of a search through all runs.
    fn explore_all<R: Threads + Sync, W: Watch + Sync>(
        &self,
        rt: &R,
        alloc: Global,
        property: Property<'_>,
        watch: &W,
    ) -> Result<Answered, NoMemory>
        requires lawful { IsLawful self.now.program.now.values self.now.setup.now }
        requires all { self.now.sample ≡ None }
        ensures { IfOk result (IsAnswerOf self.now property.entry) }
    {
        let answer = explore_by_sets(
            rt,
            self.jobs,
            alloc,
            self.program,
            self.setup,
            self.question,
            self.inputs,
            property,
            watch,
        )?;
        Ok(Answered::from(answer))
    }

    /// The answer of a search through a sample.
    fn explore_some<W: Watch>(
        &self,
        alloc: Global,
        sample: SampleChoice,
        property: Property<'_>,
        watch: &W,
    ) -> Result<Answered, NoMemory>
        requires lawful { IsLawful self.now.program.now.values self.now.setup.now }
        requires some { self.now.sample ≡ Some sample }
        ensures { IfOk result (IsAnswerOf self.now property.entry) }
    {
        let sampling = Sampling {
            count: sample.count,
            seed: u64::from(sample.seed),
        };
        let sampled = sample_runs(
            alloc,
            self.program,
            self.setup,
            self.question,
            self.inputs,
            property,
            sampling,
            watch,
        )?;
        match sampled {
            Sampled::Fails(found) => Ok(Answered::Fails(found)),
            Sampled::NotFound(made) => Ok(Answered::NotFound(made)),
        }
    }

    /// The answer of a property, without a search if it's known already.
    fn answer<R: Threads + Sync, W: Watch + Sync>(
        &self,
        rt: &R,
        alloc: Global,
        property: Property<'_>,
        known: Known,
        watch: &W,
    ) -> Result<Answered, NoMemory>
        requires lawful { IsLawful self.now.program.now.values self.now.setup.now }
        requires known { IsKnown self.now known }
        ensures { IfOk result (IsAnswerOf self.now property.entry) }
    {
        match known {
            Known::Hold if is_of_safety(property) => Ok(Answered::Holds),
            Known::NoneFound(made) if is_of_safety(property) => Ok(Answered::NotFound(made)),
            Known::HoldInAllRounds if is_of_safety(property) => Ok(Answered::HoldsInAllRounds),
            _ => {
                let answer = self.explore(rt, alloc, property, watch)?;
                self.shrunk(alloc, property, answer)
            }
        }
    }

    /// The same answer; if it's a failure, without omissions that it doesn't need.
    fn shrunk(
        &self,
        alloc: Global,
        property: Property<'_>,
        answer: Answered,
    ) -> Result<Answered, NoMemory>
        requires lawful { IsLawful self.now.program.now.values self.now.setup.now }
        requires answer { IsAnswerOf self.now property answer }
        ensures { IfOk result (IsAnswerOf self.now property.entry) }
    {
        match answer {
            Answered::Fails(found) => Ok(Answered::Fails(shrink(
                alloc,
                self.program,
                self.setup,
                self.question,
                property,
                found,
            )?)),
            other => Ok(other),
        }
    }

    /// Adds the answer of a property, if it's asked.
    fn add_if<R: Threads + Sync, W: Watch + Sync>(
        &self,
        rt: &R,
        alloc: Global,
        asked: bool,
        property: Property<'_>,
        known: Known,
        told: &mut Vec<Told>,
        watch: &W,
    ) -> Result<(), NoMemory>
        requires lawful { IsLawful self.now.program.now.values self.now.setup.now }
        requires known { IsKnown self.now known }
        ensures { OnOk result
            (Adds self.now asked property.entry told.old.items told.new.items) }
    {
        if asked {
            self.add(rt, alloc, property, known, told, watch)?;
        }
        Ok(())
    }

    /// Adds the answer of a condition, if there is one.
    fn add_always<R: Threads + Sync, W: Watch + Sync>(
        &self,
        rt: &R,
        alloc: Global,
        always: Option<&Formula>,
        told: &mut Vec<Told>,
        watch: &W,
    ) -> Result<(), NoMemory>
        requires { IsLawful self.now.program.now.values self.now.setup.now }
        ensures { OnOk result
            (AddsAlways self.now always.entry told.old.items told.new.items) }
    {
        match always {
            Some(formula) => {
                let property = Property::Always(formula);
                self.add(rt, alloc, property, Known::Nothing, told, watch)
            }
            None => Ok(()),
        }
    }

    /// Adds the answer of a property.
    fn add<R: Threads + Sync, W: Watch + Sync>(
        &self,
        rt: &R,
        alloc: Global,
        property: Property<'_>,
        known: Known,
        told: &mut Vec<Told>,
        watch: &W,
    ) -> Result<(), NoMemory>
        requires lawful { IsLawful self.now.program.now.values self.now.setup.now }
        requires known { IsKnown self.now known }
        ensures { OnOk result (Adds self.now true property.entry told.old.items told.new.items) }
    {
        let name = name_of(property);
        let answer = self.answer(rt, alloc, property, known, watch)?;
        told.push(Told { name, answer })?;
        Ok(())
    }
}

//! What is asked by `explore`, and of which runs.
ghost use Rattle.std.specs.Prelude.{◌≡◌, ◌≤◌, ℕ, IfErr, IfNone, IfOk, IfSome, Some, codes, false};
ghost use Rattle.std.specs.Prelude.{true};
ghost use Rattle.std.specs.List.{list_all, slice_split};
ghost use Rattle.clap.specs.Words.{first_of, found_of, rows_of};
ghost use Rattle.command_words.specs.Exploring.{ChecksText, FailsByExploring, FaultsText};
ghost use Rattle.command_words.specs.Exploring.{GivesClear, GivesExploring, GivesOr, is_property};
ghost use Rattle.command_words.specs.Exploring.{marked, no_checks, usual_checks};
ghost use Rattle.command_words.specs.Headers.{GivesInputs};
ghost use Rattle.command_words.specs.Values.{NumberText, is_comma};
ghost use Rattle.command_words.specs.declared.exploring.FaultChoice.TheVariants as faults;

use crate::headers::has_header_numbers;
use crate::searching::{PartChoice, SampleChoice, jobs_of, part_of, sample_of};
use crate::values::read_number;
use crate::words::{WordsFault, has_flag, optional_text};
use clap::ArgMatches;

/// Whose inputs are asked about.
#[derive(Clone, Copy, Debug, PartialEq, Eq)]
pub enum InputChoice {
    /// The header's.
    Header,
    /// All lists of inputs.
    Any,
}

/// How nodes fail.
#[derive(Clone, Copy, Debug, PartialEq, Eq)]
pub enum FaultChoice {
    Nobody,
    Omission,
    Crash,
}

/// Which properties are asked, but for EXPR.
#[derive(Clone, Copy, Debug, PartialEq, Eq)]
pub struct Checks {
    pub agreement: bool,
    pub validity: bool,
    pub finality: bool,
    pub termination: bool,
}

/// What `explore` asks, and of which runs.
#[derive(Clone, Copy, Debug, PartialEq, Eq)]
pub struct Exploring<'a> {
    pub inputs: InputChoice,
    pub faults: FaultChoice,
    /// C, if it isn't left out.
    pub clear: Option<u32>,
    /// M, or 0 if it is left out.
    pub hears: u32,
    /// I and N, if they aren't left out: then all lists of inputs are asked about, and no sample.
    pub part: Option<PartChoice>,
    /// J, or 1 if it is left out, as it is with a sample.
    pub jobs: u32,
    /// COUNT and S, if COUNT isn't left out.
    pub sample: Option<SampleChoice>,
    pub checks: Checks,
    /// EXPR, if it isn't left out.
    pub always: Option<&'a str>,
    /// The FILE of a schedule as it was written, if it isn't left out.
    pub trace: Option<&'a str>,
    /// Whether the answers are printed alone, without the runs in which properties fail.
    pub brief: bool,
}

impl Checks {
    /// None of them.
    fn none() -> Checks
        ensures { result ≡ no_checks }
    {
        Checks {
            agreement: false,
            validity: false,
            finality: false,
            termination: false,
        }
    }

    /// Those that are asked if `--check` is left out.
    fn usual() -> Checks
        ensures { result ≡ usual_checks }
    {
        Checks {
            agreement: true,
            validity: true,
            finality: true,
            termination: false,
        }
    }

    /// The same with the property of a name.
    fn with(self, name: &str) -> Option<Checks>
        ensures some { IfSome result (λ c. c ≡ marked self name.now) }
        ensures named { IfSome result (λ _c. is_property name.now ≡ true) }
        ensures none { IfNone result (is_property name.now ≡ false) }
    {
        match name {
            "agreement" => Some(Checks {
                agreement: true,
                ..self
            }),
            "validity" => Some(Checks {
                validity: true,
                ..self
            }),
            "final" => Some(Checks {
                finality: true,
                ..self
            }),
            "termination" => Some(Checks {
                termination: true,
                ..self
            }),
            _ => None,
        }
    }
}

/// The properties that a text names with single commas between them.
fn read_checks(text: &str) -> Option<Checks>
    ensures some { IfSome result (ChecksText text.now) }
    ensures none { IfNone result (list_all is_property (slice_split is_comma text.now) ≡ false) }
{
    let mut checks = Checks::none();
    for name in text.split(',') {
        checks = checks.with(name)?;
    }
    Some(checks)
}

/// Whose inputs are asked about.
fn inputs_of(matches: &ArgMatches<'_>) -> Result<InputChoice, WordsFault>
    ensures ok { IfOk result (GivesInputs (rows_of (found_of matches.now))) }
    ensures err { IfErr result (FailsByExploring (rows_of (found_of matches.now))) }
{
    match optional_text(matches, "inputs") {
        None if has_header_numbers(matches) => Ok(InputChoice::Any),
        None => Ok(InputChoice::Header),
        Some("header") => Ok(InputChoice::Header),
        Some("any") => Ok(InputChoice::Any),
        Some(_) => Err(WordsFault::Inputs),
    }
}

/// How nodes fail.
fn faults_of(matches: &ArgMatches<'_>) -> Result<FaultChoice, WordsFault>
    ensures ok { IfOk result (GivesOr faults.Nobody (codes "faults") FaultsText
        (rows_of (found_of matches.now))) }
    ensures err { IfErr result (FailsByExploring (rows_of (found_of matches.now))) }
{
    match optional_text(matches, "faults") {
        None => Ok(FaultChoice::Nobody),
        Some("none") => Ok(FaultChoice::Nobody),
        Some("omission") => Ok(FaultChoice::Omission),
        Some("crash") => Ok(FaultChoice::Crash),
        Some(_) => Err(WordsFault::Faults),
    }
}

/// The value of C, if it isn't left out.
fn clear_of(matches: &ArgMatches<'_>) -> Result<Option<u32>, WordsFault>
    ensures ok { IfOk result (GivesClear (rows_of (found_of matches.now))) }
    ensures err { IfErr result (FailsByExploring (rows_of (found_of matches.now))) }
{
    match optional_text(matches, "clear") {
        None => Ok(None),
        Some(text) => match read_number(text) {
            Some(clear) if 1 <= clear => Ok(Some(clear)),
            _ => Err(WordsFault::Clear),
        },
    }
}

/// The value of M.
fn hears_of(matches: &ArgMatches<'_>) -> Result<u32, WordsFault>
    ensures ok { IfOk result (GivesOr 0 (codes "hears") NumberText
        (rows_of (found_of matches.now))) }
    ensures err { IfErr result (FailsByExploring (rows_of (found_of matches.now))) }
{
    match optional_text(matches, "hears") {
        None => Ok(0),
        Some(text) => read_number(text).ok_or(WordsFault::Hears),
    }
}

/// Which properties are asked.
fn checks_of(matches: &ArgMatches<'_>) -> Result<Checks, WordsFault>
    ensures ok { IfOk result (GivesOr usual_checks (codes "check") ChecksText
        (rows_of (found_of matches.now))) }
    ensures err { IfErr result (FailsByExploring (rows_of (found_of matches.now))) }
{
    match optional_text(matches, "check") {
        None => Ok(Checks::usual()),
        Some(text) => read_checks(text).ok_or(WordsFault::Checks),
    }
}

/// What the options of `explore` say.
pub(crate) fn exploring_of<'a>(matches: &ArgMatches<'a>) -> Result<Exploring<'a>, WordsFault>
    ensures ok { IfOk result (GivesExploring (rows_of (found_of matches.now))) }
    ensures err { IfErr result (FailsByExploring (rows_of (found_of matches.now))) }
{
    Ok(Exploring {
        inputs: inputs_of(matches)?,
        faults: faults_of(matches)?,
        clear: clear_of(matches)?,
        hears: hears_of(matches)?,
        part: part_of(matches)?,
        jobs: jobs_of(matches)?,
        sample: sample_of(matches)?,
        checks: checks_of(matches)?,
        always: optional_text(matches, "always"),
        trace: optional_text(matches, "trace"),
        brief: has_flag(matches, "brief"),
    })
}
